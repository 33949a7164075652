//! Texts, read step by step, and the texts nested in them.
ghost use Rattle.std.specs.Prelude.{◌≡◌, ◌<◌, ◌++◌, ◌∷◌, IfOk, OnOk, IfErr, option_map};
ghost use Rattle.java_formats.specs.JavaFormat.{list_of};
ghost use Rattle.java_formats.specs.JavaReading as spec;
ghost use Rattle.java_formats.specs.JavaSteps.{nested_in, nested_texts};

use crate::Sort;
use crate::quotes::unquoted;
use crate::steps::{Step, read_step};
use format_arguments::FormatFault;
use numbered_arguments::Numbered;
use std::alloc::{AllocError, Global};

/// A text that is to be read.
#[derive(Drop)]
pub(crate) struct Text {
    pub(crate) sort: Sort,
    pub(crate) bytes: Vec<u8>,
}

/// What was found so far.
#[derive(Drop)]
pub(crate) struct Found {
    /// the arguments that were taken
    pub(crate) asked: Vec<Numbered>,
    /// nested texts that are to be read
    pub(crate) pending: Vec<Text>,
}

/// The bytes as a text of their own.
fn owned(alloc: Global, bytes: &[u8]) -> Result<Vec<u8>, AllocError>
    ensures { IfOk result (λ own. own.items ≡ bytes.now) }
{
    let mut own = Vec::new(alloc);
    own.extend_from_slice(bytes)?;
    Ok(own)
}

/// The text that is nested in one of this sort.
fn nested_text(alloc: Global, sort: Sort, nested: &[u8]) -> Result<Text, AllocError>
    ensures { IfOk result (λ text. (text.sort, text.bytes.items) ≡ nested_in sort nested.now) }
{
    match sort {
        Sort::Pattern => Ok(Text {
            sort: Sort::Choices,
            bytes: owned(alloc, nested)?,
        }),
        Sort::Choices => Ok(Text {
            sort: Sort::Pattern,
            bytes: unquoted(alloc, nested)?,
        }),
    }
}

/// Adds an argument, if there is one.
fn add_asked(asked: &mut Vec<Numbered>, argument: Option<Numbered>) -> Result<(), AllocError>
    ensures { OnOk result (asked.new.items ≡ asked.old.items ++ list_of argument) }
{
    if let Some(argument) = argument {
        asked.push(argument)?;
    }
    Ok(())
}

/// Adds the text that is nested in one of this sort, if there is one.
fn add_pending(
    pending: &mut Vec<Text>,
    alloc: Global,
    sort: Sort,
    nested: Option<&[u8]>,
) -> Result<(), AllocError>
    ensures { OnOk result (spec.waiting_texts pending.new.items
        ≡ nested_texts sort (option_map (λ text. text.now) nested.entry) ++ spec.waiting_texts pending.old.items) }
{
    if let Some(nested) = nested {
        pending.push(nested_text(alloc, sort, nested)?)?;
    }
    Ok(())
}

impl Found {
    /// Adds what a step in a text of this sort takes, and what is nested in it.
    fn add(&mut self, alloc: Global, sort: Sort, step: Step<'_>) -> Result<(), AllocError>
        ensures asked { OnOk result (self.new.asked.items ≡ self.old.asked.items ++ list_of step.entry.asked) }
        ensures pending { OnOk result (spec.waiting_texts self.new.pending.items
            ≡ nested_texts sort (spec.step_view step.entry).nested ++ spec.waiting_texts self.old.pending.items) }
    {
        add_asked(&mut self.asked, step.asked)?;
        add_pending(&mut self.pending, alloc, sort, step.nested)
    }

    /// Reads a text to its end.
    pub(crate) fn read(&mut self, alloc: Global, sort: Sort, text: &[u8]) -> Result<(), FormatFault>
        ensures ok { OnOk result (spec.Reads ((sort, text.now) ∷ spec.waiting_texts self.old.pending.items)
            self.old self.new) }
        ensures lighter { OnOk result (spec.weight (spec.waiting_texts self.new.pending.items)
            < spec.weight ((sort, text.now) ∷ spec.waiting_texts self.old.pending.items)) }
        ensures err { IfErr result (λ fault.
            spec.Blocks ((sort, text.now) ∷ spec.waiting_texts self.old.pending.items) fault) }
    {
        let mut rest = Some(text);
        'steps: while let Some(text) = rest {
            let Some(step) = read_step(sort, text) else {
                return Err(FormatFault::Invalid)
            };
            self.add(alloc, sort, step)?;
            rest = step.rest;
        }
        Ok(())
    }
}
