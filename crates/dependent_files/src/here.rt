//! The messages as this machine has them.
ghost use Rattle.std.specs.Prelude.{◌≡◌, IfOk, option_map};
ghost use Rattle.std.specs.List.{AllByRecursion};
ghost use Rattle.mo_segments.specs.MessageStrings.{strings_in, strings_of};
ghost use Rattle.mo_dependent.specs.Splits.{HasSplits, IsSplit};
ghost use Rattle.dependent_files.specs.MessagesHere as Here;

use mo_dependent::{Dependent, SplitText, name_at};
use mo_segments::{Strings, value_of};
use std::alloc::{AllocError, Global};

/// A text with what each segment stands for in its place. None if this machine doesn't know a segment.
fn expanded(alloc: Global, text: &SplitText) -> Result<Option<Vec<u8>>, AllocError>
    requires { HasSplits text.now }
    ensures { IfOk result (λ found. option_map (λ v. v.items) found ≡ Here.expanded_text text.now) }
{
    let bytes = text.bytes.as_slice();
    let mut out = Vec::new(alloc);
    let mut from = 0;
    'splits: for i in 0..text.splits.len() {
        let split = text.splits[i];
        let Some(value) = value_of(name_at(bytes, split)) else {
            return Ok(None);
        };
        out.extend_from_slice(&bytes[from..split.start])?;
        value.push_to(&mut out)?;
        from = split.start + split.len;
    }
    out.extend_from_slice(&bytes[from..])?;
    Ok(Some(out))
}

/// A message with what each segment stands for in its place. None if this machine doesn't know a segment.
fn message_here(alloc: Global, message: &Dependent) -> Result<Option<Strings>, AllocError>
    requires { IsSplit message.now }
    ensures { IfOk result (λ found. option_map strings_in found ≡ Here.message_here message.now) }
{
    let Some(original) = expanded(alloc, &message.original)? else {
        return Ok(None);
    };
    let Some(translation) = expanded(alloc, &message.translation)? else {
        return Ok(None);
    };
    Ok(Some(Strings {
        original,
        translation,
    }))
}

/// Copies a message.
fn copied(alloc: Global, message: &Strings) -> Result<Strings, AllocError>
    ensures { IfOk result (λ copy. strings_in copy ≡ strings_in message.now) }
{
    let original = Vec::from_slice(alloc, message.original.as_slice())?;
    let translation = Vec::from_slice(alloc, message.translation.as_slice())?;
    Ok(Strings {
        original,
        translation,
    })
}

/// Copies messages.
fn copies(alloc: Global, messages: &[Strings]) -> Result<Vec<Strings>, AllocError>
    ensures { IfOk result (λ v. strings_of v.items ≡ strings_of messages.now) }
{
    let mut copies = Vec::with_capacity(alloc, messages.len())?;
    'messages: for message in messages {
        copies.push(copied(alloc, message)?)?;
    }
    Ok(copies)
}

/// The messages as this machine has them: the static ones, and after them the system-dependent ones with what each
/// segment stands for in its place. A message with a segment that the machine doesn't know is left out.
pub(crate) fn messages_here(
    alloc: Global,
    statics: &[Strings],
    dependents: &[Dependent],
) -> Result<Vec<Strings>, AllocError>
    requires { AllByRecursion IsSplit dependents.now }
    ensures { IfOk result (λ v. strings_of v.items ≡ Here.messages_here (strings_of statics.now) dependents.now) }
{
    let mut messages = copies(alloc, statics)?;
    'dependents: for dependent in dependents {
        if let Some(message) = message_here(alloc, dependent)? {
            messages.push(message)?;
        }
    }
    Ok(messages)
}
