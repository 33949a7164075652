//! Whole formats: directives, and the plain text between them.
ghost use Rattle.std.specs.Prelude.{◌≡◌, ◌&&◌, ℕ, List, IfOk, IfErr};
ghost use Rattle.numbered_arguments.specs.declared.Numbered.{Numbered as Asked};
ghost use Rattle.script_formats.specs.declared.Notation.{Notation as NotationValue};
ghost use Rattle.script_formats.specs.Collecting.{allows};
ghost use Rattle.script_formats.specs.ScriptFormat.{HasFault, HasSignature};
ghost use Rattle.script_formats.specs.ScriptKinds as kinds;

use crate::Notation;
use crate::adding::{Collected, Used};
use crate::directive::read_directive;
use crate::kinds::is_consistent_in;
use format_arguments::{FormatFault, next_directive};
use numbered_arguments::Numbered;
use std::alloc::{AllocError, Global};

/// Whether the language lets one format ask for all of these.
fn fits(
    alloc: Global,
    notation: Notation,
    asked: &[Numbered],
    used: Used,
) -> Result<bool, AllocError>
    ensures { IfOk result (λ fit. fit
        ≡ (kinds.is_consistent_in notation asked.now && allows notation used.own used.next)) }
{
    let consistent = is_consistent_in(alloc, notation, asked)?;
    Ok(consistent && used.is_allowed(notation))
}

/// The arguments that a format asks for, in the order of the text; a number may come more than once.
///
/// `Invalid` means that a directive can't be read, that one number has two kinds, or that a format of JavaScript, Tcl,
/// awk or Boost has arguments with numbers and without. `Memory` is returned only if an allocation fails.
pub fn signature(
    alloc: Global,
    notation: Notation,
    text: &[u8],
) -> Result<Vec<Numbered>, FormatFault>
    ensures ok { IfOk result (λ asked. HasSignature notation text.now asked.items) }
    ensures err { IfErr result (λ fault. HasFault notation text.now fault) }
{
    let mut collected = Collected::new(alloc);
    let mut rest = text;
    'directives: while let Some(behind) = next_directive(rest, b'%') {
        let Some((directive, after)) = read_directive(notation, behind) else {
            return Err(FormatFault::Invalid)
        };
        collected.add_all(directive)?;
        rest = after;
    }
    let Collected { numbering, used } = collected;
    let fitting = fits(alloc, notation, &numbering.asked, used)?;
    if fitting {
        Ok(numbering.asked)
    } else {
        Err(FormatFault::Invalid)
    }
}

/// A law, without code: a text has at most one list of arguments.
pub fn one_signature()
    ensures { (notation : NotationValue) (text : List ℕ) (asked others : List Asked) →
        HasSignature notation text asked → HasSignature notation text others → asked ≡ others }
{}
