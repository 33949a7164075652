//! Whole formats: directives, and the plain text between them.
ghost use Rattle.std.specs.Prelude.{◌≡◌, ℕ, List, IfOk, IfErr};
ghost use Rattle.numbered_arguments.specs.declared.Numbered.{Numbered as Asked};
ghost use Rattle.numbered_formats.specs.declared.Notation.{Notation as NotationValue};
ghost use Rattle.numbered_formats.specs.NumberFormat.{HasFault, HasSignature};

use crate::Notation;
use crate::directives::read_directive;
use crate::gaps::fits;
use format_arguments::{FormatFault, next_directive};
use numbered_arguments::{Numbered, Numbering};
use std::alloc::Global;

/// The arguments that a format asks for, in the order of the text; a number may come more than once.
///
/// `Invalid` means that a directive can't be read, or that a format of KDE leaves out more than one number below
/// another. `Memory` is returned only if an allocation fails.
pub fn signature(
    alloc: Global,
    notation: Notation,
    text: &[u8],
) -> Result<Vec<Numbered>, FormatFault>
    ensures ok { IfOk result (λ asked. HasSignature notation text.now asked.items) }
    ensures err { IfErr result (λ fault. HasFault notation text.now fault) }
{
    let mut numbering = Numbering::new(alloc);
    let mut rest = text;
    'directives: while let Some(behind) = next_directive(rest, b'%') {
        let Some((request, after)) = read_directive(notation, behind) else {
            return Err(FormatFault::Invalid)
        };
        numbering.add(request)?;
        rest = after;
    }
    let Numbering { asked, .. } = numbering;
    let fitting = fits(alloc, notation, &asked)?;
    if fitting {
        Ok(asked)
    } else {
        Err(FormatFault::Invalid)
    }
}

/// A law, without code: a text has at most one list of arguments.
pub fn one_signature()
    ensures { (notation : NotationValue) (text : List ℕ) (asked others : List Asked) →
        HasSignature notation text asked → HasSignature notation text others → asked ≡ others }
{}
