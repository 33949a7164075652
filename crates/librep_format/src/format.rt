//! Whole formats: directives, and the plain text between them.
ghost use Rattle.std.specs.Prelude.{◌≡◌, ℕ, List, IfOk, IfErr};
ghost use Rattle.numbered_arguments.specs.declared.Numbered.{Numbered as Asked};
ghost use Rattle.librep_format.specs.LibrepFormat.{HasFault, HasSignature};

use crate::counting::Counted;
use crate::parts::read_directive;
use format_arguments::{FormatFault, next_directive};
use numbered_arguments::{Numbered, is_consistent};
use std::alloc::Global;

/// The arguments that a format of librep asks for, in the order of the text; a number may come more than once.
///
/// `Invalid` means that a directive can't be read, or that one number has two kinds. `Memory` is returned only if an
/// allocation fails.
pub fn signature(alloc: Global, text: &[u8]) -> Result<Vec<Numbered>, FormatFault>
    ensures ok { IfOk result (λ asked. HasSignature text.now asked.items) }
    ensures err { IfErr result (λ fault. HasFault text.now fault) }
{
    let mut counted = Counted::new(alloc);
    let mut rest = text;
    'directives: while let Some(behind) = next_directive(rest, b'%') {
        let Some((directive, after)) = read_directive(behind) else {
            return Err(FormatFault::Invalid)
        };
        counted.add(directive)?;
        rest = after;
    }
    let Counted { asked, .. } = counted;
    let consistent = is_consistent(alloc, &asked)?;
    if consistent {
        Ok(asked)
    } else {
        Err(FormatFault::Invalid)
    }
}

/// A law, without code: a text has at most one list of arguments.
pub fn one_signature()
    ensures { (text : List ℕ) (asked others : List Asked) →
        HasSignature text asked → HasSignature text others → asked ≡ others }
{}
