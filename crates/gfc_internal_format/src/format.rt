//! Whole formats: directives, and the plain text between them.
ghost use Rattle.std.specs.Prelude.{◌≡◌, ℕ, List, IfOk, IfErr};
ghost use Rattle.numbered_arguments.specs.declared.Numbered.{Numbered as Asked};
ghost use Rattle.gfc_internal_format.specs.GfcFormat.{HasFault, HasSignature};

use crate::calls::call;
use crate::counting::Counted;
use crate::directive::read_directive;
use format_arguments::{FormatFault, next_directive};
use numbered_arguments::Numbered;
use std::alloc::Global;

/// The arguments that a format of GNU Fortran asks for, in the order of a call. Number 0 is the current locus, which no
/// call passes. The kinds are those of `stand_in`.
///
/// `Invalid` means that a directive can't be read, that one number has two kinds, or that one is left out. `Memory` is
/// returned only if an allocation fails.
pub fn signature(alloc: Global, text: &[u8]) -> Result<Vec<Numbered>, FormatFault>
    ensures ok { IfOk result (λ asked. HasSignature text.now asked.items) }
    ensures err { IfErr result (λ fault. HasFault text.now fault) }
{
    let mut counted = Counted::new(alloc);
    let mut rest = text;
    'directives: while let Some(behind) = next_directive(rest, b'%') {
        let Some((request, after)) = read_directive(behind) else {
            return Err(FormatFault::Invalid)
        };
        counted.add(request)?;
        rest = after;
    }
    match call(alloc, &counted.asked)? {
        Some(asked) => Ok(asked),
        None => Err(FormatFault::Invalid),
    }
}

/// A law, without code: a text has at most one list of arguments.
pub fn one_signature()
    ensures { (text : List ℕ) (asked others : List Asked) →
        HasSignature text asked → HasSignature text others → asked ≡ others }
{}
