//! Whole formats: directives, and the plain text between them.
ghost use Rattle.std.specs.Prelude.{◌≡◌, ℕ, List, IfOk, IfErr};
ghost use Rattle.numbered_arguments.specs.declared.Numbered.{Numbered as Asked};
ghost use Rattle.java_printf_format.specs.PrintfFormat as spec;

use crate::collecting::Collected;
use crate::directive::read_directive;
use format_arguments::{FormatFault, next_directive};
use numbered_arguments::{Numbered, is_consistent};
use std::alloc::Global;

/// The arguments that a format asks for, in the order of the text; a number may come more than once.
///
/// `Invalid` means that a directive can't be read, that the first argument is said to be the one before, or that one
/// number has two kinds. `Memory` is returned only if an allocation fails.
pub fn signature(alloc: Global, text: &[u8]) -> Result<Vec<Numbered>, FormatFault>
    ensures ok { IfOk result (λ asked. spec.HasSignature text.now asked.items) }
    ensures err { IfErr result (λ fault. spec.HasFault text.now fault) }
{
    let mut collected = Collected::new(alloc);
    let mut rest = text;
    'directives: while let Some(behind) = next_directive(rest, b'%') {
        let Some((directive, after)) = read_directive(behind) else {
            return Err(FormatFault::Invalid)
        };
        collected.add(directive)?;
        rest = after;
    }
    let Collected { asked, .. } = collected;
    let consistent = is_consistent(alloc, &asked)?;
    if consistent {
        Ok(asked)
    } else {
        Err(FormatFault::Invalid)
    }
}

/// A law, without code: a text has at most one list of arguments.
pub fn one_signature()
    ensures { (text : List ℕ) (asked others : List Asked) →
        spec.HasSignature text asked → spec.HasSignature text others → asked ≡ others }
{}
