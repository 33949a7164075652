//! Whole formats: directives, and the plain text between them.
ghost use Rattle.std.specs.Prelude.{◌≡◌, ℕ, List, IfOk, IfErr, map};
ghost use Rattle.format_arguments.specs.Arguments.{Argument as Asked};
ghost use Rattle.format_arguments.specs.ArgumentViews.{argument_view};
ghost use Rattle.ruby_format.specs.RubyFormat.{HasFault, HasSignature};

use crate::arguments::{arguments, by_number, fits};
use crate::directives::{read_directive, refer};
use format_arguments::{Argument, FormatFault, next_directive};
use std::alloc::Global;

/// The arguments that a Ruby format asks for: those with names in the order of the text, where a name may come more
/// than once, and those without names in the order of their numbers.
///
/// `Invalid` means that a directive can't be read, that arguments are referred to in more than one way, or that one
/// number or name has two kinds. `Memory` is returned only if an allocation fails.
pub fn signature(alloc: Global, text: &[u8]) -> Result<Vec<Argument<'_>>, FormatFault>
    ensures ok { IfOk result (λ asked. HasSignature text.now (map argument_view asked.items)) }
    ensures err { IfErr result (λ fault. HasFault text.now fault) }
{
    let mut references = Vec::new(alloc);
    let mut rest = text;
    'directives: while let Some(behind) = next_directive(rest, b'%') {
        let Some((directive, after)) = read_directive(behind) else {
            return Err(FormatFault::Invalid)
        };
        refer(&mut references, directive)?;
        rest = after;
    }
    let kinds = by_number(alloc, &references)?;
    let asked = arguments(alloc, &kinds, &references)?;
    let fit = fits(alloc, &references, &kinds, &asked)?;
    if fit {
        Ok(asked)
    } else {
        Err(FormatFault::Invalid)
    }
}

/// A law, without code: a text has at most one list of arguments.
pub fn one_signature()
    ensures { (text : List ℕ) (asked others : List Asked) →
        HasSignature text asked → HasSignature text others → asked ≡ others }
{}
