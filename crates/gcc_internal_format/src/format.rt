//! Whole formats: directives, and the plain text between them.
ghost use Rattle.std.specs.Prelude.{◌≡◌, ◌&&◌, not, ℕ, List, IfOk, IfErr};
ghost use Rattle.numbered_arguments.specs.declared.Numbered.{Numbered as Asked};
ghost use Rattle.numbered_arguments.specs.NumberedArguments as arguments;
ghost use Rattle.gcc_internal_format.specs.GccFormat.{HasFault, HasSignature};

use crate::collecting::Collected;
use crate::directive::read_directive;
use format_arguments::{FormatFault, next_directive};
use numbered_arguments::{Numbered, is_consistent};
use std::alloc::{AllocError, Global};

/// Whether one format can ask for all of these.
fn fits(alloc: Global, asked: &[Numbered], own: bool, next: bool) -> Result<bool, AllocError>
    ensures { IfOk result (λ fit. fit ≡ (arguments.is_consistent asked.now && not (own && next))) }
{
    let consistent = is_consistent(alloc, asked)?;
    Ok(consistent && !(own && next))
}

/// The arguments that a format of GCC asks for, in the order of the text; a number may come more than once. Number 0 is
/// the error number, which no call passes.
///
/// `Invalid` means that a directive can't be read, that one number has two kinds, or that some arguments have numbers
/// and some don't. `Memory` is returned only if an allocation fails.
pub fn signature(alloc: Global, text: &[u8]) -> Result<Vec<Numbered>, FormatFault>
    ensures ok { IfOk result (λ asked. HasSignature text.now asked.items) }
    ensures err { IfErr result (λ fault. HasFault text.now fault) }
{
    let mut collected = Collected::new(alloc);
    let mut rest = text;
    'directives: while let Some(behind) = next_directive(rest, b'%') {
        let Some((directive, after)) = read_directive(behind) else {
            return Err(FormatFault::Invalid)
        };
        collected.add_all(directive)?;
        rest = after;
    }
    let Collected {
        numbering,
        own,
        next,
    } = collected;
    let fitting = fits(alloc, &numbering.asked, own, next)?;
    if fitting {
        Ok(numbering.asked)
    } else {
        Err(FormatFault::Invalid)
    }
}

/// A law, without code: a text has at most one list of arguments.
pub fn one_signature()
    ensures { (text : List ℕ) (asked others : List Asked) →
        HasSignature text asked → HasSignature text others → asked ≡ others }
{}
