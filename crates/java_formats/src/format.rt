//! Whole patterns: their elements, and those of the patterns in their choices.
ghost use Rattle.std.specs.Prelude.{◌≡◌, ℕ, List, IfOk, IfErr};
ghost use Rattle.numbered_arguments.specs.declared.Numbered.{Numbered as Asked};
ghost use Rattle.java_formats.specs.JavaFormat as spec;

use crate::Sort;
use crate::kinds::{settled, specific};
use crate::reading::Found;
use format_arguments::FormatFault;
use numbered_arguments::{Numbered, is_consistent};
use std::alloc::Global;

/// The arguments that a pattern takes, those of nested patterns last; a number may come more than once, always with
/// the same kind.
///
/// `Invalid` means that the text isn't a pattern, or that it takes one argument both as a number and as a date.
/// `Memory` is returned only if an allocation fails.
pub fn signature(alloc: Global, text: &[u8]) -> Result<Vec<Numbered>, FormatFault>
    ensures ok { IfOk result (λ asked. spec.HasSignature text.now asked.items) }
    ensures err { IfErr result (λ fault. spec.HasFault text.now fault) }
{
    let mut found = Found {
        asked: Vec::new(alloc),
        pending: Vec::new(alloc),
    };
    found.read(alloc, Sort::Pattern, text)?;
    'nested: while let Some(nested) = found.pending.pop() {
        found.read(alloc, nested.sort, &nested.bytes)?;
    }
    let specific = specific(alloc, &found.asked)?;
    let consistent = is_consistent(alloc, &specific)?;
    if consistent {
        Ok(settled(alloc, &specific, &found.asked)?)
    } else {
        Err(FormatFault::Invalid)
    }
}

/// A law, without code: a text has at most one list of arguments.
pub fn one_signature()
    ensures { (text : List ℕ) (asked others : List Asked) →
        spec.HasSignature text asked → spec.HasSignature text others → asked ≡ others }
{}
