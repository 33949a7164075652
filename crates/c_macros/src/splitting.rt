//! The parts of a text that differ from system to system.
ghost use Rattle.std.specs.Prelude.{◌≡◌, ◌↔◌, ◌+◌, ◌++◌, ◌∷◌, [], ◌≤◌, ◌^◌, ◌<◌, IsTrue, OnOk, IfOk, length};
ghost use Rattle.std.specs.List.{list_all};
ghost use Rattle.c_macros.specs.MacroSplits.{AreWithin, flag_splits, is_macro, IsOf, IsSplitAt};
ghost use Rattle.c_macros.specs.MacroScanning.{Fits, named_parts, NamedFits, parts_of};

use crate::directives::{Directive, Named};
use crate::format::read_format;
use crate::{MacroFault, Side, Split};
use std::alloc::{AllocError, Global};

/// Adds the flag at this offset, if it is `I`.
fn add_flag(parts: &mut Vec<Split>, flag: u8, at: usize) -> Result<(), AllocError>
    ensures { OnOk result (parts.new.items ≡ parts.old.items ++ flag_splits at (flag ∷ [])) }
{
    if flag == b'I' {
        parts.push(Split { start: at, len: 1 })?;
    }
    Ok(())
}

/// Adds the flags `I` of these flags, the first of which is at `start`.
fn add_flags(parts: &mut Vec<Split>, flags: &[u8], start: usize) -> Result<(), AllocError>
    requires { start + length flags.now < 2 ^ 64 }
    ensures { OnOk result (parts.new.items ≡ parts.old.items ++ flag_splits start flags.now) }
{
    let mut at = start;
    'flags: for flag in flags {
        add_flag(parts, *flag, at)?;
        at += 1;
    }
    Ok(())
}

fn add_named(parts: &mut Vec<Split>, total: usize, named: Option<Named>) -> Result<(), AllocError>
    requires { NamedFits total named }
    ensures { OnOk result (parts.new.items ≡ parts.old.items ++ named_parts total named) }
{
    match named {
        None => Ok(()),
        Some(named) => {
            parts.push(Split {
                start: total - named.left,
                len: named.len,
            })?;
            Ok(())
        }
    }
}

/// Adds the parts of a directive of a text of `total` bytes.
pub(crate) fn add_parts(
    parts: &mut Vec<Split>,
    total: usize,
    directive: Directive<'_>,
) -> Result<(), AllocError>
    requires { Fits total directive }
    ensures { OnOk result (parts.new.items ≡ parts.old.items ++ parts_of total directive.entry) }
{
    add_flags(
        parts,
        directive.head.flags,
        total - directive.head.flags_left,
    )?;
    add_named(parts, total, directive.named)
}

fn are_macros(parts: &[Split]) -> bool
    ensures { result ≡ list_all is_macro parts.now }
{
    parts.iter().all(|part| part.len != 1)
}

fn is_of(side: Side, parts: &[Split]) -> bool
    ensures { IsTrue result ↔ IsOf side parts.now }
{
    match side {
        Side::Original => are_macros(parts),
        Side::Translation => true,
    }
}

/// The parts of a text, if it is a format that may be on this side; else none.
fn valid_parts(alloc: Global, text: &str, side: Side) -> Result<Vec<Split>, AllocError>
    ensures { IfOk result (λ parts. IsSplitAt side text.now parts.items) }
{
    let none = Vec::new(alloc);
    match read_format(alloc, text) {
        Ok((_kinds, parts)) => if is_of(side, &parts) {
            Ok(parts)
        } else {
            Ok(none)
        },
        Err(MacroFault::Invalid) => Ok(none),
        Err(MacroFault::Memory) => Err(AllocError),
    }
}

/// The parts at which a text is split in an MO file, in order: its macros and, in a translation, its flags `I`.
///
/// A text that is no valid format isn't split, and an original with a flag `I` is none, as in GNU msgfmt.
pub fn splits(alloc: Global, text: &str, side: Side) -> Result<Vec<Split>, AllocError>
    ensures parts { IfOk result (λ parts. IsSplitAt side text.now parts.items) }
    ensures within { IfOk result (λ parts. AreWithin 0 parts.items (length text.now)) }
{
    valid_parts(alloc, text, side)
}
