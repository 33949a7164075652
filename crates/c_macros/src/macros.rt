//! Macros of `<inttypes.h>`, such as `<PRIu64>`.
ghost use Rattle.std.specs.Prelude.{◌≡◌, ◌++◌, ◌∷◌, ℕ, List, MatchOption, codes, Option, option_map};
ghost use Rattle.c_macros.specs.declared.Kind.{Kind as KindValue};
ghost use Rattle.c_macros.specs.Macros as spec;

use crate::{Kind, MacroKind, MacroSize};
use byte_text::split_byte;
use c_signature::{ArgKind, Size, has_macros, split_name};
use format_arguments::after_byte;

fn is_signed(conversion: u8) -> bool
    ensures { result ≡ spec.is_signed conversion }
{
    matches!(conversion, b'd' | b'i')
}

fn exact_size(name: &[u8]) -> Option<MacroSize>
    ensures { result ≡ spec.find_size spec.exact_sizes name.now }
{
    if name == b"8".as_slice() {
        Some(MacroSize::Exact8)
    } else if name == b"16".as_slice() {
        Some(MacroSize::Exact16)
    } else if name == b"32".as_slice() {
        Some(MacroSize::Exact32)
    } else if name == b"64".as_slice() {
        Some(MacroSize::Exact64)
    } else {
        None
    }
}

fn least_size(name: &[u8]) -> Option<MacroSize>
    ensures { result ≡ spec.find_size spec.least_sizes name.now }
{
    if name == b"LEAST8".as_slice() {
        Some(MacroSize::Least8)
    } else if name == b"LEAST16".as_slice() {
        Some(MacroSize::Least16)
    } else if name == b"LEAST32".as_slice() {
        Some(MacroSize::Least32)
    } else if name == b"LEAST64".as_slice() {
        Some(MacroSize::Least64)
    } else {
        None
    }
}

fn fast_size(name: &[u8]) -> Option<MacroSize>
    ensures { result ≡ spec.find_size spec.fast_sizes name.now }
{
    if name == b"FAST8".as_slice() {
        Some(MacroSize::Fast8)
    } else if name == b"FAST16".as_slice() {
        Some(MacroSize::Fast16)
    } else if name == b"FAST32".as_slice() {
        Some(MacroSize::Fast32)
    } else if name == b"FAST64".as_slice() {
        Some(MacroSize::Fast64)
    } else {
        None
    }
}

fn pointer_size(name: &[u8]) -> Option<MacroSize>
    ensures { result ≡ spec.find_size spec.pointer_sizes name.now }
{
    if name == b"PTR".as_slice() {
        Some(MacroSize::Pointer)
    } else {
        None
    }
}

fn first_of(one: Option<MacroSize>, other: Option<MacroSize>) -> Option<MacroSize>
    ensures { result ≡ spec.first_of one other }
{
    match one {
        Some(size) => Some(size),
        None => other,
    }
}

/// The size that a name stands for, unless it is `MAX`.
fn size_of(name: &[u8]) -> Option<MacroSize>
    ensures { result ≡ spec.size_of name.now }
{
    let shorter = first_of(exact_size(name), least_size(name));
    first_of(first_of(shorter, fast_size(name)), pointer_size(name))
}

/// The kind of argument that the macros of the name `MAX` take.
fn greatest(conversion: u8) -> Kind
    ensures { result ≡ spec.greatest_kind conversion }
{
    if is_signed(conversion) {
        Kind::Plain(ArgKind::Signed(Size::Max))
    } else {
        Kind::Plain(ArgKind::Unsigned(Size::Max))
    }
}

fn sized(conversion: u8, size: MacroSize) -> Kind
    ensures { result ≡ spec.kind_of_size conversion size }
{
    if is_signed(conversion) {
        Kind::Macro(MacroKind::Signed(size))
    } else {
        Kind::Macro(MacroKind::Unsigned(size))
    }
}

/// The kind of argument that a macro with this conversion and name takes, if there is such a macro.
fn kind_of(conversion: u8, name: &[u8]) -> Option<Kind>
    ensures { result ≡ spec.kind_of conversion name.now }
{
    if name == b"MAX".as_slice() {
        return Some(greatest(conversion));
    }
    match size_of(name) {
        Some(size) => Some(sized(conversion, size)),
        None => None,
    }
}

/// Reads what is between `<PRI` and the end of a macro.
fn read_name(text: &[u8]) -> Option<(Kind, &[u8])>
    ensures { MatchOption result
        ((kind : KindValue) (rest : List ℕ) → ¬ spec.MacroAt kind (codes "<PRI" ++ text.now) rest)
        (λ found. spec.MacroAt found.0 (codes "<PRI" ++ text.now) found.1.now) }
{
    let (conversion, behind) = split_byte(text)?;
    let (name, behind_name) = split_name(behind);
    let rest = after_byte(behind_name, b'>')?;
    if !has_macros(conversion) {
        return None;
    }
    let kind = kind_of(conversion, name)?;
    Some((kind, rest))
}

/// Reads a macro between `<` and `>`, and returns the kind of its argument.
pub(crate) fn read_macro(text: &[u8]) -> Option<(Kind, &[u8])>
    ensures { MatchOption result
        ((kind : KindValue) (rest : List ℕ) → ¬ spec.MacroAt kind text.now rest)
        (λ found. spec.MacroAt found.0 text.now found.1.now) }
{
    let behind = text.strip_prefix(b"<PRI".as_slice())?;
    read_name(behind)
}
