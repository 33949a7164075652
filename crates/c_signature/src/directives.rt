//! Directives, each read from after its `%`.
ghost use Rattle.std.specs.Prelude.{◌≡◌, ◌↔◌, ◌++◌, ◌∷◌, ◌<◌, List, ℕ, IfOk, IfErr, IsTrue, length, IfSome};
ghost use Rattle.std.specs.List.{prefix_len};
ghost use Rattle.c_signature.specs.Directives.{BeginsMacro, IsAllowed, is_macro_conversion, is_name_byte};
ghost use Rattle.c_signature.specs.FormatScanning.{ReadSame, ReadsDirective, Refuses};
ghost use Rattle.c_signature.specs.Readers.{IsRun, argument_view};
ghost use Rattle.c_signature.specs.Pieces.{percent};

use crate::conversions::{Argument, argument_of};
use crate::parts::{
    Amount, Modifier, after_byte, read_modifier, read_number, read_precision, read_width,
    split_flags,
};
use crate::{FormatFault, Size};
use byte_text::split_byte;

/// A directive, reduced to the arguments that it takes.
#[derive(Clone, Copy)]
pub(crate) struct Directive {
    /// `m$`, the number of its argument
    pub(crate) number: Option<u32>,
    pub(crate) width: Amount,
    pub(crate) precision: Amount,
    pub(crate) argument: Argument,
}

fn may_name(byte: u8) -> bool
    ensures { result ≡ is_name_byte byte }
{
    byte.is_ascii_uppercase() || byte.is_ascii_digit()
}

/// The number of bytes at the front that may be in the name of a macro.
fn name_len(text: &[u8]) -> usize
    ensures { result ≡ prefix_len is_name_byte text.now }
{
    text.iter().take_while(|byte| may_name(**byte)).count()
}

/// Splits off the bytes at the front that may be in the name of a macro: capital letters and digits.
pub fn split_name(text: &[u8]) -> (&[u8], &[u8])
    ensures { IsRun is_name_byte text.now result.0.now result.1.now }
{
    text.split_at(name_len(text))
}

/// Whether `<inttypes.h>` has macros for this conversion (C standard, 7.8.1).
pub fn has_macros(conversion: u8) -> bool
    ensures { result ≡ is_macro_conversion conversion }
{
    matches!(conversion, b'd' | b'i' | b'o' | b'u' | b'x' | b'X')
}

/// Whether the name of a macro is at the front, such as `<PRId64>`.
fn begins_macro(text: &[u8]) -> bool
    ensures { IsTrue result ↔ BeginsMacro text.now }
{
    let Some(behind) = text.strip_prefix(b"<PRI".as_slice()) else {
        return false
    };
    let Some((conversion, behind)) = split_byte(behind) else {
        return false
    };
    let (name, behind) = split_name(behind);
    if !has_macros(conversion) || name.is_empty() {
        return false;
    }
    after_byte(behind, b'>').is_some()
}

/// Whether a directive may take this argument, given the argument number that it has.
pub fn is_allowed(argument: Argument, number: Option<u32>) -> bool
    ensures { IsTrue result ↔ IsAllowed (argument_view argument) number }
{
    match argument {
        Argument::Undefined => false,
        Argument::Nothing => number.is_none(),
        Argument::One(_) => true,
    }
}

/// Reads a directive that is only a conversion, as in `%s` or `%%`. No conversion begins another part of a directive
/// (C standard, 7.21.6.1, 4). `None` says nothing about the text.
#[inline(always)]
fn read_plain(text: &[u8]) -> Option<(Directive, &[u8])>
    ensures { IfSome result (λ found. ReadsDirective found.0 (percent ∷ text.now) found.1.now) }
{
    let (conversion, rest) = split_byte(text)?;
    let argument = argument_of(conversion, Modifier::Of(Size::Plain));
    if !is_allowed(argument, None) {
        return None;
    }
    let directive = Directive {
        number: None,
        width: Amount::Fixed,
        precision: Amount::Fixed,
        argument,
    };
    Some((directive, rest))
}

/// Splits off a directive that is the same conversion in both texts, without other parts. `None` says nothing.
#[inline(always)]
pub(crate) fn split_same<'a>(first: &'a [u8], second: &'a [u8]) -> Option<(&'a [u8], &'a [u8])>
    ensures { IfSome result (λ rests. ReadSame (percent ∷ first.now) (percent ∷ second.now) rests.0.now rests.1.now) }
{
    let (conversion, rest) = split_byte(first)?;
    let (other, others) = split_byte(second)?;
    let argument = argument_of(conversion, Modifier::Of(Size::Plain));
    if conversion != other || !is_allowed(argument, None) {
        return None;
    }
    Some((rest, others))
}

/// Reads a directive part by part, from after its `%`. If it can't be read, the fault is `SystemDependent` for a macro,
/// else `Invalid`.
#[inline(never)]
fn read_parts(text: &[u8]) -> Result<(Directive, &[u8]), FormatFault>
    ensures ok { IfOk result (λ found. ReadsDirective found.0 (percent ∷ text.now) found.1.now) }
    ensures err { IfErr result (λ fault. Refuses fault (percent ∷ text.now)) }
{
    let (number, rest) = read_number(text);
    let (_, rest) = split_flags(rest);
    let (width, rest) = read_width(rest);
    let (precision, rest) = read_precision(rest);
    if begins_macro(rest) {
        return Err(FormatFault::SystemDependent);
    }
    let (modifier, rest) = read_modifier(rest);
    let Some((conversion, rest)) = split_byte(rest) else {
        return Err(FormatFault::Invalid)
    };
    let argument = argument_of(conversion, modifier);
    if !is_allowed(argument, number) {
        return Err(FormatFault::Invalid);
    }
    let directive = Directive {
        number,
        width,
        precision,
        argument,
    };
    Ok((directive, rest))
}

/// Reads a directive, from after its `%`. If it can't be read, the fault is `SystemDependent` for a macro, else
/// `Invalid`.
#[inline(always)]
pub(crate) fn read_directive(text: &[u8]) -> Result<(Directive, &[u8]), FormatFault>
    ensures ok { IfOk result (λ found. ReadsDirective found.0 (percent ∷ text.now) found.1.now) }
    ensures err { IfErr result (λ fault. Refuses fault (percent ∷ text.now)) }
{
    match read_plain(text) {
        Some(found) => Ok(found),
        None => read_parts(text),
    }
}
