//! Directives, read part by part. Each reader takes the text from where its part may begin, and returns the part and
//! the rest.
ghost use Rattle.std.specs.Prelude.{◌≡◌, ℕ, List, ◌∷◌, Option, Some, MatchOption, option_map};
ghost use Rattle.numbered_arguments.specs.declared.Request.{Request as Value};
ghost use Rattle.script_formats.specs.ScriptParts.{index_at};
ghost use Rattle.gfc_internal_format.specs.GfcDirectives as spec;

use crate::operands::{Operand, stand_in};
use byte_text::split_byte;
use numbered_arguments::Request;
use script_formats::read_index;

/// What a conversion prints, if there is such a conversion.
fn operand_of(conversion: u8) -> Option<Operand>
    ensures { result ≡ spec.operand_of conversion }
{
    match conversion {
        b'C' => Some(Operand::CurrentLocus),
        b'L' => Some(Operand::Locus),
        b'c' => Some(Operand::Character),
        b's' => Some(Operand::Text),
        b'd' | b'i' => Some(Operand::Int),
        b'u' => Some(Operand::Unsigned),
        _ => None,
    }
}

/// What a conversion prints behind an `l`.
fn long_operand_of(conversion: u8) -> Option<Operand>
    ensures { result ≡ spec.long_operand_of conversion }
{
    match conversion {
        b'd' | b'i' => Some(Operand::Long),
        b'u' => Some(Operand::UnsignedLong),
        _ => None,
    }
}

/// A directive that asks for this, and what follows it.
fn asking(number: Option<u32>, operand: Operand, rest: &[u8]) -> (Option<Request>, &[u8])
    ensures asked { result.0 ≡ Some (spec.request number operand) }
    ensures rest { result.1.now ≡ rest.now }
{
    let kind = stand_in(operand);
    (Some(Request { number, kind }), rest)
}

/// Reads what stands behind an `l`.
fn read_long(number: Option<u32>, text: &[u8]) -> Option<(Option<Request>, &[u8])>
    ensures { option_map (λ found. (found.0, found.1.now)) result ≡ spec.behind_l number text.now }
{
    let (conversion, rest) = split_byte(text)?;
    let operand = long_operand_of(conversion)?;
    Some(asking(number, operand, rest))
}

/// Reads what stands behind the number.
fn read_conversion(number: Option<u32>, text: &[u8]) -> Option<(Option<Request>, &[u8])>
    ensures { option_map (λ found. (found.0, found.1.now)) result ≡ spec.behind_number number text.now }
{
    let (conversion, rest) = split_byte(text)?;
    if conversion == b'l' {
        return read_long(number, rest);
    }
    let operand = operand_of(conversion)?;
    Some(asking(number, operand, rest))
}

/// Reads a directive that may have a number.
fn read_placed(text: &[u8]) -> Option<(Option<Request>, &[u8])>
    ensures { option_map (λ found. (found.0, found.1.now)) result ≡ spec.from_index (index_at text.now) }
{
    let (number, rest) = read_index(text)?;
    read_conversion(number, rest)
}

fn read(text: &[u8]) -> Option<(Option<Request>, &[u8])>
    ensures { option_map (λ found. (found.0, found.1.now)) result ≡ spec.directive text.now }
{
    match split_byte(text) {
        Some((b'%', rest)) => Some((None, rest)),
        Some(_) => read_placed(text),
        None => None,
    }
}

/// Reads a directive, from after its `%`: what it asks for, and what follows.
pub(crate) fn read_directive(text: &[u8]) -> Option<(Option<Request>, &[u8])>
    ensures { MatchOption result
        ((asked : Option Value) (rest : List ℕ) → ¬ spec.DirectiveAt asked (spec.percent ∷ text.now) rest)
        (λ found. spec.DirectiveAt found.0 (spec.percent ∷ text.now) found.1.now) }
{
    read(text)
}
