//! Directives, read part by part. Each reader takes the text from where its part may begin, and returns the part and
//! the rest.
ghost use Rattle.std.specs.Prelude.{◌≡◌, ℕ, List, ◌∷◌, MatchOption, None, option_map};
ghost use Rattle.std.specs.List.{prefix_len};
ghost use Rattle.format_arguments.specs.Bytes.{behind, run};
ghost use Rattle.gcc_internal_format.specs.declared.directive.Directive.{Directive as Value};
ghost use Rattle.script_formats.specs.ScriptParts.{index_at};
ghost use Rattle.gcc_internal_format.specs.GccDirectives as spec;
ghost use Rattle.gcc_internal_format.specs.GccEntities as entities;

use crate::entities::{Entity, stand_in};
use byte_text::split_byte;
use numbered_arguments::{Kind, Request, Size, skip_digits};
use script_formats::read_index;

/// What a directive asks for, in this order.
#[derive(Clone, Copy)]
pub(crate) struct Directive {
    pub(crate) precision: Option<Request>,
    /// what the conversion asks for
    pub(crate) argument: Option<Request>,
}

fn flags_len(text: &[u8]) -> usize
    ensures { result ≡ prefix_len spec.is_flag text.now }
{
    text.iter()
        .take_while(|byte| matches!(byte, b'q' | b'l' | b'w' | b'+' | b'#'))
        .count()
}

fn split_flags(text: &[u8]) -> (&[u8], &[u8])
    ensures flags { result.0.now ≡ run spec.is_flag text.now }
    ensures rest { result.1.now ≡ behind spec.is_flag text.now }
{
    text.split_at(flags_len(text))
}

/// How often a flag is given.
fn count(flags: &[u8], flag: u8) -> usize
    ensures { result ≡ spec.count flags.now flag }
{
    flags.iter().filter(|byte| **byte == flag).count()
}

fn are_allowed(flags: &[u8]) -> bool
    ensures { result ≡ spec.are_allowed flags.now }
{
    count(flags, b'q') < 2
        && count(flags, b'+') < 2
        && count(flags, b'#') < 2
        && count(flags, b'w') < 2
        && count(flags, b'l') < 3
        && (count(flags, b'l') == 0 || count(flags, b'w') == 0)
}

fn size_of(flags: &[u8]) -> Size
    ensures { result ≡ spec.size flags.now }
{
    if count(flags, b'w') == 1 {
        return Size::Native;
    }
    match count(flags, b'l') {
        1 => Size::Long,
        2 => Size::LongLong,
        _ => Size::Plain,
    }
}

/// What only GCC's directives print.
fn entity_of(conversion: u8) -> Option<Entity>
    ensures { result ≡ spec.entity_of conversion }
{
    match conversion {
        b'H' => Some(Entity::Location),
        b'D' | b'J' => Some(Entity::Declaration),
        b'K' => Some(Entity::Statement),
        b'F' => Some(Entity::Function),
        b'T' => Some(Entity::Type),
        b'A' => Some(Entity::Arguments),
        b'E' => Some(Entity::Expression),
        b'V' => Some(Entity::Qualifiers),
        b'C' => Some(Entity::Code),
        b'O' => Some(Entity::Operator),
        b'Q' => Some(Entity::Assignment),
        b'L' => Some(Entity::Language),
        b'P' => Some(Entity::Parameter),
        _ => None,
    }
}

/// The kind of what only GCC's directives print.
fn entity_kind(conversion: u8) -> Option<Kind>
    ensures { result ≡ option_map entities.stand_in (spec.entity_of conversion) }
{
    match entity_of(conversion) {
        Some(entity) => Some(stand_in(entity)),
        None => None,
    }
}

/// The kind of argument that a conversion asks for, if there is such a conversion.
fn asked_by(conversion: u8, size: Size) -> Option<Kind>
    ensures { result ≡ spec.asked_by conversion size }
{
    match conversion {
        b'c' => Some(Kind::Character),
        b's' => Some(Kind::Text),
        b'd' | b'i' => Some(Kind::Integer(size)),
        b'o' | b'u' | b'x' => Some(Kind::Unsigned(size)),
        b'p' => Some(Kind::Pointer),
        _ => entity_kind(conversion),
    }
}

/// Reads the `s` behind a precision.
fn read_text(
    number: Option<u32>,
    precision: Option<Request>,
    text: &[u8],
) -> Option<(Directive, &[u8])>
    ensures { option_map (λ found. (found.0, found.1.now)) result ≡ spec.text_at number precision text.now }
{
    let Some((b's', rest)) = split_byte(text) else {
        return None
    };
    let argument = Some(Request {
        number,
        kind: Kind::Text,
    });
    Some((
        Directive {
            precision,
            argument,
        },
        rest,
    ))
}

/// Whether an argument can be the precision of the one with this number.
fn precedes(own: Option<u32>, number: Option<u32>) -> bool
    ensures { result ≡ spec.precedes own number }
{
    match (own, number) {
        (None, _) => true,
        (Some(_), None) => false,
        (Some(own), Some(number)) => own < number && number - own == 1,
    }
}

/// Reads what stands behind a star.
fn read_starred(number: Option<u32>, text: &[u8]) -> Option<(Directive, &[u8])>
    ensures { option_map (λ found. (found.0, found.1.now)) result ≡ spec.with_star number (index_at text.now) }
{
    let (own, rest) = read_index(text)?;
    if !precedes(own, number) {
        return None;
    }
    let precision = Some(Request {
        number: own,
        kind: Kind::Integer(Size::Plain),
    });
    read_text(number, precision, rest)
}

/// Reads what stands behind a dot.
fn read_precise(number: Option<u32>, text: &[u8]) -> Option<(Directive, &[u8])>
    ensures { option_map (λ found. (found.0, found.1.now)) result ≡ spec.with_precision number text.now }
{
    let (first, rest) = split_byte(text)?;
    if first == b'*' {
        read_starred(number, rest)
    } else if first.is_ascii_digit() {
        read_text(number, None, skip_digits(rest))
    } else {
        None
    }
}

/// Reads what stands behind the flags.
fn read_back(number: Option<u32>, size: Size, text: &[u8]) -> Option<(Directive, &[u8])>
    ensures { option_map (λ found. (found.0, found.1.now)) result ≡ spec.back number size text.now }
{
    let (conversion, rest) = split_byte(text)?;
    if conversion == b'.' {
        return read_precise(number, rest);
    }
    let kind = asked_by(conversion, size)?;
    let directive = Directive {
        precision: None,
        argument: Some(Request { number, kind }),
    };
    Some((directive, rest))
}

/// Reads a directive that may have a number and flags.
fn read_placed(text: &[u8]) -> Option<(Directive, &[u8])>
    ensures { option_map (λ found. (found.0, found.1.now)) result ≡ spec.with_number (index_at text.now) }
{
    let (number, behind_number) = read_index(text)?;
    let (flags, rest) = split_flags(behind_number);
    if are_allowed(flags) {
        read_back(number, size_of(flags), rest)
    } else {
        None
    }
}

/// A directive that takes nothing of a call.
fn asking(argument: Option<Request>) -> Directive
    ensures { result ≡ spec.directive_asking None argument }
{
    Directive {
        precision: None,
        argument,
    }
}

fn read(text: &[u8]) -> Option<(Directive, &[u8])>
    ensures { option_map (λ found. (found.0, found.1.now)) result ≡ spec.directive text.now }
{
    let (first, rest) = split_byte(text)?;
    match first {
        b'%' | b'<' | b'>' | b'\'' => Some((asking(None), rest)),
        b'm' => {
            let error_number = Request {
                number: Some(0),
                kind: Kind::Integer(Size::Plain),
            };
            Some((asking(Some(error_number)), rest))
        }
        _ => read_placed(text),
    }
}

/// Reads a directive, from after its `%`: what it asks for, and what follows.
pub(crate) fn read_directive(text: &[u8]) -> Option<(Directive, &[u8])>
    ensures { MatchOption result
        ((directive : Value) (rest : List ℕ) → ¬ spec.DirectiveAt directive (spec.percent ∷ text.now) rest)
        (λ found. spec.DirectiveAt found.0 (spec.percent ∷ text.now) found.1.now) }
{
    read(text)
}
