//! Directives, read part by part. Each reader takes the text from where its part may begin, and returns the part and
//! the rest.
ghost use Rattle.std.specs.Prelude.{◌≡◌, ℕ, List, ◌∷◌, MatchOption, option_map};
ghost use Rattle.std.specs.List.{prefix_len};
ghost use Rattle.format_arguments.specs.Bytes.{behind};
ghost use Rattle.script_formats.specs.ScriptParts.{index_at};
ghost use Rattle.objc_format.specs.declared.directive.Directive.{Directive as Value};
ghost use Rattle.objc_format.specs.ObjcDirectives as spec;
ghost use Rattle.objc_format.specs.ObjcKinds as kinds;

use crate::conversions::{size_of, split_sizes, taken_by, takes_nothing};
use crate::kinds::{Taken, stand_in};
use byte_text::split_byte;
use c_signature::Size as CSize;
use numbered_arguments::{Kind, Request, Size, skip_digits};
use script_formats::read_index;

/// What a directive asks for, in this order.
#[derive(Clone, Copy)]
pub(crate) struct Directive {
    pub(crate) width: Option<Request>,
    pub(crate) precision: Option<Request>,
    /// what the conversion asks for
    pub(crate) argument: Option<Request>,
    /// else nothing is known of it
    pub(crate) is_read: bool,
}

fn asking(
    width: Option<Request>,
    precision: Option<Request>,
    argument: Option<Request>,
) -> Directive
    ensures { result ≡ spec.directive_asking width precision argument }
{
    Directive {
        width,
        precision,
        argument,
        is_read: true,
    }
}

/// A directive that is not read; nothing follows it.
fn unread<'a>() -> (Directive, &'a [u8])
    ensures { (result.0, result.1.now) ≡ spec.unread_directive }
{
    let directive = Directive {
        width: None,
        precision: None,
        argument: None,
        is_read: false,
    };
    (directive, &[])
}

/// Reads what stands behind a star: an `int` with a number or without.
fn read_starred(text: &[u8]) -> Option<(Option<Request>, &[u8])>
    ensures { option_map (λ found. (found.0, found.1.now)) result ≡ spec.with_star (index_at text.now) }
{
    let (number, rest) = read_index(text)?;
    let request = Request {
        number,
        kind: Kind::Integer(Size::Plain),
    };
    Some((Some(request), rest))
}

/// Reads a star, digits or nothing.
fn read_amount(text: &[u8]) -> Option<(Option<Request>, &[u8])>
    ensures { option_map (λ found. (found.0, found.1.now)) result ≡ spec.amount text.now }
{
    match split_byte(text) {
        Some((b'*', rest)) => read_starred(rest),
        _ => Some((None, skip_digits(text))),
    }
}

/// Reads a precision, which may be left out.
fn read_precision(text: &[u8]) -> Option<(Option<Request>, &[u8])>
    ensures { option_map (λ found. (found.0, found.1.now)) result ≡ spec.precision text.now }
{
    match split_byte(text) {
        Some((b'.', rest)) => read_amount(rest),
        _ => Some((None, text)),
    }
}

/// A directive that takes this, and what follows it.
fn taking(
    number: Option<u32>,
    width: Option<Request>,
    precision: Option<Request>,
    taken: Taken,
    rest: &[u8],
) -> (Directive, &[u8])
    ensures { (result.0, result.1.now) ≡ spec.directive_with number width precision rest.now (kinds.stand_in taken) }
{
    match stand_in(taken) {
        Some(kind) => {
            let argument = Some(Request { number, kind });
            (asking(width, precision, argument), rest)
        }
        None => unread(),
    }
}

/// Reads the conversion.
fn read_conversion(
    number: Option<u32>,
    width: Option<Request>,
    precision: Option<Request>,
    size: CSize,
    text: &[u8],
) -> Option<(Directive, &[u8])>
    ensures { option_map (λ found. (found.0, found.1.now)) result
        ≡ spec.behind_size number width precision size text.now }
{
    let (conversion, rest) = split_byte(text)?;
    if takes_nothing(conversion) {
        return Some((asking(width, precision, None), rest));
    }
    let taken = taken_by(conversion, size)?;
    Some(taking(number, width, precision, taken, rest))
}

/// Reads what stands behind the precision.
fn read_sized(
    number: Option<u32>,
    width: Option<Request>,
    precision: Option<Request>,
    text: &[u8],
) -> Option<(Directive, &[u8])>
    ensures { option_map (λ found. (found.0, found.1.now)) result
        ≡ spec.behind_precision number width precision text.now }
{
    let (first, _) = split_byte(text)?;
    if first == b'<' {
        return Some(unread());
    }
    let (letters, rest) = split_sizes(text);
    read_conversion(number, width, precision, size_of(letters), rest)
}

/// Reads what stands behind the flags.
fn read_flagged(number: Option<u32>, text: &[u8]) -> Option<(Directive, &[u8])>
    ensures { option_map (λ found. (found.0, found.1.now)) result ≡ spec.behind_flags number text.now }
{
    let (first, _) = split_byte(text)?;
    if first == b'I' {
        return Some(unread());
    }
    let (width, behind_width) = read_amount(text)?;
    let (precision, rest) = read_precision(behind_width)?;
    read_sized(number, width, precision, rest)
}

fn flags_len(text: &[u8]) -> usize
    ensures { result ≡ prefix_len spec.is_flag text.now }
{
    text.iter()
        .take_while(|byte| matches!(byte, b' ' | b'+' | b'-' | b'#' | b'0' | b'\''))
        .count()
}

fn skip_flags(text: &[u8]) -> &[u8]
    ensures { result.now ≡ behind spec.is_flag text.now }
{
    let (_, rest) = text.split_at(flags_len(text));
    rest
}

fn read(text: &[u8]) -> Option<(Directive, &[u8])>
    ensures { option_map (λ found. (found.0, found.1.now)) result ≡ spec.directive text.now }
{
    let (number, rest) = read_index(text)?;
    read_flagged(number, skip_flags(rest))
}

/// Reads a directive, from after its `%`: what it asks for, and what follows it. Nothing follows one that is not read.
pub(crate) fn read_directive(text: &[u8]) -> Option<(Directive, &[u8])>
    ensures { MatchOption result
        ((directive : Value) (rest : List ℕ) → ¬ spec.DirectiveAt directive (spec.percent ∷ text.now) rest)
        (λ found. spec.DirectiveAt found.0 (spec.percent ∷ text.now) found.1.now) }
{
    read(text)
}
