//! Directives of Tcl's `format`, read part by part. Each reader takes the text from where its part may begin, and
//! returns the part and the rest.
ghost use Rattle.std.specs.Prelude.{◌≡◌, option_map};
ghost use Rattle.script_formats.specs.TclDirectives as spec;

use crate::directive::{Directive, argument, printed};
use crate::parts::{after_percent, following, read_amount, read_index, skip_flags};
use byte_text::split_byte;
use numbered_arguments::{Kind, Request, Size};

/// The number of the next argument of a directive, after one that may have been asked for.
fn next_place(number: Option<u32>, asked: Option<Request>) -> Option<u32>
    ensures { result ≡ spec.next_place number asked }
{
    match (number, asked) {
        (Some(number), Some(_)) => Some(following(number)),
        _ => number,
    }
}

fn read_precision(number: Option<u32>, text: &[u8]) -> (Option<Request>, &[u8])
    ensures request { result.0 ≡ (spec.precision number text.now).0 }
    ensures rest { result.1.now ≡ (spec.precision number text.now).1 }
{
    match split_byte(text) {
        Some((b'.', rest)) => read_amount(number, rest),
        _ => (None, text),
    }
}

/// Reads `h`, `l` or nothing.
fn read_size(text: &[u8]) -> (Size, &[u8])
    ensures size { result.0 ≡ (spec.size text.now).0 }
    ensures rest { result.1.now ≡ (spec.size text.now).1 }
{
    match split_byte(text) {
        Some((b'h', rest)) => (Size::Short, rest),
        Some((b'l', rest)) => (Size::Plain, rest),
        _ => (Size::Plain, text),
    }
}

/// What a conversion asks for, if there is such a conversion.
fn asked_by(conversion: u8, size: Size) -> Option<Kind>
    ensures { result ≡ spec.asked_by conversion size }
{
    match conversion {
        b'c' => Some(Kind::Character),
        b's' => Some(Kind::Text),
        b'd' | b'i' => Some(Kind::Integer(size)),
        b'u' | b'o' | b'x' | b'X' => Some(Kind::Unsigned(size)),
        b'e' | b'E' | b'f' | b'g' | b'G' => Some(Kind::Float(Size::Plain)),
        _ => None,
    }
}

/// Reads what stands behind the precision.
fn read_conversion(
    number: Option<u32>,
    width: Option<Request>,
    precision: Option<Request>,
    text: &[u8],
) -> Option<(Directive, &[u8])>
    ensures { option_map (λ found. (found.0, found.1.now)) result
        ≡ spec.behind_amounts number width precision text.now }
{
    let (size, behind_size) = read_size(text);
    let (conversion, rest) = split_byte(behind_size)?;
    let kind = asked_by(conversion, size)?;
    let asked = argument(number, Some(kind));
    Some((printed(width, precision, asked), rest))
}

/// Reads what stands behind the flags.
fn read_back(number: Option<u32>, text: &[u8]) -> Option<(Directive, &[u8])>
    ensures { option_map (λ found. (found.0, found.1.now)) result ≡ spec.behind_flags number text.now }
{
    let (width, behind_width) = read_amount(number, text);
    let number = next_place(number, width);
    let (precision, behind_precision) = read_precision(number, behind_width);
    let number = next_place(number, precision);
    read_conversion(number, width, precision, behind_precision)
}

/// Reads a directive, from after its `%`.
pub(crate) fn read(text: &[u8]) -> Option<(Directive, &[u8])>
    ensures { option_map (λ found. (found.0, found.1.now)) result ≡ spec.directive text.now }
{
    if let Some(rest) = after_percent(text) {
        return Some((printed(None, None, None), rest));
    }
    let (number, rest) = read_index(text)?;
    read_back(number, skip_flags(rest))
}
