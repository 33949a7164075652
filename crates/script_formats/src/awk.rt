//! Directives of awk's `printf`, read part by part. Each reader takes the text from where its part may begin, and
//! returns the part and the rest.
ghost use Rattle.std.specs.Prelude.{◌≡◌, option_map};
ghost use Rattle.script_formats.specs.AwkDirectives as spec;

use crate::directive::{Directive, argument, printed};
use crate::parts::{read_index, skip_flags};
use byte_text::split_byte;
use numbered_arguments::{Kind, Request, Size, skip_digits};

/// Reads `*`, `*m$` or digits, or nothing. None: m is 0.
pub(crate) fn read_amount(text: &[u8]) -> Option<(Option<Request>, &[u8])>
    ensures { option_map (λ found. (found.0, found.1.now)) result ≡ spec.amount text.now }
{
    match split_byte(text) {
        Some((b'*', behind)) => match read_index(behind) {
            Some((number, rest)) => Some((
                argument(number, Some(Kind::Integer(Size::Plain))),
                rest,
            )),
            None => None,
        },
        _ => Some((None, skip_digits(text))),
    }
}

pub(crate) fn read_precision(text: &[u8]) -> Option<(Option<Request>, &[u8])>
    ensures { option_map (λ found. (found.0, found.1.now)) result ≡ spec.precision text.now }
{
    match split_byte(text) {
        Some((b'.', rest)) => read_amount(rest),
        _ => Some((None, text)),
    }
}

/// What a conversion asks for, if there is such a conversion.
fn asked_by(conversion: u8) -> Option<Option<Kind>>
    ensures { result ≡ spec.asked_by conversion }
{
    match conversion {
        b'd' | b'i' => Some(Some(Kind::Integer(Size::Plain))),
        b'u' | b'o' | b'x' | b'X' => Some(Some(Kind::Unsigned(Size::Plain))),
        b'e' | b'E' | b'f' | b'g' | b'G' => Some(Some(Kind::Float(Size::Plain))),
        b'c' => Some(Some(Kind::Character)),
        b's' => Some(Some(Kind::Text)),
        b'%' => Some(None),
        _ => None,
    }
}

/// Reads a directive, from after its `%`.
pub(crate) fn read(text: &[u8]) -> Option<(Directive, &[u8])>
    ensures { option_map (λ found. (found.0, found.1.now)) result ≡ spec.directive text.now }
{
    let (number, behind_number) = read_index(text)?;
    let (width, behind_width) = read_amount(skip_flags(behind_number))?;
    let (precision, behind_precision) = read_precision(behind_width)?;
    let (conversion, rest) = split_byte(behind_precision)?;
    let kind = asked_by(conversion)?;
    Some((printed(width, precision, argument(number, kind)), rest))
}
