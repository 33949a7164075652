//! Directives of Boost's `format`, read part by part. Each reader takes the text from where its part may begin, and
//! returns the part and the rest.
ghost use Rattle.std.specs.Prelude.{◌≡◌, option_map, true};
ghost use Rattle.std.specs.List.{prefix_len};
ghost use Rattle.format_arguments.specs.Bytes.{behind};
ghost use Rattle.script_formats.specs.BoostDirectives as spec;

use crate::awk::{read_amount, read_precision};
use crate::directive::{Directive, argument, printed};
use crate::parts::after_percent;
use byte_text::split_byte;
use numbered_arguments::{Kind, Size, number_of, split_digits};

/// What a number at the start of a directive says.
#[derive(Clone, Copy)]
pub enum Start {
    /// the directive ends: it takes the argument of this number
    Whole(u32),
    /// the directive goes on, with a number or without
    Number(Option<u32>),
}

/// What follows a bar.
fn after_bar(text: &[u8]) -> Option<&[u8]>
    ensures { option_map (λ rest. rest.now) result ≡ spec.behind_bar text.now }
{
    match split_byte(text) {
        Some((b'|', rest)) => Some(rest),
        _ => None,
    }
}

/// Reads what ends this number, at the front of the text. None: the number is 0.
fn read_end<'a>(
    barred: bool,
    text: &'a [u8],
    number: u32,
    behind: &'a [u8],
) -> Option<(Start, &'a [u8])>
    ensures { option_map (λ found. (found.0, found.1.now)) result
        ≡ spec.behind_digits barred text.now number behind.now }
{
    match split_byte(behind) {
        Some((b'$', rest)) => if number == 0 {
            None
        } else {
            Some((Start::Number(Some(number)), rest))
        },
        Some((b'%', rest)) => if barred {
            Some((Start::Number(None), text))
        } else if number == 0 {
            None
        } else {
            Some((Start::Whole(number), rest))
        },
        _ => Some((Start::Number(None), text)),
    }
}

fn is_first_digit(byte: u8) -> bool
    ensures { result ≡ spec.is_first_digit byte }
{
    byte.is_ascii_digit() && byte != b'0'
}

/// Reads a number with its `$` or `%`, or nothing. None: the number is 0.
fn read_start(barred: bool, text: &[u8]) -> Option<(Start, &[u8])>
    ensures { option_map (λ found. (found.0, found.1.now)) result ≡ spec.start barred text.now }
{
    match split_byte(text) {
        Some((first, _)) => if is_first_digit(first) {
            let (digits, behind) = split_digits(text);
            read_end(barred, text, number_of(digits), behind)
        } else {
            Some((Start::Number(None), text))
        },
        None => Some((Start::Number(None), text)),
    }
}

fn flags_len(text: &[u8]) -> usize
    ensures { result ≡ prefix_len spec.is_flag text.now }
{
    text.iter()
        .take_while(|byte| {
            matches!(
                byte,
                b' ' | b'+' | b'-' | b'#' | b'0' | b'\'' | b'_' | b'=' | b'h' | b'l'
            )
        })
        .count()
}

fn skip_flags(text: &[u8]) -> &[u8]
    ensures { result.now ≡ behind spec.is_flag text.now }
{
    let (_, rest) = text.split_at(flags_len(text));
    rest
}

fn size_len(text: &[u8]) -> usize
    ensures { result ≡ prefix_len spec.is_size text.now }
{
    text.iter()
        .take_while(|byte| matches!(byte, b'h' | b'l' | b'L'))
        .count()
}

fn skip_size(text: &[u8]) -> &[u8]
    ensures { result.now ≡ behind spec.is_size text.now }
{
    let (_, rest) = text.split_at(size_len(text));
    rest
}

/// What a conversion asks for, if there is such a conversion.
fn asked_by(conversion: u8) -> Option<Option<Kind>>
    ensures { result ≡ spec.asked_by conversion }
{
    match conversion {
        b'c' | b'C' => Some(Some(Kind::Character)),
        b's' | b'S' => Some(Some(Kind::Object)),
        b'd' | b'i' | b'o' | b'u' | b'x' | b'X' => Some(Some(Kind::Integer(Size::Plain))),
        b'e' | b'E' | b'f' | b'g' | b'G' => Some(Some(Kind::Float(Size::Plain))),
        b'p' => Some(Some(Kind::Pointer)),
        b'n' | b't' => Some(None),
        _ => None,
    }
}

/// Reads any byte, behind a `T`.
fn read_fill(text: &[u8]) -> Option<(Option<Kind>, &[u8])>
    ensures { option_map (λ found. (found.0, found.1.now)) result ≡ spec.behind_fill text.now }
{
    match split_byte(text) {
        Some((_, rest)) => Some((None, rest)),
        None => None,
    }
}

/// Reads a conversion, with no bar after it.
fn read_open(text: &[u8]) -> Option<(Option<Kind>, &[u8])>
    ensures { option_map (λ found. (found.0, found.1.now)) result ≡ spec.conversion_behind text.now }
{
    match split_byte(text) {
        Some((b'T', rest)) => read_fill(rest),
        Some((conversion, rest)) => match asked_by(conversion) {
            Some(kind) => Some((kind, rest)),
            None => None,
        },
        None => None,
    }
}

/// Reads a conversion and the bar after it, or the bar alone.
fn read_closed(text: &[u8]) -> Option<(Option<Kind>, &[u8])>
    ensures { option_map (λ found. (found.0, found.1.now)) result ≡ spec.conversion true text.now }
{
    if let Some(rest) = after_bar(text) {
        return Some((Some(Kind::Object), rest));
    }
    let (kind, behind) = read_open(text)?;
    let rest = after_bar(behind)?;
    Some((kind, rest))
}

fn read_conversion(barred: bool, text: &[u8]) -> Option<(Option<Kind>, &[u8])>
    ensures { option_map (λ found. (found.0, found.1.now)) result ≡ spec.conversion barred text.now }
{
    if barred {
        read_closed(text)
    } else {
        read_open(text)
    }
}

/// Reads what stands behind the number.
fn read_back(barred: bool, number: Option<u32>, text: &[u8]) -> Option<(Directive, &[u8])>
    ensures { option_map (λ found. (found.0, found.1.now)) result ≡ spec.back barred number text.now }
{
    let (width, behind_width) = read_amount(skip_flags(text))?;
    let (precision, behind_precision) = read_precision(behind_width)?;
    let (kind, rest) = read_conversion(barred, skip_size(behind_precision))?;
    Some((printed(width, precision, argument(number, kind)), rest))
}

/// Reads a directive, from after its `%` or `%|`.
fn read_started(barred: bool, text: &[u8]) -> Option<(Directive, &[u8])>
    ensures { option_map (λ found. (found.0, found.1.now)) result
        ≡ spec.with_start barred (spec.start barred text.now) }
{
    match read_start(barred, text) {
        Some((Start::Whole(number), rest)) => {
            Some((
                printed(None, None, argument(Some(number), Some(Kind::Object))),
                rest,
            ))
        }
        Some((Start::Number(number), rest)) => read_back(barred, number, rest),
        None => None,
    }
}

/// Reads a directive, from after its `%`.
pub(crate) fn read(text: &[u8]) -> Option<(Directive, &[u8])>
    ensures { option_map (λ found. (found.0, found.1.now)) result ≡ spec.directive text.now }
{
    match (after_percent(text), after_bar(text)) {
        (Some(rest), _) => Some((printed(None, None, None), rest)),
        (None, Some(rest)) => read_started(true, rest),
        (None, None) => read_started(false, text),
    }
}
