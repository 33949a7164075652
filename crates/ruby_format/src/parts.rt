//! The parts of a directive. Each reader takes the text from where its part may begin, and returns the part and the
//! rest.
ghost use Rattle.std.specs.Prelude.{◌≡◌, ℕ, List, Option, true, option_map};
ghost use Rattle.std.specs.List.{list_all, prefix_len};
ghost use Rattle.std.specs.Char.{is_ascii_digit};
ghost use Rattle.format_arguments.specs.Text.{is_plain};
ghost use Rattle.ruby_format.specs.RubyPieces as spec;
ghost use Rattle.ruby_format.specs.RubyScanning.{ending_view, part_view};

use byte_text::split_byte;
use format_arguments::Kind;
use numbered_arguments::{skip_digits, split_digits};

/// The way to an argument.
#[derive(Clone, Copy)]
pub(crate) enum Way<'a> {
    /// The next one.
    Next,
    /// The one of this number, which isn't 0.
    Number(u32),
    /// The one of this name.
    Name(&'a [u8]),
}

/// A width or a precision.
#[derive(Clone, Copy)]
pub(crate) enum Amount {
    /// In digits, which may be left out of a precision.
    Fixed,
    /// `*`: it takes the next argument.
    Next,
    /// `*m$`: it takes the argument of this number.
    Number(u32),
}

#[derive(Clone, Copy)]
pub(crate) enum Part<'a> {
    Flag,
    To(Way<'a>),
    Width(Amount),
    Precision(Amount),
}

/// The end of a directive.
#[derive(Clone, Copy)]
pub(crate) enum Ending<'a> {
    /// `%` or the end of a line: it asks for nothing.
    Nothing,
    /// A conversion, which asks for an argument of this kind.
    Asks(Kind),
    /// A name in braces, which asks for that argument.
    Braces(&'a [u8]),
}

/// The largest number that GNU gettext tells apart from others.
const LAST_NUMBER: u32 = 4_294_967_290;

/// The number that digits spell, at most `LAST_NUMBER`.
fn number_of(digits: &[u8]) -> u32
    requires { list_all is_ascii_digit digits.now ≡ true }
    ensures { result ≡ spec.number_of digits.now }
{
    let mut number: u32 = 0;
    'digits: for digit in digits {
        number = if number < LAST_NUMBER / 10 {
            number * 10 + u32::from(*digit - b'0')
        } else {
            LAST_NUMBER
        };
    }
    number
}

/// Reads the number before a `$`.
fn read_numeral(text: &[u8]) -> Option<(u32, &[u8])>
    ensures { option_map (λ found. (found.0, found.1.now)) result ≡ spec.numeral_at text.now }
{
    let (digits, behind) = split_digits(text);
    match split_byte(behind) {
        Some((b'$', rest)) => Some((number_of(digits), rest)),
        _ => None,
    }
}

fn name_len(text: &[u8], close: u8) -> usize
    ensures { result ≡ prefix_len (is_plain close) text.now }
{
    text.iter().take_while(|byte| **byte != close).count()
}

/// Reads a name up to the byte that closes it.
fn read_name(text: &[u8], close: u8) -> Option<(&[u8], &[u8])>
    ensures { option_map (λ found. (found.0.now, found.1.now)) result ≡ spec.name_at close text.now }
{
    let (name, behind) = text.split_at(name_len(text, close));
    match split_byte(behind) {
        Some((_, rest)) => Some((name, rest)),
        None => None,
    }
}

/// Reads what stands behind a `*`.
fn read_star(text: &[u8]) -> Option<(Amount, &[u8])>
    ensures { option_map (λ found. (found.0, found.1.now)) result ≡ spec.star_at text.now }
{
    match read_numeral(text) {
        Some((0, _)) => None,
        Some((number, rest)) => Some((Amount::Number(number), rest)),
        None => Some((Amount::Next, text)),
    }
}

/// Reads what stands behind a dot.
fn read_precision(text: &[u8]) -> Option<(Amount, &[u8])>
    ensures { option_map (λ found. (found.0, found.1.now)) result ≡ spec.precision_at text.now }
{
    match split_byte(text) {
        Some((b'*', rest)) => read_star(rest),
        _ => Some((Amount::Fixed, skip_digits(text))),
    }
}

/// Reads digits as a number or a width.
fn read_digits(text: &[u8]) -> (Part<'_>, &[u8])
    ensures part { part_view result.0 ≡ (spec.digits_at text.now).0 }
    ensures rest { result.1.now ≡ (spec.digits_at text.now).1 }
{
    match read_numeral(text) {
        Some((number, rest)) => (Part::To(Way::Number(number)), rest),
        None => (Part::Width(Amount::Fixed), skip_digits(text)),
    }
}

fn is_flag(byte: u8) -> bool
    ensures { result ≡ spec.is_flag byte }
{
    matches!(byte, b' ' | b'#' | b'+' | b'-' | b'0')
}

/// Reads a part that begins with this byte.
fn read_marked<'a>(first: u8, rest: &'a [u8]) -> Option<(Part<'a>, &'a [u8])>
    ensures { option_map (λ found. (part_view found.0, found.1.now)) result ≡ spec.marked_at first rest.now }
{
    match first {
        b'*' => match read_star(rest) {
            Some((amount, after)) => Some((Part::Width(amount), after)),
            None => None,
        },
        b'.' => match read_precision(rest) {
            Some((amount, after)) => Some((Part::Precision(amount), after)),
            None => None,
        },
        b'<' => match read_name(rest, b'>') {
            Some((name, after)) => Some((Part::To(Way::Name(name)), after)),
            None => None,
        },
        _ => None,
    }
}

/// Reads the part that the text begins with, if it begins with one.
pub(crate) fn read_part(text: &[u8]) -> Option<(Part<'_>, &[u8])>
    ensures { option_map (λ found. (part_view found.0, found.1.now)) result ≡ spec.part_at text.now }
{
    let (first, rest) = split_byte(text)?;
    if is_flag(first) {
        Some((Part::Flag, rest))
    } else if first.is_ascii_digit() {
        Some(read_digits(text))
    } else {
        read_marked(first, rest)
    }
}

fn kind_of(conversion: u8) -> Option<Kind>
    ensures { result ≡ spec.kind_of conversion }
{
    match conversion {
        b'd' | b'i' | b'u' | b'b' | b'B' | b'o' | b'x' | b'X' => Some(Kind::Integer),
        b'f' | b'g' | b'G' | b'e' | b'E' | b'a' | b'A' => Some(Kind::Float),
        b's' => Some(Kind::Text),
        b'c' => Some(Kind::Character),
        b'p' => Some(Kind::Percent),
        _ => None,
    }
}

/// Reads the end of a directive, if the text begins with one.
pub(crate) fn read_ending(text: &[u8]) -> Option<(Ending<'_>, &[u8])>
    ensures { option_map (λ found. (ending_view found.0, found.1.now)) result ≡ spec.ending_at text.now }
{
    match split_byte(text) {
        Some((b'%' | b'\n', rest)) => Some((Ending::Nothing, rest)),
        Some((b'{', rest)) => match read_name(rest, b'}') {
            Some((name, after)) => Some((Ending::Braces(name), after)),
            None => None,
        },
        Some((conversion, rest)) => match kind_of(conversion) {
            Some(kind) => Some((Ending::Asks(kind), rest)),
            None => None,
        },
        None => None,
    }
}
