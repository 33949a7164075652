//! Conversions, and what may stand before each.
ghost use Rattle.std.specs.Prelude.{◌≡◌, option_map};
ghost use Rattle.java_printf_format.specs.PrintfConversions as spec;

use byte_text::split_byte;
use numbered_arguments::{Kind, Size};

/// Conversions that take the same arguments, and before which the same may stand.
#[derive(Clone, Copy)]
pub(crate) enum Conversion {
    /// `%`, which takes none
    Percent,
    /// `n`, the end of a line, which takes none
    Line,
    /// `b`, `h` and `s`
    General,
    /// `c`
    Character,
    /// `d`
    Decimal,
    /// `o` and `x`
    Octal,
    /// `e`, `f` and `g`
    Float,
    /// `a`
    HexFloat,
    /// `t` and a suffix
    Date,
}

fn conversion_of(byte: u8) -> Option<Conversion>
    ensures { result ≡ spec.conversion_of byte }
{
    match byte {
        b'%' => Some(Conversion::Percent),
        b'n' => Some(Conversion::Line),
        b'b' | b'B' | b'h' | b'H' | b's' | b'S' => Some(Conversion::General),
        b'c' | b'C' => Some(Conversion::Character),
        b'd' => Some(Conversion::Decimal),
        b'o' | b'x' | b'X' => Some(Conversion::Octal),
        b'e' | b'E' | b'f' | b'g' | b'G' => Some(Conversion::Float),
        b'a' | b'A' => Some(Conversion::HexFloat),
        _ => None,
    }
}

/// Whether a byte is a suffix of a date's conversion.
fn is_suffix(byte: u8) -> bool
    ensures { result ≡ spec.is_suffix byte }
{
    match byte {
        b'H' | b'I' | b'k' | b'l' | b'M' | b'S' | b'L' | b'N' | b'p' | b'z' | b'Z' | b's' | b'Q' =>
            true,
        b'B' | b'b' | b'h' | b'A' | b'a' | b'C' | b'Y' | b'y' | b'j' | b'm' | b'd' | b'e' => true,
        b'R' | b'T' | b'r' | b'D' | b'F' | b'c' => true,
        _ => false,
    }
}

/// Reads a suffix, behind a `t`.
fn read_date(text: &[u8]) -> Option<(Conversion, &[u8])>
    ensures { option_map (λ found. (found.0, found.1.now)) result ≡ spec.date_at text.now }
{
    match split_byte(text) {
        Some((suffix, rest)) if is_suffix(suffix) => Some((Conversion::Date, rest)),
        _ => None,
    }
}

/// Reads a conversion.
pub(crate) fn read_conversion(text: &[u8]) -> Option<(Conversion, &[u8])>
    ensures { option_map (λ found. (found.0, found.1.now)) result ≡ spec.conversion_at text.now }
{
    match split_byte(text) {
        Some((b't' | b'T', rest)) => read_date(rest),
        Some((letter, rest)) => match conversion_of(letter) {
            Some(conversion) => Some((conversion, rest)),
            None => None,
        },
        None => None,
    }
}

/// The kind of argument that a conversion takes, if it takes one.
pub(crate) fn kind_of(conversion: Conversion) -> Option<Kind>
    ensures { result ≡ spec.kind_of conversion }
{
    match conversion {
        Conversion::Percent | Conversion::Line => None,
        Conversion::General => Some(Kind::Object),
        Conversion::Character => Some(Kind::Character),
        Conversion::Decimal | Conversion::Octal => Some(Kind::Integer(Size::Plain)),
        Conversion::Float | Conversion::HexFloat => Some(Kind::Float(Size::Plain)),
        Conversion::Date => Some(Kind::Date),
    }
}

fn has_flag(conversion: Conversion, flag: u8) -> bool
    ensures { result ≡ spec.has_flag conversion flag }
{
    match conversion {
        Conversion::Line => false,
        Conversion::General => matches!(flag, b'-' | b'#'),
        Conversion::Decimal => matches!(flag, b'-' | b'+' | b' ' | b'0' | b',' | b'('),
        Conversion::Octal => matches!(flag, b'-' | b'#' | b'+' | b' ' | b'0' | b'('),
        Conversion::Float => matches!(flag, b'-' | b'#' | b'+' | b' ' | b'0' | b',' | b'('),
        Conversion::HexFloat => matches!(flag, b'-' | b'#' | b'+' | b' ' | b'0'),
        Conversion::Percent | Conversion::Character | Conversion::Date => flag == b'-',
    }
}

fn has_flags(conversion: Conversion, flags: &[u8]) -> bool
    ensures { result ≡ spec.has_flags conversion flags.now }
{
    flags.iter().all(|flag| has_flag(conversion, *flag))
}

fn has_width(conversion: Conversion) -> bool
    ensures { result ≡ spec.has_width conversion }
{
    !matches!(conversion, Conversion::Line)
}

fn has_precision(conversion: Conversion) -> bool
    ensures { result ≡ spec.has_precision conversion }
{
    matches!(
        conversion,
        Conversion::General | Conversion::Float | Conversion::HexFloat
    )
}

/// Whether a part may stand there, or doesn't.
fn is_allowed(stands: bool, may: bool) -> bool
    ensures { result ≡ spec.is_allowed stands may }
{
    !stands || may
}

/// Whether these flags, a width and a precision may stand before a conversion.
pub(crate) fn accepts(conversion: Conversion, flags: &[u8], width: bool, precision: bool) -> bool
    ensures { result ≡ spec.accepts conversion flags.now width precision }
{
    has_flags(conversion, flags)
        && is_allowed(width, has_width(conversion))
        && is_allowed(precision, has_precision(conversion))
}
