//! Sizes and conversions, and what they take.
ghost use Rattle.std.specs.Prelude.{◌≡◌};
ghost use Rattle.std.specs.List.{prefix_len};
ghost use Rattle.format_arguments.specs.Bytes.{behind, run};
ghost use Rattle.objc_format.specs.ObjcConversions as spec;

use crate::kinds::Taken;
use c_signature::{ArgKind, Size};

fn sizes_len(text: &[u8]) -> usize
    ensures { result ≡ prefix_len spec.is_size text.now }
{
    text.iter()
        .take_while(|byte| matches!(byte, b'h' | b'l' | b'L' | b'q' | b'j' | b'z' | b'Z' | b't'))
        .count()
}

/// Splits off the letters of a size.
pub(crate) fn split_sizes(text: &[u8]) -> (&[u8], &[u8])
    ensures letters { result.0.now ≡ run spec.is_size text.now }
    ensures rest { result.1.now ≡ behind spec.is_size text.now }
{
    text.split_at(sizes_len(text))
}

/// The size after one more `h`.
fn shorter(size: Size) -> Size
    ensures { result ≡ spec.shorter_size size }
{
    match size {
        Size::Short | Size::Byte => Size::Byte,
        _ => Size::Short,
    }
}

/// The size after one more `l`.
fn longer(size: Size) -> Size
    ensures { result ≡ spec.longer_size size }
{
    match size {
        Size::Long | Size::LongLong => Size::LongLong,
        _ => Size::Long,
    }
}

fn with_letter(size: Size, letter: u8) -> Size
    ensures { result ≡ spec.with_letter size letter }
{
    match letter {
        b'h' => shorter(size),
        b'l' => longer(size),
        b'j' => Size::Max,
        b't' => Size::PtrDiff,
        b'z' | b'Z' => Size::SizeT,
        _ => Size::LongLong,
    }
}

/// The size that these letters give.
pub(crate) fn size_of(letters: &[u8]) -> Size
    ensures { result ≡ spec.size_of letters.now }
{
    let mut size = Size::Plain;
    'letters: for letter in letters {
        size = with_letter(size, *letter);
    }
    size
}

fn is_long(size: Size) -> bool
    ensures { result ≡ spec.is_long size }
{
    matches!(size, Size::Long | Size::LongLong)
}

fn floating(size: Size) -> ArgKind
    ensures { result ≡ spec.floating size }
{
    match size {
        Size::LongLong => ArgKind::LongDouble,
        _ => ArgKind::Double,
    }
}

/// What a conversion of C takes, if there is such a conversion.
fn kind_in_c(conversion: u8, size: Size) -> Option<ArgKind>
    ensures { result ≡ spec.kind_in_c conversion size }
{
    match conversion {
        b'd' | b'i' => Some(ArgKind::Signed(size)),
        b'o' | b'u' | b'x' | b'X' => Some(ArgKind::Unsigned(size)),
        b'e' | b'E' | b'f' | b'F' | b'g' | b'G' | b'a' | b'A' => Some(floating(size)),
        b'c' => Some(if is_long(size) {
            ArgKind::WideChar
        } else {
            ArgKind::Char
        }),
        b'C' => Some(ArgKind::WideChar),
        b's' => Some(if is_long(size) {
            ArgKind::WideText
        } else {
            ArgKind::Text
        }),
        b'S' => Some(ArgKind::WideText),
        b'p' => Some(ArgKind::Pointer),
        b'n' => Some(ArgKind::Count(size)),
        _ => None,
    }
}

/// What a conversion takes, if there is such a conversion.
pub(crate) fn taken_by(conversion: u8, size: Size) -> Option<Taken>
    ensures { result ≡ spec.taken_by conversion size }
{
    if conversion == b'@' {
        return Some(Taken::Object);
    }
    match kind_in_c(conversion, size) {
        Some(kind) => Some(Taken::C(kind)),
        None => None,
    }
}

/// Whether a conversion takes nothing.
pub(crate) fn takes_nothing(conversion: u8) -> bool
    ensures { result ≡ spec.takes_nothing conversion }
{
    conversion == b'%' || conversion == b'm'
}
