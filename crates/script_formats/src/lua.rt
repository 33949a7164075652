//! Directives of Lua's `string.format`.
ghost use Rattle.std.specs.Prelude.{◌≡◌, option_map};
ghost use Rattle.script_formats.specs.LuaDirectives as spec;

use crate::directive::{Directive, argument, printed};
use crate::parts::{after_percent, skip_precision};
use byte_text::split_byte;
use numbered_arguments::{Kind, Size, skip_digits};

/// What a conversion asks for, if there is such a conversion.
fn asked_by(conversion: u8) -> Option<Kind>
    ensures { result ≡ spec.asked_by conversion }
{
    match conversion {
        b'c' => Some(Kind::Character),
        b's' => Some(Kind::Text),
        b'q' => Some(Kind::Object),
        b'd' | b'i' | b'o' | b'u' | b'x' | b'X' => Some(Kind::Integer(Size::Plain)),
        b'a' | b'A' | b'e' | b'E' | b'f' | b'g' | b'G' => Some(Kind::Float(Size::Plain)),
        _ => None,
    }
}

/// Reads what stands behind the precision.
fn read_conversion(text: &[u8]) -> Option<(Directive, &[u8])>
    ensures { option_map (λ found. (found.0, found.1.now)) result ≡ spec.conversion_at text.now }
{
    let (conversion, rest) = split_byte(text)?;
    let kind = asked_by(conversion)?;
    Some((printed(None, None, argument(None, Some(kind))), rest))
}

/// Reads a directive, from after its `%`.
pub(crate) fn read(text: &[u8]) -> Option<(Directive, &[u8])>
    ensures { option_map (λ found. (found.0, found.1.now)) result ≡ spec.directive text.now }
{
    match after_percent(text) {
        Some(rest) => Some((printed(None, None, None), rest)),
        None => read_conversion(skip_precision(skip_digits(text))),
    }
}
