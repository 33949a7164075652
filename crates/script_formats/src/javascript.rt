//! Directives of JavaScript's formats, read part by part. Each reader takes the text from where its part may begin,
//! and returns the part and the rest.
ghost use Rattle.std.specs.Prelude.{◌≡◌, option_map};
ghost use Rattle.std.specs.List.{prefix_len};
ghost use Rattle.format_arguments.specs.Bytes.{behind};
ghost use Rattle.script_formats.specs.JavaScriptDirectives as spec;

use crate::directive::{Directive, argument, printed};
use crate::parts::{read_index, skip_precision};
use byte_text::split_byte;
use numbered_arguments::{Kind, Size, skip_digits};

fn flags_len(text: &[u8]) -> usize
    ensures { result ≡ prefix_len spec.is_flag text.now }
{
    text.iter()
        .take_while(|byte| matches!(byte, b'-' | b'+' | b' ' | b'0' | b'I'))
        .count()
}

fn skip_flags(text: &[u8]) -> &[u8]
    ensures { result.now ≡ behind spec.is_flag text.now }
{
    let (_, rest) = text.split_at(flags_len(text));
    rest
}

/// What a conversion asks for, if there is such a conversion.
fn asked_by(conversion: u8) -> Option<Option<Kind>>
    ensures { result ≡ spec.asked_by conversion }
{
    match conversion {
        b'%' => Some(None),
        b'c' => Some(Some(Kind::Character)),
        b's' => Some(Some(Kind::Text)),
        b'b' | b'd' | b'o' | b'x' | b'X' => Some(Some(Kind::Integer(Size::Plain))),
        b'f' => Some(Some(Kind::Float(Size::Plain))),
        b'j' => Some(Some(Kind::Any)),
        _ => None,
    }
}

/// Reads what stands behind the number.
fn read_back(number: Option<u32>, text: &[u8]) -> Option<(Directive, &[u8])>
    ensures { option_map (λ found. (found.0, found.1.now)) result ≡ spec.back number text.now }
{
    let behind_precision = skip_precision(skip_digits(skip_flags(text)));
    let (conversion, rest) = split_byte(behind_precision)?;
    let kind = asked_by(conversion)?;
    Some((printed(None, None, argument(number, kind)), rest))
}

/// Reads a directive, from after its `%`.
pub(crate) fn read(text: &[u8]) -> Option<(Directive, &[u8])>
    ensures { option_map (λ found. (found.0, found.1.now)) result ≡ spec.directive text.now }
{
    let (number, rest) = read_index(text)?;
    read_back(number, rest)
}
