//! Styles of numbers.
ghost use Rattle.std.specs.Prelude.{◌≡◌, false};
ghost use Rattle.java_formats.specs.JavaElements as spec;

use byte_text::split_byte;

/// Whether the text begins with a `u` and four hexadecimal digits.
fn is_unicode(text: &[u8]) -> bool
    ensures { result ≡ spec.is_unicode text.now }
{
    match text {
        [b'u', a, b, c, d, ..] => {
            a.is_ascii_hexdigit()
                && b.is_ascii_hexdigit()
                && c.is_ascii_hexdigit()
                && d.is_ascii_hexdigit()
        }
        _ => false,
    }
}

/// How many bytes a byte takes with it, of those that follow it.
fn escape_len(byte: u8, after: &[u8]) -> u8
    ensures { result ≡ spec.escape_len byte after.now }
{
    if byte != b'\\' {
        0
    } else if is_unicode(after) {
        5
    } else {
        1
    }
}

/// Whether the last subpattern has a digit, behind this byte.
fn has_digit(quoted: bool, found: bool, byte: u8) -> bool
    ensures { result ≡ spec.has_digit quoted found byte }
{
    match byte {
        _ if quoted => found,
        b'0' | b'#' => true,
        b';' => false,
        _ => found,
    }
}

/// Whether the last subpattern has a `0` or `#` that isn't quoted.
fn is_decimal(style: &[u8]) -> bool
    ensures { result ≡ spec.is_decimal 0 false false style.now }
{
    let mut escaped = 0;
    let mut quoted = false;
    let mut found = false;
    let mut rest = style;
    'bytes: while let Some((byte, after)) = split_byte(rest) {
        if escaped > 0 {
            escaped -= 1;
        } else if byte == b'\'' {
            quoted = !quoted;
        } else {
            escaped = escape_len(byte, after);
            found = has_digit(quoted, found, byte);
        }
        rest = after;
    }
    found
}

/// Whether a text is a named style, or a pattern of DecimalFormat.
pub(crate) fn is_number_style(style: &[u8]) -> bool
    ensures { result ≡ spec.is_number_style style.now }
{
    style == b"currency".as_slice()
        || style == b"percent".as_slice()
        || style == b"integer".as_slice()
        || is_decimal(style)
}
