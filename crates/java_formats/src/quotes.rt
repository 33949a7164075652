//! What a `'` quotes, and how far a part of a pattern goes.
ghost use Rattle.std.specs.Prelude.{◌≡◌, ◌<◌, ◌^◌, false, IfOk};
ghost use Rattle.java_formats.specs.JavaQuotes as spec;

use crate::Sort;
use byte_text::split_byte;
use std::alloc::{AllocError, Global};

/// Whether a byte ends the plain text of a pattern, or a choice.
fn is_mark(sort: Sort, byte: u8) -> bool
    ensures { result ≡ spec.is_mark sort byte }
{
    match sort {
        Sort::Pattern => byte == b'{' || byte == b'}',
        Sort::Choices => byte == b'|',
    }
}

/// How many bytes stand before the first mark that isn't quoted.
pub(crate) fn len_before(sort: Sort, text: &[u8]) -> usize
    ensures { result ≡ spec.len_before sort false text.now }
{
    let mut len = 0;
    let mut quoted = false;
    'bytes: for byte in text {
        if *byte == b'\'' {
            quoted = !quoted;
        } else if !quoted && is_mark(sort, *byte) {
            return len;
        }
        len += 1;
    }
    len
}

/// How many braces are open behind a byte.
fn depth_behind(byte: u8, depth: usize) -> usize
    requires { depth < 2 ^ 63 }
    ensures { result ≡ spec.depth_behind byte depth }
{
    match byte {
        b'{' => depth + 1,
        b'}' => depth.saturating_sub(1),
        _ => depth,
    }
}

/// How many bytes stand before the brace that closes the one before the text.
pub(crate) fn inner_len(text: &[u8]) -> usize
    ensures { result ≡ spec.inner_len 0 text.now }
{
    let mut len = 0;
    let mut depth = 0;
    'bytes: for byte in text {
        if *byte == b'}' && depth == 0 {
            return len;
        }
        depth = depth_behind(*byte, depth);
        len += 1;
    }
    len
}

/// Whether the text begins with what ends the number of a choice.
fn ends_number(text: &[u8]) -> bool
    ensures { result ≡ spec.ends_number text.now }
{
    match split_byte(text) {
        Some((b'<' | b'#' | b'|', _)) => true,
        Some(_) => text.starts_with(b"\\u2264"),
        None => false,
    }
}

/// How many bytes stand before the end of a choice's number.
pub(crate) fn number_len(text: &[u8]) -> usize
    ensures { result ≡ spec.number_len false false text.now }
{
    let mut len = 0;
    let mut quoted = false;
    let mut escaped = false;
    let mut rest = text;
    'bytes: while let Some((byte, after)) = split_byte(rest) {
        if escaped {
            escaped = false;
        } else if byte == b'\'' {
            quoted = !quoted;
        } else if !quoted && ends_number(rest) {
            return len;
        } else {
            escaped = byte == b'\\';
        }
        len += 1;
        rest = after;
    }
    len
}

/// The text without its quotes: each `'` is left out, and the byte behind it stays.
pub(crate) fn unquoted(alloc: Global, text: &[u8]) -> Result<Vec<u8>, AllocError>
    ensures { IfOk result (λ plain. plain.items ≡ spec.unquoted_text text.now) }
{
    let mut plain = Vec::new(alloc);
    let mut kept = false;
    'bytes: for byte in text {
        if *byte == b'\'' && !kept {
            kept = true;
        } else {
            plain.push(*byte)?;
            kept = false;
        }
    }
    Ok(plain)
}
