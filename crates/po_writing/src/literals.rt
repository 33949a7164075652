//! Strings of a PO text: their parts in quotes, with C's escapes.
ghost use Rattle.std.specs.Prelude.{◌≡◌, ◌++◌, ◌∷◌, OnOk};
ghost use Rattle.po_writing.specs.Written.{letter_of, octal, without_letter, is_printable};
ghost use Rattle.po_writing.specs.Written.{written_byte, literal, parts_of};
ghost use Rattle.std.specs.List.{flat_map};
ghost use Rattle.po_writing.specs.Steps.{behind_quote, empty_part, is_several};

use std::alloc::AllocError;

/// The letter that follows the backslash for this byte, if it has one.
fn letter(byte: u8) -> Option<u8>
    ensures { result ≡ letter_of byte }
{
    match byte {
        7 => Some(b'a'),
        8 => Some(b'b'),
        b'\t' => Some(b't'),
        b'\n' => Some(b'n'),
        11 => Some(b'v'),
        12 => Some(b'f'),
        b'\r' => Some(b'r'),
        b'"' => Some(b'"'),
        b'\\' => Some(b'\\'),
        _ => None,
    }
}

/// The three octal digits of a byte, behind a backslash.
fn octal_escape(byte: u8) -> [u8; 4]
    ensures { result ≡ 92 ∷ octal byte }
{
    [
        b'\\',
        b'0' + byte / 64,
        b'0' + byte / 8 % 8,
        b'0' + byte % 8,
    ]
}

fn is_printable_byte(byte: u8) -> bool
    ensures { result ≡ is_printable byte }
{
    b' ' <= byte && byte <= b'~'
}

/// Appends a byte that no letter stands for.
fn push_unlettered(out: &mut Vec<u8>, byte: u8, escape: bool) -> Result<(), AllocError>
    ensures { OnOk result (out.new.items ≡ out.old.items ++ without_letter escape byte) }
{
    if escape && !is_printable_byte(byte) {
        return out.extend_from_slice(&octal_escape(byte));
    }
    out.push(byte)?;
    Ok(())
}

/// Appends a byte as it is written between quotes.
fn push_byte(out: &mut Vec<u8>, byte: u8, escape: bool) -> Result<(), AllocError>
    ensures { OnOk result (out.new.items ≡ out.old.items ++ written_byte escape byte) }
{
    match letter(byte) {
        Some(letter) => out.extend_from_slice(&[b'\\', letter]),
        None => push_unlettered(out, byte, escape),
    }
}

/// Whether a line of the text ends before the text does.
fn has_several_lines(text: &[u8]) -> bool
    ensures { result ≡ is_several text.now }
{
    for (i, byte) in text.iter().enumerate() {
        if *byte == b'\n' {
            return i + 1 < text.len();
        }
    }
    false
}

/// Appends the lines of a text, each in quotes on a line of its own.
fn push_lines(out: &mut Vec<u8>, text: &[u8], escape: bool) -> Result<(), AllocError>
    ensures { OnOk result (out.new.items ≡ out.old.items ++ (34 ∷ behind_quote escape text.now)) }
{
    out.push(b'"')?;
    for (i, byte) in text.iter().enumerate() {
        push_byte(out, *byte, escape)?;
        if *byte == b'\n' && i + 1 < text.len() {
            out.extend_from_slice(b"\"\n\"")?;
        }
    }
    out.extend_from_slice(b"\"\n")
}

/// Appends the empty part that comes before several lines.
fn push_empty_part(out: &mut Vec<u8>, is_several: bool) -> Result<(), AllocError>
    ensures { OnOk result (out.new.items ≡ out.old.items ++ empty_part is_several) }
{
    if is_several {
        return out.extend_from_slice(b"\"\"\n");
    }
    Ok(())
}

/// Appends a space and a string. Each line of the string stands on a line of its own, behind an empty part if there are
/// several.
pub(crate) fn push_text(out: &mut Vec<u8>, text: &str, escape: bool) -> Result<(), AllocError>
    ensures { OnOk result (out.new.items
        ≡ out.old.items ++ (32 ∷ flat_map (literal escape) (parts_of text.now))) }
{
    out.push(b' ')?;
    push_empty_part(out, has_several_lines(text.as_bytes()))?;
    push_lines(out, text.as_bytes(), escape)
}
