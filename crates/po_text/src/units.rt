//! The units of a string: plain bytes, escapes and octal digits.
ghost use Rattle.std.specs.Prelude.{◌≢◌, ◌≡◌, ℕ, ◌+◌, ◌-◌, ◌*◌, ◌<◌, ◌≤◌, ◌↔◌, ◌++◌};
ghost use Rattle.std.specs.Prelude.{◌∷◌, List, Bool, length, IfOk, IfErr, IsTrue, MatchOption, [], true};
ghost use Rattle.std.specs.List.{prefix_len};
ghost use Rattle.po_text.specs.declared.fault.PoKind.TheVariants.{Memory};
ghost use Rattle.po_text.specs.Spelling.{escaped_byte, is_octal, octal_run, octal_value, UnitsAt};
ghost use Rattle.po_text.specs.Clean.{IsClean, IsTextByte, KeepsClean, StopsAscii, is_clean};
ghost use Rattle.po_text.specs.Lexing.{ReadsUnit, StopsBadly, UnitsFail, TakesUnits};

use crate::fault::PoKind;
use crate::plain::{clean_len, is_clean_byte};
use byte_text::split_byte;

/// The byte that a backslash followed by this letter means.
fn escape_value(letter: u8) -> Option<u8>
    ensures { result ≡ escaped_byte letter }
{
    match letter {
        b'n' => Some(b'\n'),
        b't' => Some(b'\t'),
        b'b' => Some(8),
        b'r' => Some(b'\r'),
        b'f' => Some(12),
        b'v' => Some(11),
        b'a' => Some(7),
        b'\\' => Some(b'\\'),
        b'"' => Some(b'"'),
        _ => None,
    }
}

fn is_octal_digit(byte: u8) -> bool
    ensures { result ≡ is_octal byte }
{
    b'0' <= byte && byte <= b'7'
}

/// Splits off the clean bytes at the front.
pub(crate) fn clean_run(text: &[u8]) -> (&[u8], &[u8])
    ensures parts { text.now ≡ result.0.now ++ result.1.now }
    ensures units { UnitsAt result.0.now text.now result.1.now }
    ensures clean { IsClean result.0.now }
    ensures stops { StopsAscii result.1.now }
    ensures shorter { length result.1.now ≤ length text.now }
    ensures some { (byte : ℕ) (later : List ℕ) → text.now ≡ byte ∷ later → is_clean byte ≡ true →
        length result.1.now < length text.now }
{
    text.split_at(clean_len(text))
}

/// The number of octal digits at the front.
fn octal_len(window: &[u8]) -> usize
    ensures { result ≡ prefix_len is_octal window.now }
{
    window
        .iter()
        .take_while(|byte| is_octal_digit(**byte))
        .count()
}

/// The octal digits at the front, at most three, and the rest.
fn octal_digits(text: &[u8]) -> (&[u8], &[u8])
    ensures digits { result.0.now ≡ octal_run text.now }
    ensures rest { text.now ≡ result.0.now ++ result.1.now }
    ensures few { length result.0.now ≤ 3 }
    ensures shorter { length result.0.now + length result.1.now ≡ length text.now }
{
    let len = octal_len(&text[..text.len().min(3)]);
    text.split_at(len)
}

fn digit(byte: u8) -> u16
    ensures value { result ≡ byte - 48 }
    ensures small { result < 256 }
{
    u16::from(byte.saturating_sub(b'0'))
}

fn octal_number(digits: &[u8]) -> u16
    ensures { length digits.now ≤ 3 → result ≡ octal_value digits.now }
{
    match digits {
        [a] => digit(*a),
        [a, b] => digit(*a) * 8 + digit(*b),
        [a, b, c] => (digit(*a) * 8 + digit(*b)) * 8 + digit(*c),
        _ => 0,
    }
}

/// Reads one or more octal digits after a backslash; `BadEscape` above 255.
fn read_octal(text: &[u8]) -> Result<(u8, &[u8]), PoKind>
    requires { 0 < length (octal_run text.now) }
    ensures ok { IfOk result (λ found. ReadsUnit (92 ∷ text.now) found.0 found.1.now) }
    ensures shorter { IfOk result (λ found. length found.1.now < length text.now) }
    ensures err { IfErr result (λ kind. StopsBadly kind (92 ∷ text.now)) }

    // This allocates nothing.
    ensures no_memory { IfErr result (λ kind. kind ≢ Memory) }
{
    let (digits, rest) = octal_digits(text);
    let value = octal_number(digits);
    if value > 255 {
        return Err(PoKind::BadEscape);
    }
    Ok((value as u8, rest))
}

/// Reads an escape, from after its backslash.
fn read_escape(text: &[u8]) -> Result<(u8, &[u8]), PoKind>
    ensures ok { IfOk result (λ found. ReadsUnit (92 ∷ text.now) found.0 found.1.now) }
    ensures shorter { IfOk result (λ found. length found.1.now < length text.now) }
    ensures err { IfErr result (λ kind. StopsBadly kind (92 ∷ text.now)) }

    // This allocates nothing.
    ensures no_memory { IfErr result (λ kind. kind ≢ Memory) }
{
    let Some((letter, rest)) = split_byte(text) else {
        return Err(PoKind::OpenString)
    };
    if letter == b'\n' {
        return Err(PoKind::OpenString);
    }
    if is_octal_digit(letter) {
        return read_octal(text);
    }
    match escape_value(letter) {
        Some(value) => Ok((value, rest)),
        None => Err(PoKind::BadEscape),
    }
}

/// Reads the unit that begins with this byte, which is no quote.
fn read_unit(byte: u8, later: &[u8]) -> Result<(u8, &[u8]), PoKind>
    requires { byte ≢ 34 }
    ensures ok { IfOk result (λ found. ReadsUnit (byte ∷ later.now) found.0 found.1.now) }
    ensures shorter { IfOk result (λ found. length found.1.now ≤ length later.now) }
    ensures err { IfErr result (λ kind. StopsBadly kind (byte ∷ later.now)) }

    // This allocates nothing.
    ensures no_memory { IfErr result (λ kind. kind ≢ Memory) }
{
    match byte {
        b'\\' => read_escape(later),
        b'\n' => Err(PoKind::OpenString),
        _ => Ok((byte, later)),
    }
}

/// Whether a string that was clean so far still is after this byte, which is ASCII then.
fn stays_clean(is_clean: bool, value: u8) -> bool
    ensures { IsTrue result → IsTrue is_clean × IsTextByte value × (value < 128) }
{
    is_clean && value != 0 && value != 4 && value.is_ascii()
}

/// Reads the units of a string and its closing quote, and appends their values to `out`. Also returns whether these
/// values are known to have neither NUL nor byte 4, and to be UTF-8 if the text is.
pub(crate) fn read_units<'a>(text: &'a [u8], out: &mut Vec<u8>) -> Result<(&'a [u8], bool), PoKind>
    ensures ok { IfOk result (λ found.
        TakesUnits out.old.items out.new.items text.now (34 ∷ found.0.now)) }
    ensures shorter { IfOk result (λ found. length found.0.now < length text.now) }
    ensures clean { IfOk result (λ found. IsTrue found.1 →
        KeepsClean text.now (34 ∷ found.0.now) out.old.items out.new.items) }
    ensures err { IfErr result (λ kind. UnitsFail kind text.now) }
{
    let mut rest = text;
    let mut is_clean = true;
    'units: loop {
        let Some((byte, later)) = split_byte(rest) else {
            return Err(PoKind::OpenString)
        };
        if byte == b'"' {
            return Ok((later, is_clean));
        }
        if is_clean_byte(byte) {
            let (run, after) = clean_run(rest);
            out.extend_from_slice(run)?;
            rest = after;
        } else {
            let (value, behind) = read_unit(byte, later)?;
            out.push(value)?;
            is_clean = stays_clean(is_clean, value);
            rest = behind;
        }
    }
}
