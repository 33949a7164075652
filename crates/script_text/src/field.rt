//! The fields of a line: numbers, texts, options and hexadecimal digits.
ghost use Rattle.std.specs.Prelude.{◌≡◌, MatchOption, IfErr, IfSome, option_map, string_bytes};
ghost use Rattle.std.specs.List.{list_all};
ghost use Rattle.std.specs.Char.{is_ascii_digit};
ghost use Rattle.script_text.specs.ScriptFields.{number, unescaped_text, escaped_byte, options_of, hex_bytes};
ghost use Rattle.script_text.specs.ScriptFields.{has_leading_zero, worker_of, worker_count};
ghost use Rattle.script_text.specs.LineValues.{Reads};
ghost use Rattle.script_text.specs.Scanning.{SplitsEscape};

use crate::fault::LineFault;
use byte_text::split_at_byte;
use catalogue::Options;
use hex::FromHexError;
use std::alloc::Global;

/// The most workers that a script may have: the limit on a store's readers.
pub const MOST_WORKERS: u64 = 16;

/// Whether the text consists of decimal digits.
fn all_digits(text: &str) -> bool
    ensures { result ≡ list_all is_ascii_digit text.now }
{
    text.bytes().all(|byte| byte.is_ascii_digit())
}

/// A decimal number below 2^64.
#[tactic(auto, using(crate::proofs::Numerals::no_digits, crate::proofs::Numerals::some_number, crate::proofs::Numerals::no_number))]
pub(crate) fn read_number(field: &str) -> Result<u64, LineFault>
    ensures reads { Reads (λ n. n) result (number field.now) }
    ensures bad { IfErr result (λ fault. fault ≡ LineFault.Bad) }
{
    if !all_digits(field) {
        return Err(LineFault::Bad);
    }
    match field.parse::<u64>() {
        Ok(number) => Ok(number),
        Err(_) => Err(LineFault::Bad),
    }
}

/// The byte that a letter after a backslash means, and what follows the letter.
fn split_escape(text: &str) -> Option<(char, &str)>
    ensures { SplitsEscape result text.now }
{
    if let Some(rest) = text.strip_prefix('n') {
        return Some(('\n', rest));
    }
    if let Some(rest) = text.strip_prefix('t') {
        return Some(('\t', rest));
    }
    let rest = text.strip_prefix('\\')?;
    Some(('\\', rest))
}

/// Replaces the escapes in a field.
pub(crate) fn read_text(alloc: Global, field: &str) -> Result<String, LineFault>
    ensures { Reads string_bytes result (unescaped_text field.now) }
{
    let mut text = String::new(alloc);
    let mut rest = field;
    'escapes: while let Some((plain, behind)) = split_at_byte(rest, b'\\') {
        let Some((byte, after)) = split_escape(behind) else {
            return Err(LineFault::Bad);
        };
        text.push_str(plain)?;
        text.push(byte)?;
        rest = after;
    }
    text.push_str(rest)?;
    Ok(text)
}

/// The options to compile a text with.
pub(crate) fn read_options(field: &str) -> Result<Options, LineFault>
    ensures { Reads (λ o. o) result (options_of field.now) }
{
    let (checked, use_fuzzy) = match field {
        "-" => (false, false),
        "c" => (true, false),
        "f" => (false, true),
        "cf" => (true, true),
        _ => return Err(LineFault::Bad),
    };
    Ok(Options { checked, use_fuzzy })
}

/// The bytes that hexadecimal digits spell: two digits a byte, in either case.
pub(crate) fn read_hex(alloc: Global, field: &str) -> Result<Vec<u8>, LineFault>
    ensures { Reads (λ bytes. bytes.items) result (hex_bytes field.now) }
{
    match hex::decode(alloc, field) {
        Ok(bytes) => Ok(bytes),
        Err(FromHexError::OutOfMemory) => Err(LineFault::Memory),
        Err(_) => Err(LineFault::Bad),
    }
}

/// Whether the first of several bytes is a zero digit.
fn leads_with_zero(field: &str) -> bool
    ensures { result ≡ has_leading_zero field.now }
{
    field.len() > 1 && field.as_bytes()[0] == b'0'
}

/// The number of one of `workers` workers, from 0, without leading zeros.
pub(crate) fn read_worker(workers: u32, field: &str) -> Result<u32, LineFault>
    ensures { Reads (λ n. n) result (worker_of workers field.now) }
{
    if leads_with_zero(field) {
        return Err(LineFault::Bad);
    }
    let worker = read_number(field)?;
    if worker >= workers as u64 {
        return Err(LineFault::Bad);
    }
    Ok(worker as u32)
}

/// A number of workers: 1 to 16.
pub(crate) fn read_worker_count(field: &str) -> Result<u32, LineFault>
    ensures reads { Reads (λ n. n) result (worker_count field.now) }
    ensures bad { IfErr result (λ fault. fault ≡ LineFault.Bad) }
{
    let count = read_number(field)?;
    if count < 1 || count > MOST_WORKERS {
        return Err(LineFault::Bad);
    }
    Ok(count as u32)
}
