//! Format items, read part by part. Each reader takes the text from where its part may begin.
ghost use Rattle.std.specs.Prelude.{◌≡◌, option_map};
ghost use Rattle.std.specs.List.{prefix_len};
ghost use Rattle.format_arguments.specs.Bytes.{behind, behind_one};
ghost use Rattle.csharp_format.specs.CSharpItems as spec;

use byte_text::split_byte;
use numbered_arguments::{number_of, skip_digits, split_digits};

/// What follows one digit or more.
fn after_digits(text: &[u8]) -> Option<&[u8]>
    ensures { option_map (λ rest. rest.now) result ≡ spec.behind_digits text.now }
{
    match split_byte(text) {
        Some((first, rest)) if first.is_ascii_digit() => Some(skip_digits(rest)),
        _ => None,
    }
}

/// Skips a minus, which may be left out.
fn skip_minus(text: &[u8]) -> &[u8]
    ensures { result.now ≡ behind_one spec.is_minus text.now }
{
    match text {
        [b'-', rest @ ..] => rest,
        _ => text,
    }
}

/// Skips an alignment, which may be left out. None: a comma that no integer follows.
fn after_alignment(text: &[u8]) -> Option<&[u8]>
    ensures { option_map (λ rest. rest.now) result ≡ spec.behind_alignment text.now }
{
    match split_byte(text) {
        Some((b',', rest)) => after_digits(skip_minus(rest)),
        _ => Some(text),
    }
}

fn inner_len(text: &[u8]) -> usize
    ensures { result ≡ prefix_len spec.is_inner text.now }
{
    text.iter().take_while(|byte| **byte != b'}').count()
}

fn skip_inner(text: &[u8]) -> &[u8]
    ensures { result.now ≡ behind spec.is_inner text.now }
{
    let (_, rest) = text.split_at(inner_len(text));
    rest
}

/// Skips a colon and a format string, which may be left out.
fn skip_format(text: &[u8]) -> &[u8]
    ensures { result.now ≡ spec.behind_format text.now }
{
    match split_byte(text) {
        Some((b':', rest)) => skip_inner(rest),
        _ => text,
    }
}

/// What follows a closing brace, if the text begins with one.
fn after_brace(text: &[u8]) -> Option<&[u8]>
    ensures { option_map (λ rest. rest.now) result ≡ spec.behind_brace text.now }
{
    match split_byte(text) {
        Some((b'}', rest)) => Some(rest),
        _ => None,
    }
}

/// What follows an item, from after its opening brace.
fn after_item(text: &[u8]) -> Option<&[u8]>
    ensures { option_map (λ rest. rest.now) result ≡ spec.with_brace
        (spec.with_alignment (spec.behind_digits text.now)) }
{
    match after_digits(text) {
        Some(behind_number) => match after_alignment(behind_number) {
            Some(behind) => after_brace(skip_format(behind)),
            None => None,
        },
        None => None,
    }
}

/// Reads an item, from after its opening brace: the number of its argument, and what follows.
fn read_item(text: &[u8]) -> Option<(u32, &[u8])>
    ensures { option_map (λ found. (found.0, found.1.now)) result ≡ spec.item text.now }
{
    let (digits, _) = split_digits(text);
    let number = number_of(digits);
    match after_item(text) {
        Some(rest) => Some((number, rest)),
        None => None,
    }
}

/// Reads what stands behind an opening brace: a second one, or an item.
fn read_opened(text: &[u8]) -> Option<(Option<u32>, &[u8])>
    ensures { option_map (λ found. (found.0, found.1.now)) result ≡ spec.behind_opening text.now }
{
    match split_byte(text) {
        Some((b'{', rest)) => Some((None, rest)),
        Some(_) => match read_item(text) {
            Some((number, rest)) => Some((Some(number), rest)),
            None => None,
        },
        None => None,
    }
}

/// Reads a second closing brace.
fn read_doubled(text: &[u8]) -> Option<(Option<u32>, &[u8])>
    ensures { option_map (λ found. (found.0, found.1.now)) result ≡ spec.behind_closing text.now }
{
    match after_brace(text) {
        Some(rest) => Some((None, rest)),
        None => None,
    }
}

/// Reads what a text begins with: the number of an item's argument, or None for a byte or a doubled brace; and what
/// follows.
pub(crate) fn read_piece(text: &[u8]) -> Option<(Option<u32>, &[u8])>
    ensures { option_map (λ found. (found.0, found.1.now)) result ≡ spec.piece text.now }
{
    match split_byte(text) {
        Some((b'{', rest)) => read_opened(rest),
        Some((b'}', rest)) => read_doubled(rest),
        Some((_, rest)) => Some((None, rest)),
        None => None,
    }
}
