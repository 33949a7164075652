//! What follows the name in a start-tag: attributes, and the end of the tag.
ghost use Rattle.std.specs.Prelude.{◌≡◌, ◌≤◌, ◌<◌, ◌↔◌, ℕ, Bool, List, [], length, option_map, IfSome, IfOk};
ghost use Rattle.std.specs.Prelude.{MatchOption};
ghost use Rattle.kuit_formats.specs.KuitTags as spec;
ghost use Rattle.kuit_formats.specs.KuitReading as reading;

use crate::bytes::{Class, begins_blank, skip_blanks, split_run};
use crate::characters::is_name;
use crate::names::Names;
use crate::references::refers_to_none;
use byte_text::split_byte;
use format_arguments::after_byte;
use std::alloc::{AllocError, Global};

/// The next part of a start-tag, with what follows it.
pub(crate) enum Part<'a> {
    /// an attribute of this name
    Attribute(&'a [u8], &'a [u8]),
    /// the end of the tag, and whether it is that of an empty element
    End(bool, &'a [u8]),
}

/// What follows a value, given the quote before it.
fn after_value(quote: u8, text: &[u8]) -> Option<&[u8]>
    ensures rest { option_map (λ rest. rest.now) result ≡ spec.behind_value quote text.now }
    ensures within { IfSome result (λ rest. length rest.now ≤ length text.now) }
{
    let mut rest = text;
    'bytes: while let Some((byte, after)) = split_byte(rest) {
        if byte == quote {
            return Some(after);
        }
        if byte == b'<' || (byte == b'&' && refers_to_none(after)) {
            return None;
        }
        rest = after;
    }
    None
}

fn after_quoted(text: &[u8]) -> Option<&[u8]>
    ensures rest { option_map (λ rest. rest.now) result ≡ spec.behind_quoted text.now }
    ensures within { IfSome result (λ rest. length rest.now ≤ length text.now) }
{
    match split_byte(text) {
        Some((b'"', rest)) => after_value(b'"', rest),
        Some((b'\'', rest)) => after_value(b'\'', rest),
        _ => None,
    }
}

/// What follows a `=` and a value.
fn after_equals(text: &[u8]) -> Option<&[u8]>
    ensures rest { option_map (λ rest. rest.now) result ≡ spec.behind_equals text.now }
    ensures within { IfSome result (λ rest. length rest.now < length text.now) }
{
    match split_byte(text) {
        Some((b'=', rest)) => after_quoted(skip_blanks(rest)),
        _ => None,
    }
}

fn read_attribute(text: &[u8]) -> Option<Part<'_>>
    ensures part { option_map reading.part_view result ≡ spec.attribute text.now }
    ensures within { IfSome result (λ part. length (reading.part_rest part) < length text.now) }
{
    let (name, rest) = split_run(Class::Name, text);
    if !is_name(name) {
        return None;
    }
    match after_equals(skip_blanks(rest)) {
        Some(rest) => Some(Part::Attribute(name, rest)),
        None => None,
    }
}

/// Reads what follows the blanks: an attribute, if there are any, or the end of the tag.
fn read_behind_blanks(spaced: bool, text: &[u8]) -> Option<Part<'_>>
    ensures part { option_map reading.part_view result ≡ spec.part_behind spaced text.now }
    ensures within { IfSome result (λ part. length (reading.part_rest part) < length text.now) }
{
    match split_byte(text) {
        Some((b'>', rest)) => Some(Part::End(false, rest)),
        Some((b'/', rest)) => match split_byte(rest) {
            Some((b'>', rest)) => Some(Part::End(true, rest)),
            _ => None,
        },
        Some(_) => if spaced { read_attribute(text) } else { None },
        None => None,
    }
}

fn read_part(text: &[u8]) -> Option<Part<'_>>
    ensures part { option_map reading.part_view result ≡ spec.part text.now }
    ensures within { IfSome result (λ part. length (reading.part_rest part) < length text.now) }
{
    read_behind_blanks(begins_blank(text), skip_blanks(text))
}

/// Reads a start-tag from after its name: whether it is that of an empty element, and what follows it. None: it is no
/// such tag. The only error is a failed allocation.
pub(crate) fn read_tag(alloc: Global, text: &[u8]) -> Result<Option<(bool, &[u8])>, AllocError>
    ensures tag { IfOk result (λ found. MatchOption found
        ((empty : Bool) (rest : List ℕ) → ¬ spec.TagEnds [] text.now empty rest)
        (λ tag. reading.EndsAt text.now tag.0 tag.1.now)) }
    ensures within { IfOk result (λ found. IfSome found (λ tag. length tag.1.now < length text.now)) }
{
    let mut before = Names::new(alloc);
    let mut rest = text;
    'parts: while let Some(part) = read_part(rest) {
        match part {
            Part::End(empty, after) => return Ok(Some((empty, after))),
            Part::Attribute(name, after) => {
                if !before.add(name)? {
                    return Ok(None);
                }
                rest = after;
            }
        }
    }
    Ok(None)
}
