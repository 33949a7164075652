//! The elements of patterns and the patterns of choices, one by one.
ghost use Rattle.std.specs.Prelude.{◌≡◌, Some, option_map};
ghost use Rattle.java_formats.specs.JavaReading.{step_view};
ghost use Rattle.java_formats.specs.JavaSteps as spec;

use crate::Sort;
use crate::elements::{after_word, read_element};
use crate::quotes::{inner_len, len_before, number_len};
use byte_text::split_byte;
use numbered_arguments::Numbered;

/// What comes next in a text; at its end nothing does.
#[derive(Clone, Copy)]
pub(crate) struct Step<'a> {
    /// the argument that it takes
    pub(crate) asked: Option<Numbered>,
    /// the text nested in it
    pub(crate) nested: Option<&'a [u8]>,
    /// what follows
    pub(crate) rest: Option<&'a [u8]>,
}

/// The end of a text.
fn end<'a>() -> Step<'a>
    ensures { step_view result ≡ spec.end }
{
    Step {
        asked: None,
        nested: None,
        rest: None,
    }
}

/// Reads an element, from after its opening brace.
#[tactic(auto, using(crate::proofs::QuoteLemmas::inner_within))]
fn read_braces(text: &[u8]) -> Option<Step<'_>>
    ensures { option_map step_view result ≡ spec.braces_step text.now }
{
    let (inner, closing) = text.split_at(inner_len(text));
    match split_byte(closing) {
        Some((_, rest)) => match read_element(inner) {
            Some((argument, choices)) => Some(Step {
                asked: Some(argument),
                nested: choices,
                rest: Some(rest),
            }),
            None => None,
        },
        None => None,
    }
}

/// Reads plain text and an element, or plain text up to the end.
#[tactic(auto, using(crate::proofs::QuoteLemmas::before_within))]
fn read_pattern(text: &[u8]) -> Option<Step<'_>>
    ensures { option_map step_view result ≡ spec.pattern_step text.now }
{
    let (_, rest) = text.split_at(len_before(Sort::Pattern, text));
    match split_byte(rest) {
        Some((b'{', behind)) => read_braces(behind),
        Some(_) => None,
        None => Some(end()),
    }
}

/// What follows the separator of a choice, if the text begins with one.
fn after_separator(text: &[u8]) -> Option<&[u8]>
    ensures { option_map (λ rest. rest.now) result ≡ spec.behind_separator text.now }
{
    match split_byte(text) {
        Some((b'|', _)) => None,
        Some((b'<' | b'#', rest)) => Some(rest),
        Some(_) => after_word(b"\\u2264", text),
        None => None,
    }
}

/// What follows the first byte, which may be missing.
fn after_bar(text: &[u8]) -> &[u8]
    ensures { result.now ≡ spec.behind_bar text.now }
{
    match split_byte(text) {
        Some((_, rest)) => rest,
        None => text,
    }
}

/// Reads the pattern of a choice, from after its separator.
#[tactic(auto, using(crate::proofs::QuoteLemmas::before_within))]
fn read_part(text: &[u8]) -> Step<'_>
    ensures { Some (step_view result) ≡ spec.part_step (Some text.now) }
{
    let (pattern, rest) = text.split_at(len_before(Sort::Choices, text));
    Step {
        asked: None,
        nested: Some(pattern),
        rest: Some(after_bar(rest)),
    }
}

/// Reads a choice, or a number without a separator up to the end.
#[tactic(auto, using(crate::proofs::QuoteLemmas::number_within))]
fn read_choice(text: &[u8]) -> Option<Step<'_>>
    ensures { option_map step_view result ≡ spec.choice_step text.now }
{
    let len = number_len(text);
    let (_, rest) = text.split_at(len);
    if rest.is_empty() {
        return Some(end());
    }
    if len == 0 {
        return None;
    }
    match after_separator(rest) {
        Some(behind) => Some(read_part(behind)),
        None => None,
    }
}

/// Reads what comes next in a text. None: the text is invalid there.
pub(crate) fn read_step(sort: Sort, text: &[u8]) -> Option<Step<'_>>
    ensures { option_map step_view result ≡ spec.step sort text.now }
{
    match sort {
        Sort::Pattern => read_pattern(text),
        Sort::Choices => read_choice(text),
    }
}
