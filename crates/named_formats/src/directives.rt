//! Directives, each read from after its first byte: the name of an argument, and what follows.
ghost use Rattle.std.specs.Prelude.{◌≡◌, [], ◌∷◌, ℕ, List, Option, MatchOption, option_map};
ghost use Rattle.std.specs.List.{prefix_len};
ghost use Rattle.python_brace_format.specs.BraceFields.{is_letter as is_letter_of, is_word as is_word_of};
ghost use Rattle.format_arguments.specs.Text.{SkipsPlain};
ghost use Rattle.named_formats.specs.NameDirectives as spec;

use crate::Notation;
use byte_text::split_byte;
use format_arguments::next_directive;

/// What follows the next byte that begins a directive, if there is one.
pub(crate) fn next_mark(notation: Notation, text: &[u8]) -> Option<&[u8]>
    ensures { MatchOption result (SkipsPlain (spec.mark notation) text.now [])
        (λ rest. SkipsPlain (spec.mark notation) text.now (spec.mark notation ∷ rest.now)) }
{
    match notation {
        Notation::PerlBrace => next_directive(text, b'{'),
        Notation::Shell => next_directive(text, b'$'),
    }
}

fn is_letter(byte: u8) -> bool
    ensures { result ≡ is_letter_of byte }
{
    byte.is_ascii_alphabetic() || byte == b'_'
}

fn is_word(byte: u8) -> bool
    ensures { result ≡ is_word_of byte }
{
    byte.is_ascii_alphanumeric() || byte == b'_'
}

fn word_len(text: &[u8]) -> usize
    ensures { result ≡ prefix_len is_word_of text.now }
{
    text.iter().take_while(|byte| is_word(**byte)).count()
}

/// Splits off the name at the front, if the text begins with one.
fn split_name(text: &[u8]) -> Option<(&[u8], &[u8])>
    ensures { option_map (λ found. (found.0.now, found.1.now)) result ≡ spec.split_name text.now }
{
    match split_byte(text) {
        Some((first, _)) => if is_letter(first) {
            Some(text.split_at(word_len(text)))
        } else {
            None
        },
        None => None,
    }
}

/// Splits off a name and the brace that closes it.
fn split_closed_name(text: &[u8]) -> Option<(&[u8], &[u8])>
    ensures { option_map (λ found. (found.0.now, found.1.now)) result ≡ spec.split_closed_name text.now }
{
    match split_name(text) {
        Some((name, rest)) => match split_byte(rest) {
            Some((b'}', after)) => Some((name, after)),
            _ => None,
        },
        None => None,
    }
}

fn read_shell(text: &[u8]) -> Option<(&[u8], &[u8])>
    ensures { option_map (λ found. (found.0.now, found.1.now)) result ≡ spec.shell text.now }
{
    match split_byte(text) {
        Some((b'{', rest)) => split_closed_name(rest),
        _ => split_name(text),
    }
}

fn read_name(notation: Notation, text: &[u8]) -> Option<(&[u8], &[u8])>
    ensures { option_map (λ found. (found.0.now, found.1.now)) result ≡ spec.name_in notation text.now }
{
    match notation {
        Notation::PerlBrace => split_closed_name(text),
        Notation::Shell => read_shell(text),
    }
}

/// Reads a directive: the name of its argument, if it asks for one, and what follows.
pub(crate) fn read_directive(notation: Notation, text: &[u8]) -> Option<(Option<&[u8]>, &[u8])>
    ensures { MatchOption result
        ((name : Option (List ℕ)) (rest : List ℕ) →
        ¬ spec.DirectiveAt notation name (spec.mark notation ∷ text.now) rest)
        (λ found. spec.DirectiveAt notation (option_map (λ n. n.now) found.0)
        (spec.mark notation ∷ text.now) found.1.now) }
{
    match read_name(notation, text) {
        Some((name, rest)) => Some((Some(name), rest)),
        None => match notation {
            Notation::PerlBrace => Some((None, text)),
            Notation::Shell => None,
        },
    }
}
