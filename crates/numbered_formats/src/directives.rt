//! Directives, each read from after its `%`: what it asks for, and what follows.
ghost use Rattle.std.specs.Prelude.{◌≡◌, ◌<◌, ◌∷◌, ℕ, List, Option, MatchOption, option_map};
ghost use Rattle.numbered_arguments.specs.declared.Request.{Request as Value};
ghost use Rattle.numbered_formats.specs.NumberDirectives as spec;

use crate::Notation;
use byte_text::split_byte;
use numbered_arguments::{Kind, Request, Size, number_of, split_digits};

/// The argument of this number.
fn numbered(number: u32, kind: Kind) -> Request
    ensures { result ≡ spec.numbered_request number kind }
{
    Request {
        number: Some(number),
        kind,
    }
}

fn is_first_digit(byte: u8) -> bool
    ensures { result ≡ spec.is_first_digit byte }
{
    byte.is_ascii_digit() && byte != b'0'
}

/// The number of this digit and of another, if one follows.
fn read_second(kind: Kind, first: u8, text: &[u8]) -> (Request, &[u8])
    requires { first < 10 }
    ensures request { result.0 ≡ (spec.second_digit kind first text.now).0 }
    ensures rest { result.1.now ≡ (spec.second_digit kind first text.now).1 }
{
    match split_byte(text) {
        Some((second, rest)) => if second.is_ascii_digit() {
            (
                numbered(u32::from(10 * first + (second - b'0')), Kind::Any),
                rest,
            )
        } else {
            (numbered(u32::from(first), kind), text)
        },
        None => (numbered(u32::from(first), kind), text),
    }
}

/// Reads one digit or two. A number of one digit is of this kind.
fn read_places(kind: Kind, text: &[u8]) -> Option<(Request, &[u8])>
    ensures { option_map (λ found. (found.0, found.1.now)) result ≡ spec.digits_at kind text.now }
{
    match split_byte(text) {
        Some((first, rest)) => if first.is_ascii_digit() {
            Some(read_second(kind, first - b'0', rest))
        } else {
            None
        },
        None => None,
    }
}

fn read_qt(text: &[u8]) -> Option<(Request, &[u8])>
    ensures { option_map (λ found. (found.0, found.1.now)) result ≡ spec.qt text.now }
{
    match split_byte(text) {
        Some((b'L', rest)) => read_places(Kind::Any, rest),
        _ => read_places(Kind::Text, text),
    }
}

fn read_n(text: &[u8]) -> Option<(Request, &[u8])>
    ensures { option_map (λ found. (found.0, found.1.now)) result ≡ spec.n text.now }
{
    match split_byte(text) {
        Some((b'n', rest)) => Some((numbered(1, Kind::Integer(Size::Plain)), rest)),
        _ => None,
    }
}

fn read_qt_plural(text: &[u8]) -> Option<(Request, &[u8])>
    ensures { option_map (λ found. (found.0, found.1.now)) result ≡ spec.qt_plural text.now }
{
    match split_byte(text) {
        Some((b'L', rest)) => read_n(rest),
        _ => read_n(text),
    }
}

fn read_kde(text: &[u8]) -> Option<(Request, &[u8])>
    ensures { option_map (λ found. (found.0, found.1.now)) result ≡ spec.kde text.now }
{
    match split_byte(text) {
        Some((first, _)) => if is_first_digit(first) {
            let (digits, rest) = split_digits(text);
            Some((numbered(number_of(digits), Kind::Any), rest))
        } else {
            None
        },
        None => None,
    }
}

/// Reads one digit, which isn't 0.
fn read_digit(text: &[u8]) -> Option<(Request, &[u8])>
    ensures { option_map (λ found. (found.0, found.1.now)) result ≡ spec.digit text.now }
{
    match split_byte(text) {
        Some((first, rest)) => if is_first_digit(first) {
            Some((numbered(u32::from(first - b'0'), Kind::Any), rest))
        } else {
            None
        },
        None => None,
    }
}

fn read_request(notation: Notation, text: &[u8]) -> Option<(Request, &[u8])>
    ensures { option_map (λ found. (found.0, found.1.now)) result ≡ spec.request notation text.now }
{
    match notation {
        Notation::Qt => read_qt(text),
        Notation::QtPlural => read_qt_plural(text),
        Notation::Kde => read_kde(text),
        Notation::Ycp | Notation::Smalltalk => read_digit(text),
    }
}

/// What follows a second `%`, if there is one.
fn after_percent(text: &[u8]) -> Option<&[u8]>
    ensures { option_map (λ rest. rest.now) result ≡ spec.behind_percent text.now }
{
    match split_byte(text) {
        Some((b'%', rest)) => Some(rest),
        _ => None,
    }
}

/// What follows a `%` that asks for nothing. None: there has to be an argument.
fn after_plain(notation: Notation, text: &[u8]) -> Option<&[u8]>
    ensures { option_map (λ rest. rest.now) result ≡ spec.behind_plain notation text.now }
{
    match notation {
        Notation::Ycp | Notation::Smalltalk => after_percent(text),
        _ => Some(text),
    }
}

/// Reads a directive: what it asks for, if it asks for an argument, and what follows.
pub(crate) fn read_directive(notation: Notation, text: &[u8]) -> Option<(Option<Request>, &[u8])>
    ensures { MatchOption result
        ((request : Option Value) (rest : List ℕ) →
        ¬ spec.DirectiveAt notation request (spec.percent ∷ text.now) rest)
        (λ found. spec.DirectiveAt notation found.0 (spec.percent ∷ text.now) found.1.now) }
{
    if let Some((request, rest)) = read_request(notation, text) {
        return Some((Some(request), rest));
    }
    match after_plain(notation, text) {
        Some(rest) => Some((None, rest)),
        None => None,
    }
}
