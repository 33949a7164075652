//! Directives, read part by part. Each reader takes the text from where its part may begin, and returns the part and
//! the rest.
ghost use Rattle.std.specs.Prelude.{◌≡◌, ◌∷◌, ℕ, List, MatchOption, option_map};
ghost use Rattle.std.specs.List.{prefix_len};
ghost use Rattle.std.specs.Char.{is_ascii_digit};
ghost use Rattle.format_arguments.specs.Bytes.{behind, run};
ghost use Rattle.java_printf_format.specs.declared.directive.Directive.{Directive as Value};
ghost use Rattle.java_printf_format.specs.PrintfDirectives as spec;

use crate::conversions::{accepts, kind_of, read_conversion};
use byte_text::split_byte;
use numbered_arguments::{Kind, number_of, split_digits};

/// Which argument a directive takes.
#[derive(Clone, Copy)]
pub(crate) enum Which {
    /// the one with this number
    Own(u32),
    /// that of the directive before
    Previous,
    /// the next one
    Next,
}

/// A directive: which argument it takes, and as what kind. Without a kind it takes none.
#[derive(Clone, Copy)]
pub(crate) struct Directive {
    pub(crate) which: Which,
    pub(crate) kind: Option<Kind>,
}

/// Reads a `<`, which may be left out.
fn read_relative(text: &[u8]) -> (Which, &[u8])
    ensures which { result.0 ≡ (spec.which_relative text.now).0 }
    ensures rest { result.1.now ≡ (spec.which_relative text.now).1 }
{
    match split_byte(text) {
        Some((b'<', rest)) => (Which::Previous, rest),
        _ => (Which::Next, text),
    }
}

/// Reads `m$` or `<`, which may be left out. None: m is 0.
fn read_which(text: &[u8]) -> Option<(Which, &[u8])>
    ensures { option_map (λ found. (found.0, found.1.now)) result ≡ spec.which text.now }
{
    let (digits, behind) = split_digits(text);
    let number = number_of(digits);
    match split_byte(behind) {
        Some((b'$', rest)) => if number == 0 {
            None
        } else {
            Some((Which::Own(number), rest))
        },
        _ => Some(read_relative(text)),
    }
}

fn flags_len(text: &[u8]) -> usize
    ensures { result ≡ prefix_len spec.is_flag text.now }
{
    text.iter()
        .take_while(|byte| matches!(byte, b'-' | b'#' | b'+' | b' ' | b'0' | b',' | b'('))
        .count()
}

fn split_flags(text: &[u8]) -> (&[u8], &[u8])
    ensures flags { result.0.now ≡ run spec.is_flag text.now }
    ensures rest { result.1.now ≡ behind spec.is_flag text.now }
{
    text.split_at(flags_len(text))
}

/// Splits off the digits at the front, and says whether there are any.
fn read_digits(text: &[u8]) -> (bool, &[u8])
    ensures any { result.0 ≡ spec.has_digits text.now }
    ensures rest { result.1.now ≡ behind is_ascii_digit text.now }
{
    let (digits, rest) = split_digits(text);
    (!digits.is_empty(), rest)
}

/// Reads a dot and digits, which may be left out, and says whether they are there. None: a dot without digits.
fn read_precision(text: &[u8]) -> Option<(bool, &[u8])>
    ensures { option_map (λ found. (found.0, found.1.now)) result ≡ spec.precision text.now }
{
    match split_byte(text) {
        Some((b'.', behind)) => {
            let (any, rest) = read_digits(behind);
            if any { Some((true, rest)) } else { None }
        }
        _ => Some((false, text)),
    }
}

/// Reads what stands behind the which.
fn read_back(which: Which, text: &[u8]) -> Option<(Directive, &[u8])>
    ensures { option_map (λ found. (found.0, found.1.now)) result ≡ spec.back which text.now }
{
    let (flags, behind_flags) = split_flags(text);
    let (width, behind_width) = read_digits(behind_flags);
    match read_precision(behind_width) {
        Some((precision, behind)) => match read_conversion(behind) {
            Some((conversion, rest)) => if accepts(conversion, flags, width, precision) {
                Some((
                    Directive {
                        which,
                        kind: kind_of(conversion),
                    },
                    rest,
                ))
            } else {
                None
            },
            None => None,
        },
        None => None,
    }
}

fn read(text: &[u8]) -> Option<(Directive, &[u8])>
    ensures { option_map (λ found. (found.0, found.1.now)) result ≡ spec.directive text.now }
{
    match read_which(text) {
        Some((which, rest)) => read_back(which, rest),
        None => None,
    }
}

/// Reads a directive, from after its `%`: which argument it takes, and what follows.
pub(crate) fn read_directive(text: &[u8]) -> Option<(Directive, &[u8])>
    ensures { MatchOption result
        ((directive : Value) (rest : List ℕ) → ¬ spec.DirectiveAt directive (spec.percent ∷ text.now) rest)
        (λ found. spec.DirectiveAt found.0 (spec.percent ∷ text.now) found.1.now) }
{
    read(text)
}
