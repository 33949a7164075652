//! The parameters of directives. Each reader takes the text from where its part may begin.
ghost use Rattle.std.specs.Prelude.{◌≡◌, ℕ, List, IfOk, MatchOption, option_map};
ghost use Rattle.lisp_formats.specs.declared.parameters.Parameter.{Parameter as Value};
ghost use Rattle.lisp_formats.specs.LispParameters as spec;

use byte_text::split_byte;
use format_arguments::after_byte;
use numbered_arguments::skip_digits;
use std::alloc::{AllocError, Global};

/// A parameter of a directive.
#[derive(Clone, Copy)]
pub(crate) enum Parameter {
    /// left out
    Absent,
    /// an integer, or `#`, which stands for how many arguments are left
    Number,
    /// `'` and a byte
    Character,
    /// `v`: the next argument
    Variable,
}

/// Reads digits, from after a sign.
fn read_signed(text: &[u8]) -> Option<(Parameter, &[u8])>
    ensures { option_map (λ found. (found.0, found.1.now)) result ≡ spec.behind_sign text.now }
{
    match split_byte(text) {
        Some((first, rest)) if first.is_ascii_digit() => {
            Some((Parameter::Number, skip_digits(rest)))
        }
        _ => None,
    }
}

/// Reads a byte, from after the quote.
fn read_quoted(text: &[u8]) -> Option<(Parameter, &[u8])>
    ensures { option_map (λ found. (found.0, found.1.now)) result ≡ spec.behind_quote text.now }
{
    match split_byte(text) {
        Some((_, rest)) => Some((Parameter::Character, rest)),
        None => None,
    }
}

/// Reads a parameter, which may be left out. None: a sign without a digit, or a quote at the end of the text.
fn read_parameter(text: &[u8]) -> Option<(Parameter, &[u8])>
    ensures { option_map (λ found. (found.0, found.1.now)) result ≡ spec.parameter text.now }
{
    match split_byte(text) {
        Some((first, rest)) if first.is_ascii_digit() => {
            Some((Parameter::Number, skip_digits(rest)))
        }
        Some((b'+' | b'-', rest)) => read_signed(rest),
        Some((b'\'', rest)) => read_quoted(rest),
        Some((b'v' | b'V', rest)) => Some((Parameter::Variable, rest)),
        Some((b'#', rest)) => Some((Parameter::Number, rest)),
        _ => Some((Parameter::Absent, text)),
    }
}

/// Reads the parameters of a directive, between commas: at least one, which may be left out, as any of them; and what
/// follows them.
pub(crate) fn read_parameters(
    alloc: Global,
    text: &[u8],
) -> Result<Option<(Vec<Parameter>, &[u8])>, AllocError>
    ensures { IfOk result (λ found. MatchOption found
        ((parameters : List Value) (rest : List ℕ) → ¬ spec.AreParameters parameters text.now rest)
        (λ found. spec.AreParameters found.0.items text.now found.1.now)) }
{
    let mut parameters = Vec::new(alloc);
    let mut rest = text;
    'parameters: loop {
        let Some((parameter, after)) = read_parameter(rest) else {
            return Ok(None)
        };
        parameters.push(parameter)?;
        let Some(more) = after_byte(after, b',') else {
            return Ok(Some((parameters, after)))
        };
        rest = more;
    }
}
