//! Directives, read part by part. Each reader takes the text from where its part may begin, and returns the part and
//! the rest.
ghost use Rattle.std.specs.Prelude.{◌≡◌, ℕ, List, ◌∷◌, MatchOption, option_map};
ghost use Rattle.std.specs.List.{prefix_len};
ghost use Rattle.format_arguments.specs.Bytes.{behind};
ghost use Rattle.librep_format.specs.declared.parts.Directive.{Directive as Value};
ghost use Rattle.librep_format.specs.LibrepDirectives as spec;

use byte_text::split_byte;
use numbered_arguments::{Kind, Size, skip_digits};
use script_formats::{read_index, skip_precision};

/// A directive: the argument that it goes to, and what it asks for there.
#[derive(Clone, Copy)]
pub(crate) struct Directive {
    /// the number of the argument; None: the one that is next
    pub(crate) number: Option<u32>,
    /// what the conversion asks for, if it asks for an argument
    pub(crate) kind: Option<Kind>,
}

fn flags_len(text: &[u8]) -> usize
    ensures { result ≡ prefix_len spec.is_flag text.now }
{
    text.iter()
        .take_while(|byte| matches!(byte, b'-' | b'^' | b'0' | b'+' | b' '))
        .count()
}

fn skip_flags(text: &[u8]) -> &[u8]
    ensures { result.now ≡ behind spec.is_flag text.now }
{
    let (_, rest) = text.split_at(flags_len(text));
    rest
}

/// What a conversion asks for, if there is such a conversion.
fn asked_by(conversion: u8) -> Option<Option<Kind>>
    ensures { result ≡ spec.asked_by conversion }
{
    match conversion {
        b'%' => Some(None),
        b'c' => Some(Some(Kind::Character)),
        b'd' | b'x' | b'X' | b'o' => Some(Some(Kind::Integer(Size::Plain))),
        b's' => Some(Some(Kind::Text)),
        b'S' => Some(Some(Kind::Object)),
        _ => None,
    }
}

/// Reads what stands behind the number.
fn read_back(number: Option<u32>, text: &[u8]) -> Option<(Directive, &[u8])>
    ensures { option_map (λ found. (found.0, found.1.now)) result ≡ spec.back number text.now }
{
    let behind_precision = skip_precision(skip_digits(skip_flags(text)));
    let (conversion, rest) = split_byte(behind_precision)?;
    let kind = asked_by(conversion)?;
    Some((Directive { number, kind }, rest))
}

fn read(text: &[u8]) -> Option<(Directive, &[u8])>
    ensures { option_map (λ found. (found.0, found.1.now)) result ≡ spec.directive text.now }
{
    let (number, rest) = read_index(text)?;
    read_back(number, rest)
}

/// Reads a directive, from after its `%`: where it goes and what it asks for, and what follows.
pub(crate) fn read_directive(text: &[u8]) -> Option<(Directive, &[u8])>
    ensures { MatchOption result
        ((directive : Value) (rest : List ℕ) → ¬ spec.DirectiveAt directive (spec.percent ∷ text.now) rest)
        (λ found. spec.DirectiveAt found.0 (spec.percent ∷ text.now) found.1.now) }
{
    read(text)
}
