//! Directives, each read from after its `%`.
ghost use Rattle.std.specs.Prelude.{◌≡◌, ◌∷◌, ℕ, List, MatchOption};
ghost use Rattle.c_signature.specs.Pieces.{percent};
ghost use Rattle.c_signature.specs.Readers.{argument_view};
ghost use Rattle.c_macros.specs.MacroDirectives.{Directive as Value, DirectiveAt};
ghost use Rattle.c_macros.specs.MacroScanning.{HasNoTail, own_of, ReadsDirective, ReadsHead, ReadsTail};

use crate::Kind;
use crate::macros::read_macro;
use byte_text::split_byte;
use c_signature::{
    Amount, Argument, argument_of, is_allowed, read_modifier, read_number, read_precision,
    read_width, split_flags,
};

/// What comes before the length modifier or the macro.
#[derive(Clone, Copy)]
pub(crate) struct Head<'a> {
    /// `m$`, the number of its argument
    pub(crate) number: Option<u32>,
    pub(crate) flags: &'a [u8],
    /// The number of bytes from the flags on, to the end of the text.
    pub(crate) flags_left: usize,
    pub(crate) width: Amount,
    pub(crate) precision: Amount,
}

/// Where a macro is.
#[derive(Clone, Copy)]
pub(crate) struct Named {
    /// The number of bytes from the macro on, to the end of the text.
    pub(crate) left: usize,
    pub(crate) len: usize,
}

/// A directive, reduced to the arguments that it takes and where its parts are.
#[derive(Clone, Copy)]
pub(crate) struct Directive<'a> {
    pub(crate) head: Head<'a>,
    /// The kind of its own argument, if it takes one.
    pub(crate) own: Option<Kind>,
    pub(crate) named: Option<Named>,
}

/// Reads a head, from after its `%`.
fn read_head(text: &[u8]) -> (Head<'_>, &[u8])
    ensures { ReadsHead result.0 (percent ∷ text.now) result.1.now }
{
    let (number, behind_number) = read_number(text);
    let (flags, behind_flags) = split_flags(behind_number);
    let (width, behind_width) = read_width(behind_flags);
    let (precision, rest) = read_precision(behind_width);
    let head = Head {
        number,
        flags,
        flags_left: behind_number.len(),
        width,
        precision,
    };
    (head, rest)
}

/// Reads a length modifier and a conversion, behind a head with this number.
fn read_tail(text: &[u8], number: Option<u32>) -> Option<(Argument, &[u8])>
    ensures { MatchOption result (HasNoTail number text.now)
        (λ found. ReadsTail number found.0 text.now found.1.now) }
{
    let (modifier, behind_modifier) = read_modifier(text);
    let (conversion, rest) = split_byte(behind_modifier)?;
    let argument = argument_of(conversion, modifier);
    if is_allowed(argument, number) {
        Some((argument, rest))
    } else {
        None
    }
}

fn own_kind(argument: Argument) -> Option<Kind>
    ensures { result ≡ own_of (argument_view argument) }
{
    match argument {
        Argument::One(kind) => Some(Kind::Plain(kind)),
        _ => None,
    }
}

/// Reads a directive, from after its `%`.
pub(crate) fn read_directive(text: &[u8]) -> Option<(Directive<'_>, &[u8])>
    ensures { MatchOption result
        ((d : Value) (rest : List ℕ) → ¬ DirectiveAt d (percent ∷ text.now) rest)
        (λ found. ReadsDirective found.0 (percent ∷ text.now) found.1.now) }
{
    let (head, tail) = read_head(text);
    if let Some((kind, rest)) = read_macro(tail) {
        let named = Named {
            left: tail.len(),
            len: tail.len() - rest.len(),
        };
        let directive = Directive {
            head,
            own: Some(kind),
            named: Some(named),
        };
        return Some((directive, rest));
    }
    let (argument, rest) = read_tail(tail, head.number)?;
    let directive = Directive {
        head,
        own: own_kind(argument),
        named: None,
    };
    Some((directive, rest))
}
