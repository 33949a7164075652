//! Directives, each read from after its `%`.
ghost use Rattle.std.specs.Prelude.{ℕ, ◌∷◌, List, MatchOption};
ghost use Rattle.python_format.specs.PythonDirectives.{Directive as Value, DirectiveAt};
ghost use Rattle.python_format.specs.PythonPieces.{percent};
ghost use Rattle.python_format.specs.PythonScanning.{directive_view};

use crate::parts::{
    Amount, kind_of, read_amount, read_name, read_precision, skip_flags, skip_modifier,
};
use byte_text::split_byte;
use format_arguments::Kind;

#[derive(Clone, Copy)]
pub(crate) struct Directive<'a> {
    pub(crate) name: Option<&'a [u8]>,
    pub(crate) width: Amount,
    pub(crate) precision: Amount,
    pub(crate) kind: Kind,
}

/// Reads a directive, from after its `%`.
pub(crate) fn read_directive(text: &[u8]) -> Option<(Directive<'_>, &[u8])>
    ensures { MatchOption result
        ((d : Value) (rest : List ℕ) → ¬ DirectiveAt d (percent ∷ text.now) rest)
        (λ found. DirectiveAt (directive_view found.0) (percent ∷ text.now) found.1.now) }
{
    let (name, rest) = read_name(text)?;
    let (width, rest) = read_amount(skip_flags(rest));
    let (precision, rest) = read_precision(rest);
    let (conversion, rest) = split_byte(skip_modifier(rest))?;
    let kind = kind_of(conversion, precision)?;
    let directive = Directive {
        name,
        width,
        precision,
        kind,
    };
    Some((directive, rest))
}
