//! Directives: what each asks for.
ghost use Rattle.std.specs.Prelude.{◌≡◌, ◌∷◌, ℕ, List, MatchOption, option_map};
ghost use Rattle.script_formats.specs.declared.directive.Directive.{Directive as Value};
ghost use Rattle.script_formats.specs.ScriptDirectives as spec;

use crate::{Notation, awk, boost, javascript, lua, pascal, perl, tcl};
use numbered_arguments::{Kind, Request};

/// What a directive asks for, in this order.
#[derive(Clone, Copy)]
pub(crate) struct Directive {
    /// what says which argument the conversion takes
    pub(crate) index: Option<Request>,
    /// what stands between the numbers of a vector
    pub(crate) separator: Option<Request>,
    pub(crate) vector: Option<Request>,
    pub(crate) width: Option<Request>,
    pub(crate) precision: Option<Request>,
    /// what the conversion asks for
    pub(crate) argument: Option<Request>,
}

/// An argument of this kind, if there is one.
pub(crate) fn argument(number: Option<u32>, kind: Option<Kind>) -> Option<Request>
    ensures { result ≡ spec.argument number kind }
{
    match kind {
        Some(kind) => Some(Request { number, kind }),
        None => None,
    }
}

/// A directive that asks for a width, a precision and what its conversion does.
pub(crate) fn printed(
    width: Option<Request>,
    precision: Option<Request>,
    asked: Option<Request>,
) -> Directive
    ensures { result ≡ spec.printing_directive width precision asked }
{
    Directive {
        index: None,
        separator: None,
        vector: None,
        width,
        precision,
        argument: asked,
    }
}

fn read(notation: Notation, text: &[u8]) -> Option<(Directive, &[u8])>
    ensures { option_map (λ found. (found.0, found.1.now)) result ≡ spec.directive notation text.now }
{
    match notation {
        Notation::Perl => perl::read(text),
        Notation::JavaScript => javascript::read(text),
        Notation::Tcl => tcl::read(text),
        Notation::Awk => awk::read(text),
        Notation::Lua => lua::read(text),
        Notation::ObjectPascal => pascal::read(text),
        Notation::Boost => boost::read(text),
    }
}

/// Reads a directive, from after its `%`: what it asks for, and what follows.
pub(crate) fn read_directive(notation: Notation, text: &[u8]) -> Option<(Directive, &[u8])>
    ensures { MatchOption result
        ((directive : Value) (rest : List ℕ) → ¬ spec.DirectiveAt notation directive (spec.percent ∷ text.now) rest)
        (λ found. spec.DirectiveAt notation found.0 (spec.percent ∷ text.now) found.1.now) }
{
    read(notation, text)
}
