//! Directives, each read from after its `%`, and what each refers to.
ghost use Rattle.std.specs.Prelude.{◌≡◌, ℕ, ◌∷◌, ◌++◌, List, MatchOption, OnOk, map, option_map};
ghost use Rattle.ruby_format.specs.RubyDirectives as spec;
ghost use Rattle.ruby_format.specs.RubyDirectives.{Directive as Value};
ghost use Rattle.ruby_format.specs.RubyPieces.{percent};
ghost use Rattle.ruby_format.specs.RubyScanning.{directive_view, ending_view, part_view, reference_view, way_view};

use crate::parts::{Amount, Ending, Part, Way, read_ending, read_part};
use format_arguments::Kind;
use std::alloc::AllocError;

#[derive(Clone, Copy)]
pub(crate) struct Directive<'a> {
    pub(crate) to: Way<'a>,
    pub(crate) width: Option<Amount>,
    pub(crate) precision: Option<Amount>,
    pub(crate) kind: Option<Kind>,
}

/// What a directive says of an argument; it asks for it if there is a kind.
#[derive(Clone, Copy)]
pub(crate) struct Reference<'a> {
    pub(crate) to: Way<'a>,
    pub(crate) kind: Option<Kind>,
}

/// The directive with a number or a name, which may come once.
fn with_way<'a>(directive: Directive<'a>, way: Way<'a>) -> Option<Directive<'a>>
    ensures { option_map directive_view result
        ≡ spec.with_way (directive_view directive.entry) (way_view directive.entry.to) (way_view way.entry) }
{
    match directive.to {
        Way::Next => Some(Directive {
            to: way,
            ..directive
        }),
        _ => None,
    }
}

/// The directive with one more part, if the part may follow the others.
fn with_part<'a>(directive: Directive<'a>, part: Part<'a>) -> Option<Directive<'a>>
    ensures { option_map directive_view result
        ≡ spec.with_part (directive_view directive.entry) (part_view part.entry) }
{
    let has_precision = directive.precision.is_some();
    let has_width = directive.width.is_some();
    match part {
        Part::Flag if !has_width && !has_precision => Some(directive),
        Part::To(way) => with_way(directive, way),
        Part::Width(amount) if !has_width && !has_precision => Some(Directive {
            width: Some(amount),
            ..directive
        }),
        Part::Precision(amount) if !has_precision => Some(Directive {
            precision: Some(amount),
            ..directive
        }),
        _ => None,
    }
}

/// The directive with its end, if the end may follow its parts.
fn with_ending<'a>(directive: Directive<'a>, ending: Ending<'a>) -> Option<Directive<'a>>
    ensures { option_map directive_view result
        ≡ spec.with_ending (directive_view directive.entry) (ending_view ending.entry) }
{
    match ending {
        Ending::Nothing => Some(directive),
        Ending::Asks(kind) => Some(Directive {
            kind: Some(kind),
            ..directive
        }),
        Ending::Braces(name) => match with_way(directive, Way::Name(name)) {
            Some(named) => Some(Directive {
                kind: Some(Kind::Text),
                ..named
            }),
            None => None,
        },
    }
}

/// Reads the parts of a directive, as many as there are, from after its `%`. None: one may not follow those before it.
fn read_parts(text: &[u8]) -> Option<(Directive<'_>, &[u8])>
    ensures { MatchOption result
        ((d : Value) (rest : List ℕ) → ¬ spec.DirectiveAt d (percent ∷ text.now) rest)
        (λ found. spec.HasParts (directive_view found.0) text.now found.1.now) }
{
    let mut directive = Directive {
        to: Way::Next,
        width: None,
        precision: None,
        kind: None,
    };
    let mut rest = text;
    'parts: while let Some((part, after)) = read_part(rest) {
        directive = with_part(directive, part)?;
        rest = after;
    }
    Some((directive, rest))
}

/// Reads a directive, from after its `%`.
pub(crate) fn read_directive(text: &[u8]) -> Option<(Directive<'_>, &[u8])>
    ensures { MatchOption result
        ((d : Value) (rest : List ℕ) → ¬ spec.DirectiveAt d (percent ∷ text.now) rest)
        (λ found. spec.DirectiveAt (directive_view found.0) (percent ∷ text.now) found.1.now) }
{
    let (directive, rest) = read_parts(text)?;
    let (ending, behind) = read_ending(rest)?;
    let whole = with_ending(directive, ending)?;
    Some((whole, behind))
}

/// Adds the argument that a width or a precision takes.
fn refer_amount(
    references: &mut Vec<Reference<'_>>,
    amount: Option<Amount>,
) -> Result<(), AllocError>
    ensures { OnOk result (map reference_view references.new.items
        ≡ map reference_view references.old.items ++ spec.amount_refers amount) }
{
    let to = match amount {
        Some(Amount::Next) => Way::Next,
        Some(Amount::Number(number)) => Way::Number(number),
        _ => return Ok(()),
    };
    references.push(Reference {
        to,
        kind: Some(Kind::Integer),
    })?;
    Ok(())
}

fn refer_end<'a>(
    references: &mut Vec<Reference<'a>>,
    directive: Directive<'a>,
) -> Result<(), AllocError>
    ensures { OnOk result (map reference_view references.new.items ≡ map reference_view references.old.items
        ++ spec.end_refers (directive_view directive.entry).to directive.entry.kind) }
{
    if let (Way::Next, None) = (directive.to, directive.kind) {
        return Ok(());
    }
    references.push(Reference {
        to: directive.to,
        kind: directive.kind,
    })?;
    Ok(())
}

/// Adds what a directive refers to.
pub(crate) fn refer<'a>(
    references: &mut Vec<Reference<'a>>,
    directive: Directive<'a>,
) -> Result<(), AllocError>
    ensures { OnOk result (map reference_view references.new.items
        ≡ map reference_view references.old.items ++ spec.references (directive_view directive.entry)) }
{
    refer_amount(references, directive.width)?;
    refer_amount(references, directive.precision)?;
    refer_end(references, directive)
}
