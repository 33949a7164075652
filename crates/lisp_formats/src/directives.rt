//! Directives: their parameters, modifiers and conversion.
ghost use Rattle.std.specs.Prelude.{◌≡◌, ℕ, List, ◌∷◌, ◌++◌, IfOk, OnOk, MatchOption, option_map};
ghost use Rattle.std.specs.List.{prefix_len};
ghost use Rattle.lisp_formats.specs.LispDirectives as spec;

use crate::conversions::{Conversion, Target, conversion_of, expected, target_of};
use crate::parameters::{Parameter, read_parameters};
use crate::{Kind, Notation};
use byte_text::split_byte;
use std::alloc::{AllocError, Global};

/// What a directive asks for: the arguments for its parameters, and then its own.
#[derive(Drop)]
pub(crate) struct Directive {
    pub(crate) variables: Vec<Kind>,
    pub(crate) target: Target,
}

/// The kind of the next parameter, and those of the ones behind it. A parameter behind the expected ones has to be nil.
fn next_expected(kinds: &[Kind]) -> (Kind, &[Kind])
    ensures { (result.0, result.1.now) ≡ spec.next_expected kinds.now }
{
    match kinds {
        [kind, more @ ..] => (*kind, more),
        [] => (Kind::Nil, &[]),
    }
}

/// Whether a parameter may stand where this kind is expected.
fn allows(kind: Kind, parameter: Parameter) -> bool
    ensures { result ≡ spec.allows kind parameter }
{
    match parameter {
        Parameter::Number => matches!(kind, Kind::OptionalInteger),
        Parameter::Character => matches!(kind, Kind::OptionalCharacter),
        Parameter::Absent | Parameter::Variable => true,
    }
}

/// Adds the argument for a parameter, if it takes one.
fn take(kinds: &mut Vec<Kind>, kind: Kind, parameter: Parameter) -> Result<(), AllocError>
    ensures { OnOk result (kinds.new.items ≡ kinds.old.items ++ spec.argument_for kind parameter) }
{
    if matches!(parameter, Parameter::Variable) {
        kinds.push(kind)?;
    }
    Ok(())
}

/// The kinds of the arguments for parameters. None: a parameter is of another kind than its conversion expects.
fn variables(
    alloc: Global,
    kinds: &[Kind],
    parameters: &[Parameter],
) -> Result<Option<Vec<Kind>>, AllocError>
    ensures { IfOk result (λ found. option_map (λ taken. taken.items) found
        ≡ spec.variables kinds.now parameters.now) }
{
    let mut taken = Vec::new(alloc);
    let mut left = kinds;
    'parameters: for parameter in parameters {
        let (kind, later) = next_expected(left);
        if !allows(kind, *parameter) {
            return Ok(None);
        }
        take(&mut taken, kind, *parameter)?;
        left = later;
    }
    Ok(Some(taken))
}

fn modifiers_len(text: &[u8]) -> usize
    ensures { result ≡ prefix_len spec.is_modifier text.now }
{
    text.iter()
        .take_while(|byte| matches!(byte, b':' | b'@'))
        .count()
}

/// Reads the modifiers: whether `:` is among them, and what follows.
fn read_modifiers(text: &[u8]) -> (bool, &[u8])
    ensures { (result.0, result.1.now) ≡ spec.modifiers text.now }
{
    let (modifiers, rest) = text.split_at(modifiers_len(text));
    (modifiers.contains(&b':'), rest)
}

/// What a directive of this conversion is, and what follows it.
fn converted<'a>(
    alloc: Global,
    conversion: Conversion,
    colon: bool,
    parameters: &[Parameter],
    rest: &'a [u8],
) -> Result<Option<(Directive, &'a [u8])>, AllocError>
    ensures { IfOk result (λ found. option_map (λ found. (spec.view found.0, found.1.now)) found
        ≡ spec.behind_parameters conversion colon parameters.now rest.now) }
{
    let target = target_of(conversion, colon, parameters);
    if matches!(target, Target::Unread) {
        let variables = Vec::new(alloc);
        return Ok(Some((Directive { variables, target }, &[])));
    }
    let Some(variables) = variables(alloc, expected(conversion), parameters)? else {
        return Ok(None)
    };
    Ok(Some((Directive { variables, target }, rest)))
}

/// Reads what stands behind the parameters.
fn read_back<'a>(
    alloc: Global,
    notation: Notation,
    parameters: &[Parameter],
    text: &'a [u8],
) -> Result<Option<(Directive, &'a [u8])>, AllocError>
    ensures { IfOk result (λ found. option_map (λ found. (spec.view found.0, found.1.now)) found
        ≡ spec.back notation parameters.now text.now) }
{
    let (colon, at) = read_modifiers(text);
    let Some((letter, rest)) = split_byte(at) else {
        return Ok(None)
    };
    let Some(conversion) = conversion_of(notation, letter) else {
        return Ok(None)
    };
    converted(alloc, conversion, colon, parameters, rest)
}

/// Reads a directive, from after its `~`: what it asks for, and what follows it. Nothing follows one that is not read.
pub(crate) fn read_directive(
    alloc: Global,
    notation: Notation,
    text: &[u8],
) -> Result<Option<(Directive, &[u8])>, AllocError>
    ensures { IfOk result (λ found. MatchOption found
        ((directive : spec.Directive) (rest : List ℕ) →
        ¬ spec.DirectiveAt notation directive (spec.tilde ∷ text.now) rest)
        (λ found. spec.DirectiveAt notation (spec.view found.0) (spec.tilde ∷ text.now) found.1.now)) }
{
    let Some((parameters, rest)) = read_parameters(alloc, text)? else {
        return Ok(None)
    };
    read_back(alloc, notation, &parameters, rest)
}
