//! The kinds of a format's arguments, where a language lets one be of any type.
ghost use Rattle.std.specs.Prelude.{◌≡◌, IfOk, map};
ghost use Rattle.numbered_arguments.specs.NumberedArguments.{is_consistent};
ghost use Rattle.numbered_arguments.specs.NumberedIndex.{has_in};
ghost use Rattle.script_formats.specs.ScriptKinds as spec;

use crate::Notation;
use numbered_arguments::{Index, Kind, Numbered, Size, is_consistent, same_kind};
use std::alloc::{AllocError, Global};

fn is_typed(argument: Numbered) -> bool
    ensures { result ≡ spec.is_typed argument }
{
    !same_kind(argument.kind, Kind::Object)
}

/// Those that are of a certain type.
fn typed(alloc: Global, asked: &[Numbered]) -> Result<Vec<Numbered>, AllocError>
    ensures { IfOk result (λ found. found.items ≡ spec.typed_arguments asked.now) }
{
    let mut found = Vec::new(alloc);
    'asked: for argument in asked {
        if is_typed(*argument) {
            found.push(*argument)?;
        }
    }
    Ok(found)
}

fn of_kind(kind: Kind, argument: Numbered) -> Numbered
    ensures { result ≡ spec.of_kind kind argument }
{
    Numbered {
        number: argument.number,
        kind,
    }
}

/// The argument with the type by which it is known.
fn typed_by(known: &Index, argument: Numbered) -> Numbered
    ensures { result ≡ spec.typed_by (has_in known.now) argument }
{
    let character = of_kind(Kind::Character, argument);
    let integer = of_kind(Kind::Integer(Size::Plain), argument);
    let float = of_kind(Kind::Float(Size::Plain), argument);
    let pointer = of_kind(Kind::Pointer, argument);
    if known.has(character) {
        character
    } else if known.has(integer) {
        integer
    } else if known.has(float) {
        float
    } else if known.has(pointer) {
        pointer
    } else {
        argument
    }
}

fn all_typed_by(
    alloc: Global,
    known: &Index,
    asked: &[Numbered],
) -> Result<Vec<Numbered>, AllocError>
    ensures { IfOk result (λ found. found.items ≡ map (spec.typed_by (has_in known.now)) asked.now) }
{
    let mut found = Vec::new(alloc);
    'asked: for argument in asked {
        found.push(typed_by(known, *argument))?;
    }
    Ok(found)
}

/// The arguments, each with its type, if a directive says one.
pub(crate) fn settled(alloc: Global, asked: &[Numbered]) -> Result<Vec<Numbered>, AllocError>
    ensures { IfOk result (λ found. found.items ≡ spec.settled_arguments asked.now) }
{
    let typed = typed(alloc, asked)?;
    let known = Index::of(alloc, &typed)?;
    all_typed_by(alloc, &known, asked)
}

fn boost_is_consistent(alloc: Global, asked: &[Numbered]) -> Result<bool, AllocError>
    ensures { IfOk result (λ is. is ≡ is_consistent (spec.typed_arguments asked.now)) }
{
    let typed = typed(alloc, asked)?;
    is_consistent(alloc, &typed)
}

/// Whether each number has one kind, or one type, in a format of the language.
pub(crate) fn is_consistent_in(
    alloc: Global,
    notation: Notation,
    asked: &[Numbered],
) -> Result<bool, AllocError>
    ensures { IfOk result (λ is. is ≡ spec.is_consistent_in notation asked.now) }
{
    match notation {
        Notation::Boost => boost_is_consistent(alloc, asked),
        _ => is_consistent(alloc, asked),
    }
}
