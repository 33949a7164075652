//! The kinds of a pattern's arguments, as all of its elements take them.
ghost use Rattle.std.specs.Prelude.{◌≡◌, IfOk, map};
ghost use Rattle.numbered_arguments.specs.NumberedIndex.{IsIndexOf, has_in};
ghost use Rattle.java_formats.specs.JavaKinds as spec;

use numbered_arguments::{Index, Kind, Numbered, same_kind};
use std::alloc::{AllocError, Global};

/// Whether it is taken as more than an object.
fn is_specific(argument: Numbered) -> bool
    ensures { result ≡ spec.is_specific argument }
{
    !same_kind(argument.kind, Kind::Object)
}

/// Those that are taken as more than an object.
pub(crate) fn specific(alloc: Global, asked: &[Numbered]) -> Result<Vec<Numbered>, AllocError>
    ensures { IfOk result (λ found. found.items ≡ spec.specific_arguments asked.now) }
{
    let mut found = Vec::new(alloc);
    'asked: for argument in asked {
        if is_specific(*argument) {
            found.push(*argument)?;
        }
    }
    Ok(found)
}

fn of_kind(kind: Kind, argument: Numbered) -> Numbered
    ensures { result ≡ spec.of_kind kind argument }
{
    Numbered {
        number: argument.number,
        kind,
    }
}

/// The argument as a number or a date, if it is known as such.
fn settled_by(known: &Index, argument: Numbered) -> Numbered
    ensures { result ≡ spec.settled_by (has_in known.now) argument }
{
    let number = of_kind(Kind::Number, argument);
    let date = of_kind(Kind::Date, argument);
    if known.has(number) {
        number
    } else if known.has(date) {
        date
    } else {
        argument
    }
}

/// The arguments with the kinds that they are known by.
fn settled_all(
    alloc: Global,
    known: &Index,
    asked: &[Numbered],
) -> Result<Vec<Numbered>, AllocError>
    ensures { IfOk result (λ found. found.items ≡ map (spec.settled_by (has_in known.now)) asked.now) }
{
    let mut found = Vec::new(alloc);
    'asked: for argument in asked {
        found.push(settled_by(known, *argument))?;
    }
    Ok(found)
}

/// The arguments, each with the kind that all elements take it as. `specific` are those that are more than objects.
pub(crate) fn settled(
    alloc: Global,
    specific: &[Numbered],
    asked: &[Numbered],
) -> Result<Vec<Numbered>, AllocError>
    requires { specific.now ≡ spec.specific_arguments asked.now }
    ensures { IfOk result (λ found. found.items ≡ spec.settled_kinds asked.now) }
{
    let known = Index::of(alloc, specific)?;
    settled_all(alloc, &known, asked)
}
