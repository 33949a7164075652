//! The arguments that a list of references asks for.
ghost use Rattle.std.specs.Prelude.{◌≡◌, ◌++◌, ◌&&◌, None, [], IfOk, OnOk, map, option_map};
ghost use Rattle.format_arguments.specs.Arguments as format_arguments;
ghost use Rattle.format_arguments.specs.ArgumentViews.{argument_view};
ghost use Rattle.ruby_format.specs.RubyFormat as spec;
ghost use Rattle.ruby_format.specs.RubyScanning.{reference_view, way_view};

use crate::directives::Reference;
use crate::parts::Way;
use format_arguments::{Argument, Kind, is_consistent, same_kind};
use std::alloc::{AllocError, Global};
use std::collections::BTreeMap;

fn same_way(one: Way<'_>, other: Way<'_>) -> bool
    ensures { result ≡ spec.same_way (way_view one.entry) (way_view other.entry) }
{
    matches!(
        (one, other),
        (Way::Next, Way::Next) | (Way::Number(_), Way::Number(_)) | (Way::Name(_), Way::Name(_))
    )
}

fn suits(asked: Option<Way<'_>>, way: Way<'_>) -> bool
    ensures { result ≡ spec.suits (option_map way_view asked.entry) (way_view way.entry) }
{
    match asked {
        Some(asked) => same_way(asked, way),
        None => true,
    }
}

/// Whether each reference is by the way of what is asked for before it.
fn are_one_way(references: &[Reference<'_>]) -> bool
    ensures { result ≡ spec.are_one_way None (map reference_view references.now) }
{
    let mut asked = None;
    'references: for reference in references {
        if !suits(asked, reference.to) {
            return false;
        }
        if reference.kind.is_some() {
            asked = Some(reference.to);
        }
    }
    true
}

/// Puts the kind of an argument that is asked for by its number at its place.
fn put(kinds: &mut BTreeMap<u32, Kind>, reference: Reference<'_>) -> Result<(), AllocError>
    ensures { OnOk result (kinds.new.entries
        ≡ spec.kinds_with kinds.old.entries (reference_view reference.entry)) }
{
    if let (Way::Number(number), Some(kind)) = (reference.to, reference.kind) {
        kinds.insert(number, kind)?;
    }
    Ok(())
}

/// The numbers that are asked for, each with its kind.
pub(crate) fn by_number(
    alloc: Global,
    references: &[Reference<'_>],
) -> Result<BTreeMap<u32, Kind>, AllocError>
    ensures { IfOk result (λ kinds. kinds.entries ≡ spec.by_number (map reference_view references.now)) }
{
    let mut kinds = BTreeMap::new(alloc);
    'references: for reference in references {
        put(&mut kinds, *reference)?;
    }
    Ok(kinds)
}

fn kind_fits(kinds: &BTreeMap<u32, Kind>, reference: Reference<'_>) -> bool
    ensures { result ≡ spec.kind_fits kinds.now.entries (way_view reference.entry.to) reference.entry.kind }
{
    let (Way::Number(number), Some(kind)) = (reference.to, reference.kind) else {
        return true
    };
    match kinds.get(&number) {
        Some(found) => same_kind(*found, kind),
        None => false,
    }
}

/// Whether each argument is of the kind that its number has here.
fn kinds_fit(kinds: &BTreeMap<u32, Kind>, references: &[Reference<'_>]) -> bool
    ensures { result ≡ spec.kinds_fit kinds.now.entries (map reference_view references.now) }
{
    references
        .iter()
        .all(|reference| kind_fits(kinds, *reference))
}

/// The argument that is asked for by its name, or as the next one.
fn other_asked(reference: Reference<'_>) -> Option<Argument<'_>>
    ensures { option_map argument_view result
        ≡ spec.other_asked (way_view reference.entry.to) reference.entry.kind }
{
    let kind = reference.kind?;
    match reference.to {
        Way::Next => Some(Argument { name: None, kind }),
        Way::Name(name) => Some(Argument {
            name: Some(name),
            kind,
        }),
        Way::Number(_) => None,
    }
}

fn add_asked<'a>(
    asked: &mut Vec<Argument<'a>>,
    argument: Option<Argument<'a>>,
) -> Result<(), AllocError>
    ensures { OnOk result (map argument_view asked.new.items
        ≡ map argument_view asked.old.items ++ spec.list_of (option_map argument_view argument.entry)) }
{
    if let Some(argument) = argument {
        asked.push(argument)?;
    }
    Ok(())
}

/// The arguments with numbers, by their rank.
fn numbered<'a>(alloc: Global, kinds: &BTreeMap<u32, Kind>) -> Result<Vec<Argument<'a>>, AllocError>
    ensures { IfOk result (λ asked. map argument_view asked.items
        ≡ map (λ entry. spec.argument None entry.1) kinds.now.entries) }
{
    let mut asked = Vec::new(alloc);
    'kinds: for kind in kinds.values() {
        asked.push(Argument {
            name: None,
            kind: *kind,
        })?;
    }
    Ok(asked)
}

/// The arguments: those with numbers by their rank, and the others in the order of the text.
pub(crate) fn arguments<'a>(
    alloc: Global,
    kinds: &BTreeMap<u32, Kind>,
    references: &[Reference<'a>],
) -> Result<Vec<Argument<'a>>, AllocError>
    ensures { IfOk result (λ asked. map argument_view asked.items
        ≡ map (λ entry. spec.argument None entry.1) kinds.now.entries
        ++ spec.others (map reference_view references.now)) }
{
    let mut asked = numbered(alloc, kinds)?;
    'references: for reference in references {
        add_asked(&mut asked, other_asked(*reference))?;
    }
    Ok(asked)
}

/// Whether one way leads to all arguments, and each number and each name has one kind.
pub(crate) fn fits<'a>(
    alloc: Global,
    references: &[Reference<'a>],
    kinds: &BTreeMap<u32, Kind>,
    asked: &[Argument<'a>],
) -> Result<bool, AllocError>
    ensures { IfOk result (λ fits. fits ≡ (spec.are_one_way None (map reference_view references.now)
        && spec.kinds_fit kinds.now.entries (map reference_view references.now)
        && format_arguments.is_consistent (map argument_view asked.now))) }
{
    let consistent = is_consistent(alloc, asked)?;
    Ok(are_one_way(references) && kinds_fit(kinds, references) && consistent)
}
