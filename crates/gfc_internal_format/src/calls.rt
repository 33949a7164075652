//! The arguments that a call passes: what the directives ask for, in the order of its numbers.
ghost use Rattle.std.specs.Prelude.{◌≡◌, ℕ, false, true, IfOk, MatchOption};
ghost use Rattle.std.specs.List.{list_all};
ghost use Rattle.std.specs.BTreeMap.{get};
ghost use Rattle.std.specs.Ordering.{nat_cmp};
ghost use Rattle.numbered_arguments.specs.NumberedArguments.{kind_at};
ghost use Rattle.gfc_internal_format.specs.GfcArguments as spec;

use crate::operands::{Operand, stand_in};
use numbered_arguments::{Kind, Numbered, is_consistent, same_kind};
use std::alloc::{AllocError, Global};
use std::collections::BTreeMap;

/// The kind of the last of each number.
fn kinds_by_number(alloc: Global, asked: &[Numbered]) -> Result<BTreeMap<u32, Kind>, AllocError>
    ensures { IfOk result (λ kinds. (number : ℕ) → get nat_cmp kinds number ≡ kind_at number asked.now) }
{
    let mut kinds = BTreeMap::new(alloc);
    'asked: for argument in asked {
        kinds.insert(argument.number, argument.kind)?;
    }
    Ok(kinds)
}

/// The kinds in the order of their numbers, up to the first number that isn't asked for.
fn kinds_in_order(alloc: Global, asked: &[Numbered]) -> Result<Vec<Kind>, AllocError>
    ensures { IfOk result (λ kinds. kinds.items ≡ spec.kinds_of asked.now) }
{
    let found = kinds_by_number(alloc, asked)?;
    let mut kinds = Vec::new(alloc);
    let mut number: u32 = 1;
    'asked: for _argument in asked {
        let Some(kind) = found.get(&number) else {
            return Ok(kinds)
        };
        kinds.push(*kind)?;
        number = number.wrapping_add(1);
    }
    Ok(kinds)
}

/// Whether a number is one of those in order.
fn is_among(kinds: &[Kind], argument: Numbered) -> bool
    ensures { result ≡ spec.is_among kinds.now argument }
{
    argument.number > 0 && argument.number as usize <= kinds.len()
}

fn are_among(kinds: &[Kind], asked: &[Numbered]) -> bool
    ensures { result ≡ list_all (spec.is_among kinds.now) asked.now }
{
    asked.iter().all(|argument| is_among(kinds, *argument))
}

fn is_current(kind: Kind) -> bool
    ensures { result ≡ spec.is_current kind }
{
    same_kind(kind, stand_in(Operand::CurrentLocus))
}

/// The argument of this kind: number 0, or the next one.
fn argument(next: u32, kind: Kind) -> Numbered
    ensures { result ≡ spec.argument next kind }
{
    Numbered {
        number: if is_current(kind) { 0 } else { next },
        kind,
    }
}

fn next_argument(next: u32, kind: Kind) -> u32
    ensures { result ≡ spec.next_argument next kind }
{
    if is_current(kind) {
        next
    } else {
        next.wrapping_add(1)
    }
}

/// The arguments of these kinds.
fn arguments(alloc: Global, kinds: &[Kind]) -> Result<Vec<Numbered>, AllocError>
    ensures { IfOk result (λ found. found.items ≡ spec.arguments_from 1 kinds.now) }
{
    let mut found = Vec::new(alloc);
    let mut next: u32 = 1;
    'kinds: for kind in kinds {
        found.push(argument(next, *kind))?;
        next = next_argument(next, *kind);
    }
    Ok(found)
}

/// The arguments that a call passes, if what is asked for is a list: each number has one kind, and none is left out.
/// The current locus, which no call passes, has number 0. The only error is a failed allocation.
pub(crate) fn call(alloc: Global, asked: &[Numbered]) -> Result<Option<Vec<Numbered>>, AllocError>
    ensures { IfOk result (λ found. MatchOption found (spec.is_list asked.now ≡ false)
        (λ passed. (passed.items ≡ spec.arguments asked.now) × (spec.is_list asked.now ≡ true))) }
{
    let kinds = kinds_in_order(alloc, asked)?;
    let consistent = is_consistent(alloc, asked)?;
    if !(consistent && are_among(&kinds, asked)) {
        return Ok(None);
    }
    let passed = arguments(alloc, &kinds)?;
    Ok(Some(passed))
}
