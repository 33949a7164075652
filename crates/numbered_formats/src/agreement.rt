//! When the arguments of a translation agree with those of its original.
ghost use Rattle.std.specs.Prelude.{◌≡◌, IfOk, option_map};
ghost use Rattle.numbered_formats.specs.NumberAgreement as spec;

use crate::Notation;
use format_arguments::Strictness;
use numbered_arguments::{Index, Kind, Numbered, same_kind};
use std::alloc::{AllocError, Global};

/// The first that isn't among the others.
fn first_left_out<'a>(ones: &'a [Numbered], others: &Index) -> Option<&'a Numbered>
    ensures { option_map (λ one. one.now) result ≡ spec.first_missing_in others.now ones.now }
{
    ones.iter().find(|one| !others.has(**one))
}

/// Whether all that isn't among the others has this number.
fn leaves_out_only(ones: &[Numbered], others: &Index, number: u32) -> bool
    ensures { result ≡ spec.misses_only_in others.now ones.now number }
{
    ones.iter()
        .all(|one| others.has(*one) || one.number == number)
}

/// Whether all that isn't among the others has one number.
fn leaves_out_one(ones: &[Numbered], others: &Index) -> bool
    ensures { result ≡ spec.misses_one_in others.now ones.now }
{
    match first_left_out(ones, others) {
        Some(first) => leaves_out_only(ones, others, first.number),
        None => true,
    }
}

fn all_in(ones: &[Numbered], others: &Index) -> bool
    ensures { result ≡ spec.all_in others.now ones.now }
{
    ones.iter().all(|one| others.has(*one))
}

/// Whether the translation leaves out one number at most, and adds none.
fn kde_agree_by(
    original: &[Numbered],
    translation: &[Numbered],
    there: &Index,
    back: &Index,
) -> bool
    ensures { result ≡ spec.kde_by there.now back.now original.now translation.now }
{
    all_in(translation, there) && leaves_out_one(original, back)
}

fn kde_agrees_leniently(
    alloc: Global,
    original: &[Numbered],
    translation: &[Numbered],
) -> Result<bool, AllocError>
    ensures { IfOk result (λ agree. agree ≡ spec.kde_leniently original.now translation.now) }
{
    let there = Index::of(alloc, original)?;
    let back = Index::of(alloc, translation)?;
    Ok(kde_agree_by(original, translation, &there, &back))
}

/// Whether the argument is there, of either kind.
fn has_number(index: &Index, argument: Numbered) -> bool
    ensures { result ≡ spec.has_number_in index.now argument }
{
    index.has(Numbered {
        number: argument.number,
        kind: Kind::Text,
    }) || index.has(Numbered {
        number: argument.number,
        kind: Kind::Any,
    })
}

fn numbers_in(ones: &[Numbered], others: &Index) -> bool
    ensures { result ≡ spec.numbers_in others.now ones.now }
{
    ones.iter().all(|one| has_number(others, *one))
}

fn is_simple(asked: &[Numbered]) -> bool
    ensures { result ≡ spec.is_simple asked.now }
{
    asked
        .iter()
        .all(|argument| same_kind(argument.kind, Kind::Text))
}

/// Whether the numbers are the same, and a simple original has a simple translation.
fn qt_agree_by(original: &[Numbered], translation: &[Numbered], there: &Index, back: &Index) -> bool
    ensures { result ≡ spec.qt_by there.now back.now original.now translation.now }
{
    numbers_in(original, back)
        && numbers_in(translation, there)
        && (!is_simple(original) || is_simple(translation))
}

fn qt_agrees(
    alloc: Global,
    original: &[Numbered],
    translation: &[Numbered],
) -> Result<bool, AllocError>
    ensures { IfOk result (λ agree. agree ≡ spec.qt original.now translation.now) }
{
    let there = Index::of(alloc, original)?;
    let back = Index::of(alloc, translation)?;
    Ok(qt_agree_by(original, translation, &there, &back))
}

/// Whether the arguments of a translation agree with those of its original, as strictly as `rule` asks. It takes
/// n log n steps for n arguments. The only error is a failed allocation.
pub fn agrees(
    alloc: Global,
    notation: Notation,
    original: &[Numbered],
    translation: &[Numbered],
    rule: Strictness,
) -> Result<bool, AllocError>
    ensures { IfOk result (λ agree. agree ≡ spec.agree notation original.now translation.now rule) }
{
    match (notation, rule) {
        (Notation::Qt, _) => qt_agrees(alloc, original, translation),
        (Notation::Kde, Strictness::Lenient) => {
            kde_agrees_leniently(alloc, original, translation)
        }
        _ => numbered_arguments::agrees(alloc, original, translation, rule),
    }
}
