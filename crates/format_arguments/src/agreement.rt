//! Whether arguments are consistent, and whether those of a translation agree with those of its original.
ghost use Rattle.std.specs.Prelude.{◌≡◌, ◌||◌, ◌&&◌, ◌⊎◌, ℕ, Contains, IfOk, List, Some, true, map};
ghost use Rattle.format_arguments.specs.declared.Kind.{Kind as KindValue};
ghost use Rattle.format_arguments.specs.declared.Strictness.TheVariants.{Same, Lenient};
ghost use Rattle.format_arguments.specs.declared.Kind.TheVariants.{Any};
ghost use Rattle.format_arguments.specs.Arguments.{Argument as Asked};
ghost use Rattle.std.specs.List.{list_all, list_any};
ghost use Rattle.format_arguments.specs.Arguments as spec;
ghost use Rattle.format_arguments.specs.Indexing as indexing;
ghost use Rattle.format_arguments.specs.ArgumentViews.{argument_view};

use crate::index::Index;
use crate::kinds::{kinds_fit, same_kind};
use crate::{Argument, Kind, Strictness};
use std::alloc::{AllocError, Global};

/// Whether each kind that others ask for by the same name is one that the same object can be.
fn compatible_in<'a>(one: Argument<'a>, others: &Index<'a>) -> bool
    ensures { result ≡ indexing.compatible_in (argument_view one.entry) others.now }
{
    let Some(name) = one.name else { return true };
    match others.kinds_by(name) {
        Some(kinds) => kinds.fit(one.kind),
        None => true,
    }
}

fn all_compatible_in<'a>(ones: &[Argument<'a>], others: &Index<'a>) -> bool
    ensures { result ≡ list_all (λ one. indexing.compatible_in one others.now) (map argument_view ones.now) }
{
    'ones: for one in ones {
        if !compatible_in(*one, others) {
            return false;
        }
    }
    true
}

/// Whether one of the others stands for this one.
fn has_stand_in<'a>(one: Argument<'a>, others: &Index<'a>) -> bool
    ensures { result ≡ indexing.has_stand_in (argument_view one.entry) others.now }
{
    let Some(name) = one.name else { return false };
    match others.kinds_by(name) {
        Some(kinds) => kinds.stand_for(one.kind),
        None => false,
    }
}

fn all_have_stand_ins<'a>(ones: &[Argument<'a>], others: &Index<'a>) -> bool
    ensures { result ≡ list_all (λ one. indexing.has_stand_in one others.now) (map argument_view ones.now) }
{
    'ones: for one in ones {
        if !has_stand_in(*one, others) {
            return false;
        }
    }
    true
}

fn has_name<'a>(one: Argument<'a>, others: &Index<'a>) -> bool
    ensures { result ≡ indexing.has_name (argument_view one.entry) others.now }
{
    let Some(name) = one.name else { return false };
    others.kinds_by(name).is_some()
}

fn all_have_names<'a>(ones: &[Argument<'a>], others: &Index<'a>) -> bool
    ensures { result ≡ list_all (λ one. indexing.has_name one others.now) (map argument_view ones.now) }
{
    'ones: for one in ones {
        if !has_name(*one, others) {
            return false;
        }
    }
    true
}

fn all_agree_leniently<'a>(ones: &[Argument<'a>], others: &Index<'a>) -> bool
    ensures { result ≡ (list_all (λ one. indexing.has_name one others.now) (map argument_view ones.now)
        && list_all (λ one. indexing.compatible_in one others.now) (map argument_view ones.now)) }
{
    all_have_names(ones, others) && all_compatible_in(ones, others)
}

fn all_named(asked: &[Argument<'_>]) -> bool
    ensures { result ≡ list_all spec.is_named (map argument_view asked.now) }
{
    asked.iter().all(|argument| argument.name.is_some())
}

fn all_unnamed(asked: &[Argument<'_>]) -> bool
    ensures { result ≡ list_all spec.is_unnamed (map argument_view asked.now) }
{
    asked.iter().all(|argument| argument.name.is_none())
}

fn any_named(asked: &[Argument<'_>]) -> bool
    ensures { result ≡ list_any spec.is_named (map argument_view asked.now) }
{
    asked.iter().any(|argument| argument.name.is_some())
}

fn all_or_none_named(asked: &[Argument<'_>]) -> bool
    ensures { result ≡ (list_all spec.is_named (map argument_view asked.now)
        || list_all spec.is_unnamed (map argument_view asked.now)) }
{
    all_named(asked) || all_unnamed(asked)
}

/// Whether all arguments have names or none has, and what is asked for by one name can be one object. The only error is
/// a failed allocation.
pub fn is_consistent(alloc: Global, asked: &[Argument<'_>]) -> Result<bool, AllocError>
    ensures { IfOk result (λ is. is ≡ spec.is_consistent (map argument_view asked.now)) }
{
    if !all_or_none_named(asked) {
        return Ok(false);
    }
    let index = Index::of(alloc, asked)?;
    Ok(all_compatible_in(asked, &index))
}

/// Whether each of the ones has another that stands for it.
fn covered<'a>(
    alloc: Global,
    ones: &[Argument<'a>],
    others: &[Argument<'a>],
) -> Result<bool, AllocError>
    ensures { IfOk result (λ are. are ≡ spec.are_covered (map argument_view ones.now) (map argument_view others.now)) }
{
    let index = Index::of(alloc, others)?;
    Ok(all_have_stand_ins(ones, &index))
}

fn named_same<'a>(
    alloc: Global,
    original: &[Argument<'a>],
    translation: &[Argument<'a>],
) -> Result<bool, AllocError>
    ensures { IfOk result (λ agree. agree
        ≡ spec.named_agree (map argument_view original.now) (map argument_view translation.now) Same) }
{
    let there = covered(alloc, original, translation)?;
    let back = covered(alloc, translation, original)?;
    Ok(there && back)
}

fn named_leniently<'a>(
    alloc: Global,
    original: &[Argument<'a>],
    translation: &[Argument<'a>],
) -> Result<bool, AllocError>
    ensures { IfOk result (λ agree. agree
        ≡ spec.named_agree (map argument_view original.now) (map argument_view translation.now) Lenient) }
{
    let index = Index::of(alloc, original)?;
    Ok(all_agree_leniently(translation, &index))
}

fn named_agree<'a>(
    alloc: Global,
    original: &[Argument<'a>],
    translation: &[Argument<'a>],
    rule: Strictness,
) -> Result<bool, AllocError>
    ensures { IfOk result (λ agree. agree
        ≡ spec.named_agree (map argument_view original.now) (map argument_view translation.now) rule) }
{
    match rule {
        Strictness::Same => named_same(alloc, original, translation),
        Strictness::Lenient => named_leniently(alloc, original, translation),
    }
}

fn kinds_agree(rule: Strictness, one: Kind, other: Kind) -> bool
    ensures { result ≡ spec.kinds_agree rule one other }
{
    match rule {
        Strictness::Same => same_kind(one, other),
        Strictness::Lenient => kinds_fit(one, other),
    }
}

fn unnamed_agree(original: &[Argument<'_>], translation: &[Argument<'_>], rule: Strictness) -> bool
    ensures { result ≡ spec.unnamed_agree (map argument_view original.now) (map argument_view translation.now) rule }
{
    original.len() == translation.len()
        && original
            .iter()
            .zip(translation.iter())
            .all(|(one, other)| kinds_agree(rule, one.kind, other.kind))
}

/// Whether the arguments of a translation agree with those of its original, as strictly as `rule` asks. It takes
/// n log n steps for n arguments. The only error is a failed allocation.
pub fn agrees<'a>(
    alloc: Global,
    original: &[Argument<'a>],
    translation: &[Argument<'a>],
    rule: Strictness,
) -> Result<bool, AllocError>
    ensures { IfOk result (λ agree. agree
        ≡ spec.agree (map argument_view original.now) (map argument_view translation.now) rule) }
{
    if any_named(original) || any_named(translation) {
        named_agree(alloc, original, translation, rule)
    } else {
        Ok(unnamed_agree(original, translation, rule))
    }
}

/// A law, without code: arguments with names that agree strictly are of the same kinds, name by name.
pub fn strict_kinds()
    ensures { (original translation : List Asked) →
        spec.named_agree original translation Same ≡ true → (name : List ℕ) (kind : KindValue) →
        (spec.HasKind original name kind → spec.HasKind translation name kind)
        × (spec.HasKind translation name kind → spec.HasKind original name kind) }
{}

/// A law, without code: where arguments with names agree leniently, each name of the translation is one of the
/// original's, and of a kind that is the original's, unless one of the two is `Any`.
pub fn lenient_kinds()
    ensures names { (original translation : List Asked) →
        spec.named_agree original translation Lenient ≡ true → (name : List ℕ) (kind : KindValue) →
        spec.HasKind translation name kind →
        (a : Asked) × Contains original a × (a.name ≡ Some name) }
    ensures kinds { (original translation : List Asked) →
        spec.named_agree original translation Lenient ≡ true → (name : List ℕ) (kind other : KindValue) →
        spec.HasKind translation name kind → spec.HasKind original name other →
        (kind ≡ Any) ⊎ ((other ≡ Any) ⊎ (kind ≡ other)) }
{}
