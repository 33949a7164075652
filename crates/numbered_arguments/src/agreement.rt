//! Whether arguments are consistent, and whether those of a translation agree with those of its original.
ghost use Rattle.std.specs.Prelude.{◌≡◌, ℕ, IfOk, List, Some, true};
ghost use Rattle.std.specs.List.{list_all};
ghost use Rattle.format_arguments.specs.declared.Strictness.TheVariants.{Same, Lenient};
ghost use Rattle.numbered_arguments.specs.declared.Kind.{Kind as KindValue};
ghost use Rattle.numbered_arguments.specs.declared.Numbered.{Numbered as Value};
ghost use Rattle.numbered_arguments.specs.NumberedArguments as spec;
ghost use Rattle.numbered_arguments.specs.NumberedKinds.{kinds_fit};
ghost use Rattle.numbered_arguments.specs.NumberedIndex.{fits_by, has_in};

use crate::Numbered;
use crate::index::Index;
use format_arguments::Strictness;
use std::alloc::{AllocError, Global};

fn all_in(ones: &[Numbered], others: &Index) -> bool
    ensures { result ≡ list_all (has_in others.now) ones.now }
{
    'ones: for one in ones {
        if !others.has(*one) {
            return false;
        }
    }
    true
}

/// Whether each of the ones is asked for by the others too, of the same kind.
fn covered(alloc: Global, ones: &[Numbered], others: &[Numbered]) -> Result<bool, AllocError>
    ensures { IfOk result (λ are. are ≡ spec.are_covered ones.now others.now) }
{
    let index = Index::of(alloc, others)?;
    Ok(all_in(ones, &index))
}

fn all_fit(ones: &[Numbered], others: &Index) -> bool
    ensures { result ≡ list_all (fits_by others.now) ones.now }
{
    ones.iter().all(|one| others.fits(*one))
}

/// Whether each of the translation's is asked for by the original too, and one object can be what both ask for.
fn agrees_leniently(
    alloc: Global,
    original: &[Numbered],
    translation: &[Numbered],
) -> Result<bool, AllocError>
    ensures { IfOk result (λ agree. agree ≡ spec.agree original.now translation.now Lenient) }
{
    let index = Index::of(alloc, original)?;
    Ok(all_fit(translation, &index))
}

/// Whether each number has one kind. The only error is a failed allocation.
pub fn is_consistent(alloc: Global, asked: &[Numbered]) -> Result<bool, AllocError>
    ensures { IfOk result (λ is. is ≡ spec.is_consistent asked.now) }
{
    covered(alloc, asked, asked)
}

fn agrees_strictly(
    alloc: Global,
    original: &[Numbered],
    translation: &[Numbered],
) -> Result<bool, AllocError>
    ensures { IfOk result (λ agree. agree ≡ spec.agree original.now translation.now Same) }
{
    let there = covered(alloc, original, translation)?;
    let back = covered(alloc, translation, original)?;
    Ok(there && back)
}

/// Whether the arguments of a translation agree with those of its original, as strictly as `rule` asks: their numbers
/// and kinds are the same, or, leniently, some are left out, and `Any` stands for every kind. It takes n log n steps
/// for n arguments. The only error is a failed allocation.
pub fn agrees(
    alloc: Global,
    original: &[Numbered],
    translation: &[Numbered],
    rule: Strictness,
) -> Result<bool, AllocError>
    ensures { IfOk result (λ agree. agree ≡ spec.agree original.now translation.now rule) }
{
    match rule {
        Strictness::Same => agrees_strictly(alloc, original, translation),
        Strictness::Lenient => agrees_leniently(alloc, original, translation),
    }
}

/// A law, without code: where arguments agree strictly, each number has one kind in both; leniently, each number of the
/// translation has a kind in the original that fits its own.
pub fn same_kinds()
    ensures strict { (original translation : List Value) → spec.agree original translation Same ≡ true →
        (number : ℕ) → spec.kind_at number original ≡ spec.kind_at number translation }
    ensures lenient { (original translation : List Value) → spec.agree original translation Lenient ≡ true →
        (number : ℕ) (kind : KindValue) → spec.kind_at number translation ≡ Some kind →
        (other : KindValue) × (spec.kind_at number original ≡ Some other) × (kinds_fit other kind ≡ true) }
{}
