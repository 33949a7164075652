//! When the arguments of a translation agree with those of its original.
ghost use Rattle.std.specs.Prelude.{◌≡◌, ◌↔◌, List, true};
ghost use Rattle.format_arguments.specs.declared.Strictness.TheVariants.{Same, Lenient};
ghost use Rattle.lisp_formats.specs.declared.Kind.{Kind as KindValue};
ghost use Rattle.lisp_formats.specs.LispAgreement as spec;

use crate::Kind;
use format_arguments::Strictness;

fn same_kind(one: Kind, other: Kind) -> bool
    ensures { result ≡ spec.same_kind one other }
{
    matches!(
        (one, other),
        (Kind::Any, Kind::Any)
            | (Kind::Character, Kind::Character)
            | (Kind::OptionalCharacter, Kind::OptionalCharacter)
            | (Kind::Integer, Kind::Integer)
            | (Kind::OptionalInteger, Kind::OptionalInteger)
            | (Kind::Real, Kind::Real)
            | (Kind::Complex, Kind::Complex)
            | (Kind::Nil, Kind::Nil)
    )
}

/// Whether each object of one kind is also of another one.
fn is_within(kind: Kind, other: Kind) -> bool
    ensures { result ≡ spec.is_within kind other }
{
    match other {
        Kind::Any => true,
        Kind::OptionalCharacter => {
            matches!(kind, Kind::OptionalCharacter | Kind::Character | Kind::Nil)
        }
        Kind::OptionalInteger => {
            matches!(kind, Kind::OptionalInteger | Kind::Integer | Kind::Nil)
        }
        Kind::Real => matches!(kind, Kind::Real | Kind::Integer),
        Kind::Complex => matches!(kind, Kind::Complex | Kind::Real | Kind::Integer),
        _ => same_kind(kind, other),
    }
}

/// Whether they are the same.
fn are_same(original: &[Kind], translation: &[Kind]) -> bool
    ensures { result ≡ spec.agree original.now translation.now Same }
{
    original.len() == translation.len()
        && original
            .iter()
            .zip(translation.iter())
            .all(|(one, other)| same_kind(*one, *other))
}

/// Whether each of the original's is also one of the translation's, whose kind is within its own.
fn are_within(original: &[Kind], translation: &[Kind]) -> bool
    ensures { result ≡ spec.agree original.now translation.now Lenient }
{
    original.len() <= translation.len()
        && original
            .iter()
            .zip(translation.iter())
            .all(|(one, other)| is_within(*other, *one))
}

/// Whether the arguments of a translation agree with those of its original, as strictly as `rule` asks: they are of
/// the same kinds, or, leniently, each of the original's is also one of the translation's, whose kind may be narrower;
/// the translation may ask for more.
pub fn agrees(original: &[Kind], translation: &[Kind], rule: Strictness) -> bool
    ensures { result ≡ spec.agree original.now translation.now rule }
{
    match rule {
        Strictness::Same => are_same(original, translation),
        Strictness::Lenient => are_within(original, translation),
    }
}

/// A law, without code: arguments agree strictly exactly if they are the same.
pub fn same_lists()
    ensures { (original translation : List KindValue) →
        (spec.agree original translation Same ≡ true) ↔ (original ≡ translation) }
{}
