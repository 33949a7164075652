//! When the arguments of a translation agree with those of its original.
ghost use Rattle.std.specs.Prelude.{◌≡◌, IfOk};
ghost use Rattle.gfc_internal_format.specs.GfcFormat as spec;

use format_arguments::Strictness;
use numbered_arguments::Numbered;
use std::alloc::{AllocError, Global};

/// Whether a format prints the current locus.
fn prints_current_locus(asked: &[Numbered]) -> bool
    ensures { result ≡ spec.prints_current_locus asked.now }
{
    asked.iter().any(|argument| argument.number == 0)
}

fn both_or_neither(one: bool, other: bool) -> bool
    ensures { result ≡ spec.both_or_neither one other }
{
    one == other
}

/// Whether the arguments of a translation agree with those of its original, as strictly as `rule` asks: their numbers
/// and kinds are the same, or, leniently, some are left out; and both print the current locus, or none does. It takes
/// n log n steps for n arguments. The only error is a failed allocation.
pub fn agrees(
    alloc: Global,
    original: &[Numbered],
    translation: &[Numbered],
    rule: Strictness,
) -> Result<bool, AllocError>
    ensures { IfOk result (λ agree. agree ≡ spec.agree original.now translation.now rule) }
{
    let agree = numbered_arguments::agrees(alloc, original, translation, rule)?;
    let current = both_or_neither(
        prints_current_locus(original),
        prints_current_locus(translation),
    );
    Ok(agree && current)
}
