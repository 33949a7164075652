//! When the arguments of a translation agree with those of its original.
ghost use Rattle.std.specs.Prelude.{◌≡◌, IfOk};
ghost use Rattle.gcc_internal_format.specs.GccFormat as spec;

use format_arguments::Strictness;
use numbered_arguments::Numbered;
use std::alloc::{AllocError, Global};

/// Whether a format prints the text of the error number.
fn prints_error(asked: &[Numbered]) -> bool
    ensures { result ≡ spec.prints_error asked.now }
{
    asked.iter().any(|argument| argument.number == 0)
}

/// Whether both are true, or neither.
fn same(one: bool, other: bool) -> bool
    ensures { result ≡ spec.are_same one other }
{
    one == other
}

/// Whether the arguments of a translation agree with those of its original, as strictly as `rule` asks: their numbers
/// and kinds are the same, or, leniently, some are left out; and both print the text of the error number, or none does.
/// It takes n log n steps for n arguments. The only error is a failed allocation.
pub fn agrees(
    alloc: Global,
    original: &[Numbered],
    translation: &[Numbered],
    rule: Strictness,
) -> Result<bool, AllocError>
    ensures { IfOk result (λ agree. agree ≡ spec.agree original.now translation.now rule) }
{
    let agree = numbered_arguments::agrees(alloc, original, translation, rule)?;
    Ok(agree && same(prints_error(original), prints_error(translation)))
}
