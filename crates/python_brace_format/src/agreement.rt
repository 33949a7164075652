//! When the arguments of a translation agree with those of its original.
ghost use Rattle.std.specs.Prelude.{◌≡◌, IfOk, map};
ghost use Rattle.format_arguments.specs.ArgumentViews.{argument_view};
ghost use Rattle.python_brace_format.specs.BraceAgreement.{agree};

use format_arguments::{Argument, Strictness};
use std::alloc::{AllocError, Global};

/// Whether the arguments of a translation agree with those of its original, as strictly as `rule` asks: the names are
/// the same, or, leniently, any. The only error is a failed allocation.
pub fn agrees<'a>(
    alloc: Global,
    original: &[Argument<'a>],
    translation: &[Argument<'a>],
    rule: Strictness,
) -> Result<bool, AllocError>
    ensures { IfOk result (λ agrees. agrees
        ≡ agree (map argument_view original.now) (map argument_view translation.now) rule) }
{
    match rule {
        Strictness::Same => format_arguments::agrees(
            alloc,
            original,
            translation,
            Strictness::Same,
        ),
        Strictness::Lenient => Ok(true),
    }
}
