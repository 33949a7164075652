//! When the arguments of a translation agree with those of its original.
ghost use Rattle.std.specs.Prelude.{◌≡◌, IfOk, map};
ghost use Rattle.format_arguments.specs.ArgumentViews.{argument_view};
ghost use Rattle.named_formats.specs.NameFormat.{agree};

use crate::Notation;
use format_arguments::{Argument, Strictness};
use std::alloc::{AllocError, Global};

/// Whether the arguments of a translation agree with those of its original, as strictly as `rule` asks. The only error
/// is a failed allocation.
pub fn agrees<'a>(
    alloc: Global,
    notation: Notation,
    original: &[Argument<'a>],
    translation: &[Argument<'a>],
    rule: Strictness,
) -> Result<bool, AllocError>
    ensures { IfOk result (λ agrees. agrees
        ≡ agree notation (map argument_view original.now) (map argument_view translation.now) rule) }
{
    match notation {
        Notation::PerlBrace => match rule {
            Strictness::Same => {
                format_arguments::agrees(alloc, translation, original, Strictness::Lenient)
            }
            Strictness::Lenient => Ok(true),
        },
        Notation::Shell => format_arguments::agrees(alloc, original, translation, rule),
    }
}
