//! When the arguments of a translation agree with those of its original.
ghost use Rattle.std.specs.Prelude.{◌≡◌, IfOk};
ghost use Rattle.numbered_arguments.specs.NumberedArguments as arguments;
ghost use Rattle.script_formats.specs.ScriptAgreement as spec;
ghost use Rattle.script_formats.specs.ScriptKinds as kinds;

use crate::Notation;
use crate::kinds::settled;
use numbered_arguments::{Numbered, Strictness};
use std::alloc::{AllocError, Global};

fn boost_agrees(
    alloc: Global,
    original: &[Numbered],
    translation: &[Numbered],
    rule: Strictness,
) -> Result<bool, AllocError>
    ensures { IfOk result (λ agree. agree
        ≡ arguments.agree (kinds.settled_arguments original.now) (kinds.settled_arguments translation.now) rule) }
{
    let original = settled(alloc, original)?;
    let translation = settled(alloc, translation)?;
    numbered_arguments::agrees(alloc, &original, &translation, rule)
}

/// Whether the arguments of a translation agree with those of its original, as strictly as `rule` asks; Lua's are
/// compared strictly always. It takes n log n steps for n arguments. The only error is a failed allocation.
pub fn agrees(
    alloc: Global,
    notation: Notation,
    original: &[Numbered],
    translation: &[Numbered],
    rule: Strictness,
) -> Result<bool, AllocError>
    ensures { IfOk result (λ agree. agree ≡ spec.agree notation original.now translation.now rule) }
{
    match notation {
        Notation::Lua => {
            numbered_arguments::agrees(alloc, original, translation, Strictness::Same)
        }
        Notation::Boost => boost_agrees(alloc, original, translation, rule),
        _ => numbered_arguments::agrees(alloc, original, translation, rule),
    }
}
