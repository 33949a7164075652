//! Whether the arguments of a translation agree with those of its original.
ghost use Rattle.std.specs.Prelude.{◌↔◌, IsTrue};
ghost use Rattle.c_macros.specs.MacroAgreement.{Agrees};

use crate::Kind;
use c_signature::Strictness;

/// Whether the arguments of a form agree with those of the original, as strictly as `rule` asks.
pub fn agrees(original: &[Kind], form: &[Kind], rule: Strictness) -> bool
    ensures { IsTrue result ↔ Agrees original.now form.now rule }
{
    match rule {
        Strictness::Same => original == form,
        Strictness::Prefix => original.starts_with(form),
    }
}
