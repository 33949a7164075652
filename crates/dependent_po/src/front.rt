//! The refusals that have nothing to do with formats.
ghost use Rattle.std.specs.Prelude.{◌≡◌, ◌↔◌, ◌⊎◌, IsTrue, IfErr, OnOk};
ghost use Rattle.po_checks.specs.Refusal.{out_of_memory};
ghost use Rattle.dependent_po.specs.EntryGathering.{IsSoundText};
ghost use Rattle.dependent_po.specs.Late.{is_late};
ghost use Rattle.dependent_po.specs.MacroMeaning.{Refuses};

use catalogue::compile;
use po_checks::{LoadFault, LoadKind, Options};
use std::alloc::Global;

/// Whether a refusal of this kind is reported only if the text can be read, its keys are distinct and its charset is
/// accepted.
fn is_late(kind: LoadKind) -> bool
    ensures { result ≡ is_late kind }
{
    matches!(
        kind,
        LoadKind::SystemDependent
            | LoadKind::NoRule
            | LoadKind::BadRule
            | LoadKind::FormCount
            | LoadKind::PluralRange(_)
            | LoadKind::FormatMismatch
            | LoadKind::NewlineMismatch
    )
}

/// Refuses a text that can't be read, or in which a key occurs twice or the header names a charset that isn't accepted.
pub(crate) fn check_front(alloc: Global, text: &[u8], options: Options) -> Result<(), LoadFault>
    ensures ok { OnOk result (IsSoundText text.now options) }
    ensures err { IfErr result (λ fault. (fault ≡ out_of_memory) ⊎ Refuses text.now options fault.kind fault.line) }
{
    let Err(fault) = compile(alloc, text, options) else {
        return Ok(());
    };
    if is_late(fault.kind) {
        return Ok(());
    }
    Err(fault)
}
