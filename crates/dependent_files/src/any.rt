//! Texts in any charset.
ghost use Rattle.std.specs.Prelude.{◌≡◌, IfOk, IfErr};
ghost use Rattle.std.specs.List.{AllByRecursion};
ghost use Rattle.mo_dependent.specs.Splits.{IsSplit};
ghost use Rattle.dependent_po.specs.MacroMeaning.{Refuses};
ghost use Rattle.any_charset.specs.Recoding.{IsForCharset};
ghost use Rattle.dependent_files.specs.TextFiles.{MeansAny, MeansRecoded, RefusesAny};

use any_charset::{TextFault, is_for_charset, recoded};
use dependent_po::{DependentCompiled, compile_dependent};
use po_checks::{LoadFault, Options};
use std::alloc::Global;

/// Compiles a text in another charset, which was refused as UTF-8 with `strict`.
fn compile_recoded(
    alloc: Global,
    text: &[u8],
    options: Options,
    strict: LoadFault,
) -> Result<DependentCompiled, TextFault>
    requires { IsForCharset strict.kind × Refuses text.now options strict.kind strict.line }
    ensures ok { IfOk result (MeansRecoded text.now options) }
    ensures split { IfOk result (λ compiled. AllByRecursion IsSplit compiled.dependents.items) }
    ensures err { IfErr result (RefusesAny text.now options) }
{
    let recoded = match recoded(alloc, text) {
        Ok(Some(recoded)) => recoded,
        Ok(None) => return Err(TextFault::Load(strict)),
        Err(fault) => return Err(fault),
    };
    match compile_dependent(alloc, recoded.as_slice(), options) {
        Ok(compiled) => Ok(compiled),
        Err(fault) => Err(TextFault::Load(fault)),
    }
}

/// Compiles a PO text whose C formats may name macros, in UTF-8 or in any charset of `charsets`.
///
/// A text in UTF-8 is compiled and refused as by `compile_dependent`. One that is refused for its charset is decoded,
/// if the header at its front names a charset of `charsets`, and its header then says `charset=UTF-8`.
pub fn compile_dependent_any(
    alloc: Global,
    text: &[u8],
    options: Options,
) -> Result<DependentCompiled, TextFault>
    ensures ok { IfOk result (MeansAny text.now options) }
    ensures split { IfOk result (λ compiled. AllByRecursion IsSplit compiled.dependents.items) }
    ensures err { IfErr result (RefusesAny text.now options) }
{
    match compile_dependent(alloc, text, options) {
        Ok(compiled) => Ok(compiled),
        Err(fault) if is_for_charset(fault.kind) => compile_recoded(alloc, text, options, fault),
        Err(fault) => Err(TextFault::Load(fault)),
    }
}
