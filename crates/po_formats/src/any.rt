//! The faults of a text in any charset.
ghost use Rattle.std.specs.Prelude.{◌≡◌, ◌↔◌, ℕ, Bool, List, [], IfOk, IfErr};
ghost use Rattle.std.specs.List.{AllByRecursion};
ghost use Rattle.po_text.specs.Entries.{Entry as PoEntry};
ghost use Rattle.po_checks.specs.declared.options.Options.{Options as OptionsValue};
ghost use Rattle.format_checks.specs.declared.Fault.{Fault as FaultValue};
ghost use Rattle.any_charset.specs.Recoding.{IsForCharset};
ghost use Rattle.po_formats.specs.EntryFaults.{AreAllFaults, HasGoodFormats};
ghost use Rattle.po_formats.specs.PlainFaults.{HasFaults, Refuses};
ghost use Rattle.po_formats.specs.TextFaults.{HasFaultsAny, HasFaultsRecoded, RefusesAny};

use crate::plain::plain_faults;
use any_charset::{TextFault, is_for_charset, recoded};
use format_checks::Fault;
use po_checks::{LoadFault, Options};
use std::alloc::Global;

/// The faults of a text in another charset, which was refused as UTF-8 with `strict`.
fn recoded_faults(
    alloc: Global,
    text: &[u8],
    options: Options,
    strict: LoadFault,
) -> Result<Vec<Fault>, TextFault>
    requires { IsForCharset strict.kind × Refuses text.now options strict.kind strict.line }
    ensures ok { IfOk result (λ faults. HasFaultsRecoded text.now options faults.items) }
    ensures err { IfErr result (RefusesAny text.now options) }
{
    let recoded = match recoded(alloc, text) {
        Ok(Some(recoded)) => recoded,
        Ok(None) => return Err(TextFault::Load(strict)),
        Err(fault) => return Err(fault),
    };
    match plain_faults(alloc, recoded.as_slice(), options) {
        Ok(faults) => Ok(faults),
        Err(fault) => Err(TextFault::Load(fault)),
    }
}

/// Lists the faults of the formats of a text's kept entries, in UTF-8 or in a charset of `charsets`: what GNU msgfmt
/// reports with `--check-format --check-header`, for the languages of `format_checks`.
///
/// The faults are in the order of the entries, each on the line of its entry's first `msgstr`. A form that serves five
/// of the numbers from 0 to 1000 by the header's plural rule is compared strictly. Only what hinders reading is
/// refused: a fault of the PO text, or a charset that isn't known. If memory runs out, the fault is `Memory`.
pub fn format_faults(alloc: Global, text: &[u8], options: Options) -> Result<Vec<Fault>, TextFault>
    ensures ok { IfOk result (λ faults. HasFaultsAny text.now options faults.items) }
    ensures err { IfErr result (RefusesAny text.now options) }
{
    match plain_faults(alloc, text, options) {
        Ok(faults) => Ok(faults),
        Err(fault) if is_for_charset(fault.kind) => recoded_faults(alloc, text, options, fault),
        Err(fault) => Err(TextFault::Load(fault)),
    }
}

/// A law, without code: a text in UTF-8 has one list of faults at most, and entries have none exactly if nothing is
/// wrong with their formats.
pub fn one_list()
    ensures one { (text : List ℕ) (options : OptionsValue) (found others : List FaultValue) →
        HasFaults text options found → HasFaults text options others → found ≡ others }
    ensures none { (often : List Bool) (entries : List PoEntry) →
        AreAllFaults often entries [] ↔ AllByRecursion (HasGoodFormats often) entries }
{}
