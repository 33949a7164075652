//! Compiles a PO text whose formats may name macros.
ghost use Rattle.std.specs.Prelude.{◌≡◌, ◌⊎◌, ℕ, List, IfOk, IfErr, if◌then◌else◌, option_map, string_bytes, None};
ghost use Rattle.std.specs.List.{AllByRecursion};
ghost use Rattle.std.specs.Option.{option_map_or};
ghost use Rattle.po_header.specs.Rules.{rule_of};
ghost use Rattle.catalogue.specs.Meaning.{lacking_fields, none_missing};
ghost use Rattle.po_checks.specs.Refusal.{out_of_memory};
ghost use Rattle.mo_dependent.specs.Splits.{IsSplit};
ghost use Rattle.dependent_po.specs.EntryGathering.{IsGatheredOf, IsLateFault};
ghost use Rattle.dependent_po.specs.Late as Late;
ghost use Rattle.dependent_po.specs.MacroMeaning.{Means, Refuses};

use crate::compiled::DependentCompiled;
use crate::counts::stats_of;
use crate::front::check_front;
use crate::gathered::{Gathered, gather};
use crate::messages::Messages;
use mo_segments::kept;
use po_checks::{Findings, Header, LoadFault, LoadKind, Options};
use po_header::{RuleRead, missing_fields, rule_in};
use std::alloc::Global;

/// The text of a header, if there is one.
fn text_of(header: &Option<Header>) -> Option<&str>
    ensures { option_map (λ text. text.now) result ≡ option_map (λ h. string_bytes h.text) header.now }
{
    match header {
        Some(header) => Some(header.text.as_str()),
        None => None,
    }
}

/// The line of a header, or 0 if there is none.
fn line_of(header: &Option<Header>) -> u32
    ensures { result ≡ option_map_or (λ h. h.line) header.now 0 }
{
    match header {
        Some(header) => header.line,
        None => 0,
    }
}

/// Which of the eight header fields the header lacks; none unless `checked` is set and there is a header.
fn missing_in(header: Option<&str>, options: Options) -> [bool; 8]
    ensures { result
        ≡ (if options.checked then lacking_fields (option_map (λ text. text.now) header.entry) else none_missing) }
{
    match header {
        Some(text) if options.checked => missing_fields(text),
        _ => [false; 8],
    }
}

/// Whether a refusal of this kind is the last in the order of refusals.
fn is_for_newlines(kind: LoadKind) -> bool
    ensures { result ≡ Late.is_for_newlines kind }
{
    matches!(kind, LoadKind::NewlineMismatch)
}

/// The line, if `checked` is set.
fn line_if(checked: bool, line: Option<u32>) -> Option<u32>
    ensures { result ≡ (if checked then line else None) }
{
    if checked { line } else { None }
}

/// The first of two faults: one that the other checks have found, and different formats on a line.
fn with_mismatch(fault: Option<LoadFault>, mismatch: Option<u32>) -> Option<LoadFault>
    ensures { result ≡ Late.with_mismatch fault mismatch }
{
    let Some(line) = mismatch else { return fault };
    match fault {
        Some(fault) if !is_for_newlines(fault.kind) => Some(fault),
        _ => Some(LoadFault {
            kind: LoadKind::FormatMismatch,
            line,
        }),
    }
}

/// The first fault of the entries, by the rule of their header, among those behind that of the charset. Formats are
/// compared with macros, and the other checks are those of `po_checks`.
fn late_fault(gathered: &Gathered, options: Options, rule: &RuleRead) -> Option<LoadFault>
    ensures { IsLateFault options gathered.now (rule_of rule.now) result }
{
    let others = Findings {
        system_dependent: None,
        mismatch: None,
        ..gathered.findings
    };
    let fault = others.fault(options, rule, line_of(&gathered.header));
    with_mismatch(fault, line_if(options.checked, gathered.mismatch))
}

/// Turns what was gathered of a text into what it compiles to.
fn compile_gathered(
    alloc: Global,
    gathered: Gathered,
    options: Options,
) -> Result<DependentCompiled, LoadFault>
    requires { (text : List ℕ) × IsGatheredOf text options gathered }
    ensures ok { IfOk result (λ compiled. (text : List ℕ) → IsGatheredOf text options gathered
        → Means text options compiled) }
    ensures err { IfErr result (λ fault. (text : List ℕ) → IsGatheredOf text options gathered
        → (fault ≡ out_of_memory) ⊎ Refuses text options fault.kind fault.line) }
{
    let rule = rule_in(alloc, text_of(&gathered.header))?;
    if let Some(fault) = late_fault(&gathered, options, &rule) {
        return Err(fault);
    }
    let missing = missing_in(text_of(&gathered.header), options);
    let header_line = line_of(&gathered.header);
    let stats = stats_of(&gathered.standings);
    let Messages {
        statics,
        dependents,
    } = gathered.messages;
    let statics = kept(alloc, statics)?;
    Ok(DependentCompiled {
        statics,
        dependents,
        stats,
        missing,
        header_line,
    })
}

/// Compiles a PO text whose C formats may name macros of `<inttypes.h>` (GNU gettext manual, "c-format").
///
/// A text is compiled and refused as by `catalogue::compile`, but none is refused as system-dependent: formats are
/// compared with the macros that they name. A kept message that is flagged `c-format` is system-dependent if its msgid
/// names a macro, or one of its forms names a macro or has the flag `I`. Neither its msgid_plural nor its context is
/// looked at, and a text that is no valid format isn't split. The splits are as
/// [`write_dependent`](mo_dependent::write_dependent) requires.
///
/// If an allocation fails, `Memory` may be reported instead of any other result.
pub fn compile_dependent(
    alloc: Global,
    text: &[u8],
    options: Options,
) -> Result<DependentCompiled, LoadFault>
    ensures ok { IfOk result (Means text.now options) }
    ensures split { IfOk result (λ compiled. AllByRecursion IsSplit compiled.dependents.items) }
    ensures err { IfErr result (λ fault. (fault ≡ out_of_memory) ⊎ Refuses text.now options fault.kind fault.line) }
{
    check_front(alloc, text, options)?;
    let gathered = gather(alloc, text, options)?;
    compile_gathered(alloc, gathered, options)
}
