//! The kept header of a text, and its plural rule.
ghost use Rattle.std.specs.Prelude.{◌≡◌, ◌⊎◌, List, IfOk, IfErr, Some};
ghost use Rattle.po_text.specs.Entries.{Entry as PoEntry};
ghost use Rattle.po_text.specs.Outcome.{Gives};
ghost use Rattle.po_header.specs.Rules.{rule_of};
ghost use Rattle.po_checks.specs.Kept as Kept;
ghost use Rattle.po_checks.specs.Refusal.{out_of_memory};
ghost use Rattle.po_checks.specs.Headers.{IsHeaderOf};
ghost use Rattle.po_formats.specs.HeaderViews.{IsForeignBy, IsRuleBy};
ghost use Rattle.po_formats.specs.PlainFaults.{RefusesText};

use po_checks::{Header, LoadFault, LoadKind, Options, header_of};
use po_header::{RuleRead, has_accepted_charset, read_rule};
use po_text::{EntryBuffer, open_text};
use std::alloc::Global;

/// The kept header of a text, if it has one.
pub(crate) fn kept_header(
    alloc: Global,
    text: &[u8],
    options: Options,
) -> Result<Option<Header>, LoadFault>
    ensures ok { IfOk result (λ header. (entries : List PoEntry) × Gives text.now entries
        × IsHeaderOf (Kept.kept_header options entries) header) }
    ensures err { IfErr result (λ fault. (fault ≡ out_of_memory) ⊎ RefusesText text.now fault.kind fault.line) }
{
    let mut reader = open_text(alloc, text)?;
    let mut entry = EntryBuffer::new(alloc);
    let mut found: Option<Header> = None;
    'entries: while reader.next_entry(&mut entry)? {
        if found.is_none() {
            found = header_of(alloc, &entry, options)?;
        }
    }
    Ok(found)
}

/// The rule of a header, whose charset must be accepted.
fn rule_of_header(alloc: Global, header: &Header) -> Result<RuleRead, LoadFault>
    ensures ok { IfOk result (λ rule. IsRuleBy (Some header.now) (rule_of rule)) }
    ensures err { IfErr result (λ fault. (fault ≡ out_of_memory) ⊎ IsForeignBy (Some header.now) fault) }
{
    if !has_accepted_charset(header.text.as_str()) {
        return Err(LoadFault {
            kind: LoadKind::Charset,
            line: header.line,
        });
    }
    let rule = read_rule(alloc, header.text.as_str())?;
    Ok(rule)
}

/// The plural rule of a text, given its kept header.
pub(crate) fn rule_by(alloc: Global, header: Option<Header>) -> Result<RuleRead, LoadFault>
    ensures ok { IfOk result (λ rule. IsRuleBy header (rule_of rule)) }
    ensures err { IfErr result (λ fault. (fault ≡ out_of_memory) ⊎ IsForeignBy header fault) }
{
    match header {
        Some(header) => rule_of_header(alloc, &header),
        None => Ok(RuleRead::Absent),
    }
}
