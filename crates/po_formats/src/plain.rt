//! The faults of a text in UTF-8.
ghost use Rattle.std.specs.Prelude.{◌≡◌, ◌⊎◌, IfOk, IfErr};
ghost use Rattle.po_checks.specs.Refusal.{out_of_memory};
ghost use Rattle.po_formats.specs.PlainFaults.{HasFaults, Refuses};

use crate::entries::faults_of_entries;
use crate::header::{kept_header, rule_by};
use crate::often::often;
use format_checks::Fault;
use po_checks::{LoadFault, Options};
use std::alloc::Global;

/// The faults of the kept entries of a text in UTF-8. The text is read twice: first for the rule in its header.
pub(crate) fn plain_faults(
    alloc: Global,
    text: &[u8],
    options: Options,
) -> Result<Vec<Fault>, LoadFault>
    ensures ok { IfOk result (λ faults. HasFaults text.now options faults.items) }
    ensures err { IfErr result (λ fault. (fault ≡ out_of_memory) ⊎ Refuses text.now options fault.kind fault.line) }
{
    let header = kept_header(alloc, text, options)?;
    let rule = rule_by(alloc, header)?;
    let often = often(alloc, &rule)?;
    faults_of_entries(alloc, text, options, often.as_slice())
}
