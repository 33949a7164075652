//! Reads the entries of a PO text, and gathers what it compiles to.
ghost use Rattle.std.specs.Prelude.{◌≡◌, ◌⊎◌, [], List, OnOk, IfOk, IfErr};
ghost use Rattle.po_text.specs.Entries.{Entry as PoEntry};
ghost use Rattle.po_text.specs.Outcome.{Gives};
ghost use Rattle.po_checks.specs.Findings.{first_or};
ghost use Rattle.po_checks.specs.Refusal.{out_of_memory};
ghost use Rattle.dependent_po.specs.EntryGathering.{AddsHeader, AddsKept, Gathers, HasGathered};
ghost use Rattle.dependent_po.specs.MacroMeaning.{RefusesText};

use crate::counts::{Standing, standing_of};
use crate::formats::has_other_arguments;
use crate::messages::Messages;
use po_checks::{Findings, Header, LoadFault, Options, header_of, is_kept};
use po_text::{EntryBuffer, open_text};
use std::alloc::{AllocError, Global};

/// What is gathered of the entries that have been read.
#[derive(Drop)]
pub(crate) struct Gathered {
    /// The messages of the kept entries.
    pub(crate) messages: Messages,
    /// What the checks have found. They know no macros, so what they say of formats isn't used.
    pub(crate) findings: Findings,
    /// The line of the first kept entry with a form whose arguments differ from its original's, where checked.
    pub(crate) mismatch: Option<u32>,
    /// How the entries count.
    pub(crate) standings: Vec<Standing>,
    pub(crate) header: Option<Header>,
}

/// Returns the line that was found before, or else `line` if its entry fails.
fn first_line(found: Option<u32>, fails: bool, line: u32) -> Option<u32>
    ensures { result ≡ first_or found fails line }
{
    match found {
        Some(_) => found,
        None => if fails { Some(line) } else { None },
    }
}

impl Gathered {
    fn new(alloc: Global) -> Gathered
        ensures { (options : Options) → HasGathered options [] result }
    {
        Gathered {
            messages: Messages::new(alloc),
            findings: Findings::new(),
            mismatch: None,
            standings: Vec::new(alloc),
            header: None,
        }
    }

    /// Keeps the header, if the entry is the first.
    fn add_header(
        &mut self,
        alloc: Global,
        entry: &EntryBuffer,
        options: Options,
    ) -> Result<(), AllocError>
        ensures { OnOk result (AddsHeader options entry.now self.old self.new) }
    {
        if self.header.is_none() {
            self.header = header_of(alloc, entry, options)?;
        }
        Ok(())
    }

    /// Adds the message of a kept entry, and compares its formats.
    fn add_kept(
        &mut self,
        alloc: Global,
        entry: &EntryBuffer,
        options: Options,
    ) -> Result<(), AllocError>
        ensures { OnOk result (AddsKept options entry.now self.old self.new) }
    {
        self.messages.add(alloc, entry)?;
        if options.checked {
            let differs = has_other_arguments(alloc, entry)?;
            self.mismatch = first_line(self.mismatch, differs, entry.line());
        }
        Ok(())
    }

    /// Gathers one more entry.
    fn add(
        &mut self,
        alloc: Global,
        entry: &EntryBuffer,
        options: Options,
    ) -> Result<(), AllocError>
        ensures { OnOk result (Gathers options entry.now self.old self.new) }
    {
        self.findings.look_at(alloc, entry, options)?;
        self.standings.push(standing_of(entry))?;
        self.add_header(alloc, entry, options)?;
        if is_kept(entry, options) {
            self.add_kept(alloc, entry, options)?;
        }
        Ok(())
    }
}

/// Reads the entries of a PO text.
pub(crate) fn gather(alloc: Global, text: &[u8], options: Options) -> Result<Gathered, LoadFault>
    ensures ok { IfOk result (λ gathered. (entries : List PoEntry) × Gives text.now entries
        × HasGathered options entries gathered) }
    ensures err { IfErr result (λ fault. (fault ≡ out_of_memory) ⊎ RefusesText text.now fault.kind fault.line) }
{
    let mut reader = open_text(alloc, text)?;
    let mut entry = EntryBuffer::new(alloc);
    let mut gathered = Gathered::new(alloc);
    'entries: while reader.next_entry(&mut entry)? {
        gathered.add(alloc, &entry, options)?;
    }
    Ok(gathered)
}
