//! The checks of a PO text, run on its kept entries in the order in which they are read.
ghost use Rattle.std.specs.Prelude.{◌≡◌, ◌&&◌, [], OnOk, IfErr, IsTrue, option_map};
ghost use Rattle.po_header.specs.Rules.{rule_of};
ghost use Rattle.po_checks.specs.Findings.{first_or, AddsFormats, AddsTexts, IsCheckedFault};
ghost use Rattle.po_checks.specs.Found.{HasFound, IsFault, LooksAt};
ghost use Rattle.po_checks.specs.Kept as Kept;

use crate::formats::format_faults;
use crate::kept::is_kept;
use crate::newlines::newlines_differ;
use crate::plurals::Plurals;
use crate::{LoadFault, LoadKind, Options};
use po_header::RuleRead;
use po_text::EntryBuffer;
use std::alloc::{AllocError, Global};

/// What the checks have found so far: for each check, the line of the first kept entry that fails it.
#[derive(Clone, Copy)]
pub struct Findings {
    /// The line of the first entry with a system-dependent c-format text.
    pub system_dependent: Option<u32>,
    /// The line of the first entry with a form whose arguments differ from its original's.
    pub mismatch: Option<u32>,
    /// The line of the first entry with some texts that begin or end with a newline and others that don't.
    pub newlines: Option<u32>,
    /// The plural entries so far.
    pub plurals: Plurals,
}

/// Returns the line that was found before, or else `line` if its entry fails.
pub(crate) fn first_line(found: Option<u32>, fails: bool, line: u32) -> Option<u32>
    ensures { result ≡ first_or found fails line }
{
    match found {
        Some(_) => found,
        None => if fails { Some(line) } else { None },
    }
}

/// Makes a fault of this kind, if there is a line.
pub(crate) fn fault_at(line: Option<u32>, kind: LoadKind) -> Option<LoadFault>
    ensures { result ≡ option_map (λ line. record { kind = kind; line = line }) line }
{
    match line {
        Some(line) => Some(LoadFault { kind, line }),
        None => None,
    }
}

impl Findings {
    /// Starts with nothing read.
    pub fn new() -> Findings
        ensures { (options : Options) → HasFound options [] result }
    {
        Findings {
            system_dependent: None,
            mismatch: None,
            newlines: None,
            plurals: Plurals::new(),
        }
    }

    /// Checks the formats of a kept entry.
    fn look_at_formats(&mut self, alloc: Global, entry: &EntryBuffer) -> Result<(), AllocError>
        ensures ok { OnOk result (AddsFormats self.old self.new entry.now) }
        ensures no_memory { IfErr result (λ _. IsTrue entry.now.c_format) }
    {
        let faults = format_faults(alloc, entry)?;
        let line = entry.line();
        self.system_dependent = first_line(self.system_dependent, faults.system_dependent, line);
        self.mismatch = first_line(self.mismatch, faults.mismatch, line);
        Ok(())
    }

    /// Checks the newlines of a kept entry, and counts its forms.
    fn look_at_texts(&mut self, entry: &EntryBuffer)
        ensures { AddsTexts self.old self.new entry.now }
    {
        self.newlines = first_line(self.newlines, newlines_differ(entry), entry.line());
        self.plurals.look_at(entry);
    }

    /// Checks one more entry. Entries that aren't kept are skipped. The only error is a failed allocation.
    pub fn look_at(
        &mut self,
        alloc: Global,
        entry: &EntryBuffer,
        options: Options,
    ) -> Result<(), AllocError>
        ensures ok { OnOk result (LooksAt options entry.now self.old self.new) }

        // Only formats allocate memory.
        ensures no_memory { IfErr result (λ _. IsTrue (Kept.is_kept options entry.now && entry.now.c_format)) }
    {
        self.look_at_if(is_kept(entry, options), alloc, entry, options)
    }

    /// Checks one more entry as `look_at` does, where it is known whether the entry is kept.
    pub fn look_at_if(
        &mut self,
        is_kept: bool,
        alloc: Global,
        entry: &EntryBuffer,
        options: Options,
    ) -> Result<(), AllocError>
        requires { is_kept ≡ Kept.is_kept options entry.now }
        ensures ok { OnOk result (LooksAt options entry.now self.old self.new) }
        ensures no_memory { IfErr result (λ _. IsTrue (is_kept && entry.now.c_format)) }
    {
        if !is_kept {
            return Ok(());
        }
        self.look_at_formats(alloc, entry)?;
        if options.checked {
            self.look_at_texts(entry);
        }
        Ok(())
    }

    /// Returns the first fault of the checked level, by the rule in the header on this line.
    fn checked_fault(&self, rule: &RuleRead, header_line: u32) -> Option<LoadFault>
        ensures { IsCheckedFault self.now (rule_of rule.now) header_line result }
    {
        if let Some(fault) = self.plurals.fault(rule, header_line) {
            return Some(fault);
        }
        match self.mismatch {
            Some(line) => Some(LoadFault {
                kind: LoadKind::FormatMismatch,
                line,
            }),
            None => fault_at(self.newlines, LoadKind::NewlineMismatch),
        }
    }

    /// Returns the first fault that the checks have found, given the rule and the line of the kept header.
    pub fn fault(&self, options: Options, rule: &RuleRead, header_line: u32) -> Option<LoadFault>
        ensures { IsFault self.now options (rule_of rule.now) header_line result }
    {
        if let Some(line) = self.system_dependent {
            let kind = LoadKind::SystemDependent;
            return Some(LoadFault { kind, line });
        }
        if !options.checked {
            return None;
        }
        self.checked_fault(rule, header_line)
    }
}
