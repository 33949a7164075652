//! What is made of a catalogue or of a PO text, as C holds it: a PO text, or a list of faults.
ghost use Rattle.std.specs.Prelude.{◌≡◌, ◌≤◌, nat_lt, slice_get, option_map, IfOk, IfErr};
ghost use Rattle.format_flags.specs.Languages.{number as language_number};
ghost use Rattle.po_formats.specs.TextFaults.{HasFaultsAny, RefusesAny};
ghost use denote.Param.{layout};
ghost use prog.Memory.{align, size};
ghost use Rattle.c_opening.specs.Opening.{line_of, options_of, text_fault_number};
ghost use Rattle.c_outputs.specs.contracts.outputs.HeldOutput.{the_row};
ghost use Rattle.c_outputs.specs.Outputs.{IsFormatFaults, IsPoText, IsPoTextOf, IsUnmade, faults_in, text_in};
ghost use Rattle.any_charset.specs.Recoding.{IsRecoded};
ghost use Rattle.c_outputs.specs.Outputs.{IsNotRecoded, IsRecodedText, difference_number, fault_part, output_number};

use any_charset::{TextFault, recoded};
use c_answers::Opened;
use c_answers::numbers::{
    COUNT, FAULT, FAULT_DIFFERENCE, FAULT_FORM, FAULT_LANGUAGE, FAULT_LINE, LINE, MEMORY, NO_FAULT,
};
use c_opening::{copied, number_and_line, options_of};
use catalogue::{Catalogue, LoadFault, LoadKind, MAX_TEXT, Options};
use format_checks::{Difference, Fault, Language};
use po_formats::format_faults;
use po_writing::write_po;
use std::alloc::Global;

const TOO_LARGE: LoadFault = LoadFault {
    kind: LoadKind::TooLarge,
    line: 0,
};

/// The refusal of a text that declares no charset of `charsets`.
const NO_CHARSET: LoadFault = LoadFault {
    kind: LoadKind::Charset,
    line: 0,
};

/// What was made.
#[derive(Drop)]
pub enum Output {
    /// The PO text of a catalogue, or a PO text in UTF-8.
    Po(Vec<u8>),
    /// The faults of the formats in a PO text.
    Faults(Vec<Fault>),
    /// There is none.
    Refused,
}

/// What was made, or why there is none.
#[derive(Drop)]
pub struct HeldOutput {
    pub output: Output,
    /// The number of why there is none (`c_answers::numbers`); otherwise `NO_FAULT`.
    pub fault: u32,
    /// The fault's line in a PO text; 0 if it has none.
    pub line: u32,
}

/// The number of bytes that C allocates for what was made. `malloc` aligns them well enough.
pub fn output_size() -> usize
    ensures size { result ≡ size (layout the_row) }
    ensures alignment { align (layout the_row) ≤ 16 }
{
    std::mem::size_of::<HeldOutput>()
}

/// Nothing, for this reason.
fn unmade(fault: u32, line: u32) -> HeldOutput
    ensures { IsUnmade fault line result }
{
    HeldOutput {
        output: Output::Refused,
        fault,
        line,
    }
}

/// Nothing, for the fault of a PO text.
fn refused(fault: TextFault) -> HeldOutput
    ensures { IsUnmade (text_fault_number fault) (line_of fault) result }
{
    let (number, line) = number_and_line(fault);
    unmade(number, line)
}

/// The PO text of a catalogue, or out of memory.
fn po_text_of(alloc: Global, catalogue: &Catalogue, escape: bool) -> HeldOutput
    ensures { IsPoTextOf escape catalogue.now result }
{
    match write_po(alloc, catalogue, escape) {
        Ok(text) => HeldOutput {
            output: Output::Po(text),
            fault: NO_FAULT,
            line: 0,
        },
        Err(_) => unmade(MEMORY, 0),
    }
}

/// The PO text of what was opened, or why there is none. The option `escape` is on if it isn't 0.
pub fn write_text(alloc: Global, opened: &Opened, escape: u32) -> HeldOutput
    ensures { IsPoText (nat_lt 0 escape) opened.now result }
{
    match &opened.catalogue {
        Some(catalogue) => po_text_of(alloc, catalogue, escape > 0),
        None => unmade(opened.fault, opened.line),
    }
}

/// Lists the faults of a copy of a PO text, which C's threads can't write to meanwhile.
fn faults_of_copy(alloc: Global, bytes: &[u8], options: Options) -> Result<Vec<Fault>, TextFault>
    ensures ok { IfOk result (λ faults. HasFaultsAny bytes.now options faults.items) }
    ensures err { IfErr result (RefusesAny bytes.now options) }
{
    match copied(alloc, bytes) {
        Ok(copy) => format_faults(alloc, copy.as_slice(), options),
        Err(_) => Err(TextFault::Load(LoadFault {
            kind: LoadKind::Memory,
            line: 0,
        })),
    }
}

/// The faults of the formats in a PO text, or the first reason why it is refused. An option is on if its number isn't
/// 0.
pub fn check_formats(alloc: Global, bytes: &[u8], checked: u32, use_fuzzy: u32) -> HeldOutput
    ensures { IsFormatFaults bytes.now (options_of checked use_fuzzy) result }
{
    match faults_of_copy(alloc, bytes, options_of(checked, use_fuzzy)) {
        Ok(faults) => HeldOutput {
            output: Output::Faults(faults),
            fault: NO_FAULT,
            line: 0,
        },
        Err(fault) => refused(fault),
    }
}

/// The PO text in UTF-8, or why there is none.
fn recoded_text(alloc: Global, bytes: &[u8]) -> Result<Vec<u8>, TextFault>
    ensures ok { IfOk result (λ recoded. IsRecoded bytes.now recoded.items) }
    ensures err { IfErr result (IsNotRecoded bytes.now) }
{
    if MAX_TEXT < bytes.len() {
        return Err(TextFault::Load(TOO_LARGE));
    }
    match recoded(alloc, bytes)? {
        Some(recoded) => Ok(recoded),
        None => Err(TextFault::Load(NO_CHARSET)),
    }
}

/// A PO text in UTF-8: decoded from the charset that the header at its front declares, which is one of `charsets`, and
/// with `UTF-8` in place of that charset's name. A text that declares none is refused for its charset.
pub fn recode(alloc: Global, bytes: &[u8]) -> HeldOutput
    ensures { IsRecodedText bytes.now result }
{
    match recoded_text(alloc, bytes) {
        Ok(text) => HeldOutput {
            output: Output::Po(text),
            fault: NO_FAULT,
            line: 0,
        },
        Err(fault) => refused(fault),
    }
}

/// The faults in what was made.
fn faults_of<'k>(held: &'k HeldOutput) -> &'k [Fault]
    ensures { result.now ≡ faults_in held.now.output }
{
    match &held.output {
        Output::Faults(faults) => faults,
        Output::Po(_) => &[],
        Output::Refused => &[],
    }
}

/// Fault `index`, if there is one.
fn fault_at<'k>(held: &'k HeldOutput, index: u64) -> Option<&'k Fault>
    ensures { option_map (λ fault. fault.now) result ≡ slice_get (faults_in held.now.output) index }
{
    faults_of(held).get(index as usize)
}

/// The number in `kobdzila.h` of a language.
fn language_number(language: Language) -> u32
    ensures { result ≡ language_number language }
{
    language as u32
}

/// The number in `kobdzila.h` of what is wrong with a form.
fn difference_number(difference: Difference) -> u32
    ensures { result ≡ difference_number difference }
{
    match difference {
        Difference::Invalid => 0,
        Difference::Arguments => 1,
        Difference::Unread => 2,
    }
}

/// A number of a fault: its line, its language, its form or its difference.
fn fault_part(fault: Fault, which: u32) -> u64
    ensures { result ≡ fault_part fault which }
{
    match which {
        FAULT_LINE => u64::from(fault.line),
        FAULT_LANGUAGE => u64::from(language_number(fault.language)),
        FAULT_FORM => fault.form as u64,
        FAULT_DIFFERENCE => u64::from(difference_number(fault.difference)),
        _ => 0,
    }
}

/// A number of what was made: its `FAULT`, the fault's `LINE`, the `COUNT` of the faults in it, or a number of fault
/// `index` (`fault_part`).
pub fn output_number(held: &HeldOutput, which: u32, index: u64) -> u64
    ensures { result ≡ output_number held.now which index }
{
    match which {
        FAULT => u64::from(held.fault),
        LINE => u64::from(held.line),
        COUNT => faults_of(held).len() as u64,
        _ => match fault_at(held, index) {
            Some(fault) => fault_part(*fault, which),
            None => 0,
        },
    }
}

/// The bytes of the PO text, or none if there is none.
pub fn output_text<'k>(held: &'k HeldOutput) -> &'k [u8]
    ensures { result.now ≡ text_in held.now.output }
{
    match &held.output {
        Output::Po(text) => text,
        Output::Faults(_) => &[],
        Output::Refused => &[],
    }
}

/// Drops what was made.
pub fn close_output(held: HeldOutput) {
    drop(held);
}
