//! Opening bytes: the catalogue of an MO file or of a PO text, or the number and the line of why it is refused.
ghost use Rattle.std.specs.Prelude.{◌≡◌, ◌⊎◌, ◌↔◌, ℕ, List, false, IfOk, IfErr, IsTrue, None, nat_lt, option_map};
ghost use Rattle.std.specs.Arc.{arc_value};
ghost use Rattle.catalogue.specs.Meaning.{Means, Refuses};
ghost use Rattle.po_checks.specs.Refusal.{out_of_memory};
ghost use Rattle.c_opening.specs.Opening.{IsOpenedMo, IsOpenedPo, IsOpenedMap, IsRefused, fault_number, no_stats};
ghost use Rattle.c_opening.specs.Opening.{MeansText, RefusesText, line_of, options_of, text_fault_number};
ghost use Rattle.c_opening.specs.Opening.{MeansMo, RefusesMo, dependent_number, file_fault_number, mo_fault_number};
ghost use Rattle.c_opening.specs.Opening.{IsOpenedFile, IsSystemDependent, IsTold, file_line, text_file_number};
ghost use Rattle.mo_file.specs.Owned.{IsUnread};
ghost use Rattle.c_opening.specs.Opening.{CountsFlag, IsForMore, IsOpenedOwned};
ghost use Rattle.dependent_files.specs.TextFiles.{HasFileAny, HasNoFileAny};

use any_charset::{TextFault, compile_recoded, is_for_charset};
use c_answers::Opened;
use c_answers::numbers::{
    DEPENDENT_DESCRIPTOR, DEPENDENT_OPEN_TEXT, DEPENDENT_SEGMENT, DEPENDENT_SEGMENT_NUMBER,
    DEPENDENT_SWOLLEN, DEPENDENT_TABLES, DEPENDENT_TEXT, MEMORY, MO_NO_CHARACTER, NO_CHARACTER,
    NO_FAULT, NOT_READ_BACK, PO_FAULTS, PO_MEMORY, WANTED_AGAIN,
};
use catalogue::{Catalogue, Compiled, LoadFault, LoadKind, Options, Stats, compile_owned};
use dependent_files::{DependentFile, FileFault, compile_file, has_digits_flag};
use live_loads::{mo_number, po_number};
use mo_charsets::{RecodedFault, read_any_charset};
use mo_file::{MoFault, Unread, read_owned_mo};
use mo_revisions::AnyMoFault;
use mo_segments::DependentFault;
use std::alloc::{AllocError, Global};
use std::sync::Arc;

/// The counts of what isn't a PO text.
pub(crate) const NO_STATS: Stats = Stats {
    translated: 0,
    fuzzy: 0,
    untranslated: 0,
};

/// The number in `kobdzila.h` of a fault of a PO text.
fn fault_number(kind: LoadKind) -> u32
    ensures { result ≡ fault_number kind }
{
    match po_number(kind) {
        PO_MEMORY => MEMORY,
        number => PO_FAULTS + number,
    }
}

/// No catalogue, for this reason.
pub(crate) fn refused(fault: u32, line: u32) -> Opened
    ensures { IsRefused result fault line }
{
    Opened {
        catalogue: None,
        file: None,
        fault,
        line,
        stats: NO_STATS,
    }
}

/// Makes a catalogue shareable, and builds its index unless `without_index` is set.
fn shared(
    alloc: Global,
    mut catalogue: Catalogue,
    without_index: bool,
) -> Result<Arc<Catalogue>, AllocError>
    ensures { IfOk result (λ shared. arc_value shared ≡ catalogue) }
{
    if !without_index {
        catalogue.index(alloc)?;
    }
    Ok(Arc::new(alloc, catalogue)?)
}

/// A catalogue as C holds it, with its file if that isn't the file of its map; or out of memory.
fn kept(
    alloc: Global,
    catalogue: Catalogue,
    stats: Stats,
    file: Option<Vec<u8>>,
    without_index: bool,
) -> Opened
    ensures { IsOpenedMap catalogue stats (option_map (λ f. f.items) file) result }
{
    match shared(alloc, catalogue, without_index) {
        Ok(catalogue) => Opened {
            catalogue: Some(catalogue),
            file,
            fault: NO_FAULT,
            line: 0,
            stats,
        },
        Err(_) => refused(MEMORY, 0),
    }
}

/// The number in `kobdzila.h` of a fault of a file's system-dependent part.
fn dependent_number(fault: DependentFault) -> u32
    ensures { result ≡ dependent_number fault }
{
    match fault {
        DependentFault::Segment => DEPENDENT_SEGMENT,
        DependentFault::Descriptor => DEPENDENT_DESCRIPTOR,
        DependentFault::SegmentNumber => DEPENDENT_SEGMENT_NUMBER,
        DependentFault::Text => DEPENDENT_TEXT,
        DependentFault::OpenText => DEPENDENT_OPEN_TEXT,
        DependentFault::Swollen => DEPENDENT_SWOLLEN,
        DependentFault::Memory => MEMORY,
    }
}

/// The number in `kobdzila.h` of a fault of an MO file.
fn mo_fault_number(fault: AnyMoFault) -> u32
    ensures { result ≡ mo_fault_number fault }
{
    match fault {
        AnyMoFault::Tables => DEPENDENT_TABLES,
        AnyMoFault::Dependent(fault) => dependent_number(fault),
        AnyMoFault::Mo(fault) => mo_number(fault),
    }
}

/// The number in `kobdzila.h` of a fault of an MO file in any charset.
fn file_fault_number(fault: RecodedFault) -> u32
    ensures { result ≡ file_fault_number fault }
{
    match fault {
        RecodedFault::Any(fault) => mo_fault_number(fault),
        RecodedFault::NoCharacter => MO_NO_CHARACTER,
    }
}

/// Whether a file wasn't read for want of memory.
fn is_memory(fault: MoFault) -> bool
    ensures { IsTrue result ↔ (fault ≡ MoFault.Memory) }
{
    matches!(fault, MoFault::Memory)
}

/// Reads a file that is refused, and was given back: unless `is_strict`, as one of any revision in any charset.
fn read_given_back(
    alloc: Global,
    unread: Unread,
    is_strict: bool,
) -> Result<Catalogue, RecodedFault>
    ensures ok { IfOk result (λ m. (bytes : List ℕ) → IsUnread bytes unread → MeansMo bytes is_strict m) }
    ensures err { IfErr result (λ fault. (bytes : List ℕ) → IsUnread bytes unread → RefusesMo bytes is_strict fault) }
{
    if is_strict {
        return Err(RecodedFault::from(unread.fault));
    }
    if is_memory(unread.fault) {
        return Err(RecodedFault::from(AllocError));
    }
    read_any_charset(alloc, &unread.bytes)
}

/// Reads an MO file of any revision in any charset, or if `is_strict` of revision 0.0 in UTF-8 alone. One in the layout
/// of `mo_file::write_mo` isn't copied.
fn read_file(alloc: Global, bytes: Vec<u8>, is_strict: bool) -> Result<Catalogue, RecodedFault>
    ensures ok { IfOk result (MeansMo bytes.items is_strict) }
    ensures err { IfErr result (RefusesMo bytes.items is_strict) }
{
    match read_owned_mo(alloc, bytes) {
        Ok(catalogue) => Ok(catalogue),
        Err(unread) => read_given_back(alloc, unread, is_strict),
    }
}

/// The catalogue of an MO file, or the first reason why it is refused. An option is on if its number isn't 0; with
/// `without_index` the catalogue gets no index, and answers as with one.
pub fn open_mo(alloc: Global, bytes: Vec<u8>, strict: u32, without_index: u32) -> Opened
    ensures { IsOpenedMo bytes.items (nat_lt 0 strict) result }
{
    match read_file(alloc, bytes, strict > 0) {
        Ok(catalogue) => kept(alloc, catalogue, NO_STATS, None, without_index > 0),
        Err(fault) => refused(file_fault_number(fault), 0),
    }
}

/// Copies bytes that C lent.
pub fn copied(alloc: Global, bytes: &[u8]) -> Result<Vec<u8>, AllocError>
    ensures { IfOk result (λ copy. copy.items ≡ bytes.now) }
{
    let mut copy = Vec::with_capacity(alloc, bytes.len())?;
    copy.extend_from_slice(bytes)?;
    Ok(copy)
}

/// Compiles a copy of a PO text, which C's threads can't write to meanwhile. The MO file is written over the copy.
fn compile_copy(alloc: Global, bytes: &[u8], options: Options) -> Result<Compiled, LoadFault>
    ensures ok { IfOk result (Means bytes.now options) }
    ensures err { IfErr result (λ fault. (fault ≡ out_of_memory) ⊎ Refuses bytes.now options fault.kind fault.line) }
{
    compile_owned(alloc, copied(alloc, bytes)?, options)
}

/// Compiles a PO text in any charset, or if `is_strict` in UTF-8 alone.
fn compile_text(
    alloc: Global,
    bytes: &[u8],
    options: Options,
    is_strict: bool,
) -> Result<Compiled, TextFault>
    ensures ok { IfOk result (MeansText bytes.now options is_strict) }
    ensures err { IfErr result (RefusesText bytes.now options is_strict) }
{
    match compile_copy(alloc, bytes, options) {
        Ok(compiled) => Ok(compiled),
        Err(fault) if !is_strict && is_for_charset(fault.kind) => compile_recoded(
            alloc, bytes, options, fault,
        ),
        Err(fault) => Err(TextFault::Load(fault)),
    }
}

/// The number in `kobdzila.h` of a fault of a PO text in any charset, and its line.
pub fn number_and_line(fault: TextFault) -> (u32, u32)
    ensures number { result.0 ≡ text_fault_number fault }
    ensures line { result.1 ≡ line_of fault }
{
    match fault {
        TextFault::Load(LoadFault { kind, line }) => (fault_number(kind), line),
        TextFault::NoCharacter(line) => (NO_CHARACTER, line),
    }
}

/// No catalogue, for the fault of a PO text.
fn refused_text(fault: TextFault) -> Opened
    ensures { IsRefused result (text_fault_number fault) (line_of fault) }
{
    let (number, line) = number_and_line(fault);
    refused(number, line)
}

/// Compiles a copy of a PO text whose formats may name macros, in any charset.
fn compile_macros(alloc: Global, bytes: &[u8], options: Options) -> Result<DependentFile, FileFault>
    ensures ok { IfOk result (HasFileAny bytes.now options) }
    ensures err { IfErr result (HasNoFileAny bytes.now options) }
{
    let copy = copied(alloc, bytes)?;
    compile_file(alloc, copy.as_slice(), options)
}

/// No catalogue, for the reason why a PO text has no file.
fn refused_file(fault: FileFault) -> Opened
    ensures { IsRefused result (text_file_number fault) (file_line fault) }
{
    match fault {
        FileFault::Text(fault) => refused_text(fault),
        FileFault::TooLarge => refused(mo_number(MoFault::TooLarge), 0),
        FileFault::NotReadBack => refused(NOT_READ_BACK, 0),
        FileFault::Catalogue(fault) => refused(mo_number(fault), 0),
    }
}

/// The catalogue of a PO text whose formats may name macros or have the flag `I`, and its file, or why it has none.
fn open_macros(alloc: Global, bytes: &[u8], options: Options, without_index: bool) -> Opened
    ensures { IsOpenedFile bytes.now options result }
{
    match compile_macros(alloc, bytes, options) {
        Ok(made) => kept(
            alloc,
            made.catalogue,
            made.stats,
            Some(made.file),
            without_index,
        ),
        Err(fault) => refused_file(fault),
    }
}

/// Whether a text is refused as system-dependent.
fn is_system_dependent(fault: TextFault) -> bool
    ensures { IsTrue result ↔ IsSystemDependent fault }
{
    match fault {
        TextFault::Load(fault) => matches!(fault.kind, LoadKind::SystemDependent),
        TextFault::NoCharacter(_) => false,
    }
}

/// What is opened of a text that `compile_text` has refused: unless `is_strict`, a system-dependent one is opened with
/// its macros.
fn open_refused(
    alloc: Global,
    bytes: &[u8],
    options: Options,
    is_strict: bool,
    without_index: bool,
    fault: TextFault,
) -> Opened
    ensures { IsTold bytes.now options is_strict fault result }
{
    if !is_strict && is_system_dependent(fault) {
        return open_macros(alloc, bytes, options, without_index);
    }
    refused_text(fault)
}

/// Whether some translation of a catalogue is a C format with the flag `I`, which isn't looked for if `is_strict`.
fn counts_flag(alloc: Global, catalogue: &Catalogue, is_strict: bool) -> Result<bool, AllocError>
    ensures { IfOk result (λ counts. IsTrue counts ↔ CountsFlag is_strict catalogue.now) }
{
    if is_strict {
        return Ok(false);
    }
    has_digits_flag(alloc, catalogue)
}

/// A compiled text as C holds it, or out of memory.
fn kept_compiled(alloc: Global, compiled: Compiled, without_index: bool) -> Opened
    ensures { IsOpenedMap compiled.catalogue compiled.stats None result }
{
    kept(
        alloc,
        compiled.catalogue,
        compiled.stats,
        None,
        without_index,
    )
}

/// What is opened of a text that compiles to this: its map, or if a flag `I` counts, the text with its flags.
fn open_compiled(
    alloc: Global,
    bytes: &[u8],
    options: Options,
    is_strict: bool,
    without_index: bool,
    compiled: Compiled,
) -> Opened
    requires { MeansText bytes.now options is_strict compiled }
    ensures { IsOpenedPo bytes.now options is_strict result }
{
    match counts_flag(alloc, &compiled.catalogue, is_strict) {
        Ok(false) => kept_compiled(alloc, compiled, without_index),
        Ok(true) => open_macros(alloc, bytes, options, without_index),
        Err(_) => refused(MEMORY, 0),
    }
}

/// What is opened of a text that compiles to this, or `WANTED_AGAIN` if a flag `I` counts.
fn open_unflagged(alloc: Global, compiled: Compiled, is_strict: bool, without_index: bool) -> Opened
    ensures { (text : List ℕ) (options : Options) → Means text options compiled
        → IsOpenedOwned text options is_strict result }
{
    match counts_flag(alloc, &compiled.catalogue, is_strict) {
        Ok(false) => kept_compiled(alloc, compiled, without_index),
        Ok(true) => refused(WANTED_AGAIN, 0),
        Err(_) => refused(MEMORY, 0),
    }
}

/// The options that two numbers give: each is on if its number isn't 0.
pub fn options_of(checked: u32, use_fuzzy: u32) -> Options
    ensures { result ≡ options_of checked use_fuzzy }
{
    Options {
        checked: checked > 0,
        use_fuzzy: use_fuzzy > 0,
    }
}

/// The catalogue of a PO text, or the first reason why it is refused. An option is on if its number isn't 0; with
/// `without_index` the catalogue gets no index, and answers as with one. Unless `strict` is on, a text whose formats
/// name macros is also opened: its messages are as x86-64 Linux has them, and its MO file is of revision 0.1 or 1.1. So
/// is the file of a text with a translation that is flagged `c-format` and has the flag `I` in a directive.
pub fn open_po(
    alloc: Global,
    bytes: &[u8],
    checked: u32,
    use_fuzzy: u32,
    strict: u32,
    without_index: u32,
) -> Opened
    ensures { IsOpenedPo bytes.now (options_of checked use_fuzzy) (nat_lt 0 strict) result }
{
    let options = options_of(checked, use_fuzzy);
    let is_strict = strict > 0;
    let without_index = without_index > 0;
    match compile_text(alloc, bytes, options, is_strict) {
        Ok(compiled) => open_compiled(alloc, bytes, options, is_strict, without_index, compiled),
        Err(fault) => open_refused(alloc, bytes, options, is_strict, without_index, fault),
    }
}

/// Whether a text that is refused as UTF-8 for this may be opened all the same: in another charset, or with macros.
fn is_wanted_again(kind: LoadKind, is_strict: bool) -> bool
    ensures { IsTrue result ↔ ((is_strict ≡ false) × IsForMore kind) }
{
    !is_strict && (is_for_charset(kind) || matches!(kind, LoadKind::SystemDependent))
}

/// No catalogue, for the fault of a PO text or because the text is wanted again.
fn refused_owned(fault: LoadFault, is_strict: bool) -> Opened
    ensures { (text : List ℕ) (options : Options) → (fault ≡ out_of_memory) ⊎ Refuses text options fault.kind fault.line
        → IsOpenedOwned text options is_strict result }
{
    if is_wanted_again(fault.kind, is_strict) {
        return refused(WANTED_AGAIN, 0);
    }
    refused(fault_number(fault.kind), fault.line)
}

/// The catalogue of a PO text as `open_po` opens it, from memory that the library owns and writes the MO file over.
///
/// The fault is `WANTED_AGAIN` if the text may be opened in another charset, or with macros or the flag `I`. `open_po`
/// then opens it, or says why it is refused.
pub fn open_owned_po(
    alloc: Global,
    text: Vec<u8>,
    checked: u32,
    use_fuzzy: u32,
    strict: u32,
    without_index: u32,
) -> Opened
    ensures { IsOpenedOwned text.items (options_of checked use_fuzzy) (nat_lt 0 strict) result }
{
    let options = options_of(checked, use_fuzzy);
    let is_strict = strict > 0;
    match compile_owned(alloc, text, options) {
        Ok(compiled) => open_unflagged(alloc, compiled, is_strict, without_index > 0),
        Err(fault) => refused_owned(fault, is_strict),
    }
}
