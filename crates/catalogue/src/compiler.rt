//! Compiles a PO text to a catalogue.
ghost use Rattle.std.specs.Prelude.{◌≡◌, ◌<◌, ◌^◌, ◌⊎◌, ◌↔◌, ℕ, List, IfOk, IfErr, IfSome, IsTrue, length};
ghost use Rattle.std.specs.Prelude.{if◌then◌else◌, option_map};
ghost use Rattle.catalogue_drafts.specs.Reading.{IsReadOf};
ghost use Rattle.mo_image.specs.Map.{HasAcceptedCharset};
ghost use Rattle.catalogue.specs.Meaning.{lacking_fields, none_missing, Means, Refuses};
ghost use Rattle.po_checks.specs.Refusal.{out_of_memory};

use bumpalo::Bump;
use catalogue_drafts::{
    Collected, Draft, KeptDrafts, Stats, collect, first_repeat, header_line, header_text, keep,
    sort, stats_of,
};
use catalogue_map::Catalogue;
use mo_image::{HEADER_LEN, ROW_LEN};
use po_checks::{LoadFault, LoadKind, Options};
use po_header::{has_accepted_charset, missing_fields, rule_in};
use std::alloc::Global;

/// What a PO text compiles to.
#[derive(Drop)]
pub struct Compiled {
    pub catalogue: Catalogue,
    pub stats: Stats,
    /// Which of the eight fields (`po_header::FIELD_NAMES`) the kept header lacks; all `false` unless `checked` was set
    /// and there is a kept header.
    pub missing: [bool; 8],
    /// The line of the kept header, or 0 if there is none.
    pub header_line: u32,
}

/// Whether the header names an accepted charset or none, or there is no header.
fn is_accepted(header: Option<&str>) -> bool
    ensures { IsTrue result ↔ IfSome header.entry (λ text. HasAcceptedCharset text.now) }
{
    match header {
        Some(text) => has_accepted_charset(text),
        None => true,
    }
}

/// Reports which of the eight header fields the header lacks; none unless `checked` is set and there is a header.
fn missing_in(header: Option<&str>, options: Options) -> [bool; 8]
    ensures { result
        ≡ (if options.checked then lacking_fields (option_map (λ text. text.now) header.entry) else none_missing) }
{
    match header {
        Some(text) if options.checked => missing_fields(text),
        _ => [false; 8],
    }
}

/// Compiles a PO text: its kept entries become a catalogue (GNU gettext manual, "msgfmt Invocation").
///
/// Untranslated entries aren't kept, and fuzzy ones only with `use_fuzzy`; a fuzzy header always is.
///
/// The first fault of the PO text is reported (see `po_text::read_po`). If it has none, the text is refused if an entry
/// has the key of an earlier one, kept or not; if the kept header names a charset that isn't accepted
/// (`po_header::charset_accepted`); or if a kept c-format entry has a system-dependent text (`c_signature::signature`).
///
/// With `checked`, it is also refused if there are kept plural entries and the header has no rule for them, or one that
/// can't be read; if one of them has another number of forms than the rule says; if the rule has no form for a number
/// from 0 to 1000; or if the formats or the newlines of a kept entry differ. Each refusal names the line of the first
/// such entry or of the header. `missing` then says which of the eight header fields the kept header lacks.
///
/// If an allocation fails, `Memory` may be reported instead of any other result.
pub fn compile(alloc: Global, text: &[u8], options: Options) -> Result<Compiled, LoadFault>
    ensures ok { IfOk result (Means text.now options) }
    ensures err { IfErr result (λ fault. (fault ≡ out_of_memory) ⊎ Refuses text.now options fault.kind fault.line) }
{
    let arena = Bump::new(alloc);
    let collected = collect(alloc, &arena, text, options)?;
    compile_collected(alloc, collected, options, Vec::new(alloc))
}

/// Compiles a PO text as `compile` does, but takes ownership of it. Once the entries have been read, the MO file is
/// written into the text's memory. So the two are never held at once, and the MO file of a large text needs no memory
/// of its own.
pub fn compile_owned(alloc: Global, text: Vec<u8>, options: Options) -> Result<Compiled, LoadFault>
    ensures ok { IfOk result (Means text.items options) }
    ensures err { IfErr result (λ fault. (fault ≡ out_of_memory) ⊎ Refuses text.items options fault.kind fault.line) }
{
    let arena = Bump::new(alloc);
    let collected = collect(alloc, &arena, text.as_slice(), options)?;
    let memory = room_over(text, file_room(&collected.drafts));
    compile_collected(alloc, collected, options, memory)
}

/// The most bytes that the MO file of these drafts can take: a header, and for each entry two rows, its texts, and two
/// NULs, after its original and after its translation.
fn file_room(drafts: &[Draft<'_>]) -> usize {
    let rows = drafts.len().saturating_mul(2 * ROW_LEN + 2);
    drafts
        .iter()
        .fold(rows.saturating_add(HEADER_LEN), |room: usize, draft| {
            room.saturating_add(draft.text.len())
        })
}

/// Empties a text and keeps at most `most` bytes of its memory.
fn room_over(text: Vec<u8>, most: usize) -> Vec<u8> {
    let mut memory = text;
    memory.clear();
    memory.shrink_to(most);
    memory
}

/// Turns the collected entries into a compiled catalogue, with its MO file in `memory`.
fn compile_collected(
    alloc: Global,
    collected: Collected<'_>,
    options: Options,
    memory: Vec<u8>,
) -> Result<Compiled, LoadFault>
    requires { (text : List ℕ) × IsReadOf text options collected }
    ensures ok { IfOk result (λ compiled. (text : List ℕ) →
        IsReadOf text options collected.entry → Means text options compiled) }
    ensures err { IfErr result (λ fault. (text : List ℕ) → IsReadOf text options collected.entry →
        (fault ≡ out_of_memory) ⊎ Refuses text options fault.kind fault.line) }
{
    let Collected {
        mut drafts,
        findings,
    } = collected;
    let stats = stats_of(&drafts);
    let header_line = header_line(&drafts);
    let header = header_text(&drafts);
    let is_accepted = is_accepted(header);
    let missing = missing_in(header, options);
    sort(&mut drafts);
    if let Some(draft) = first_repeat(&drafts) {
        return Err(LoadFault {
            kind: LoadKind::Duplicate,
            line: draft.line,
        });
    }
    if !is_accepted {
        return Err(LoadFault {
            kind: LoadKind::Charset,
            line: header_line,
        });
    }
    let rule = rule_in(alloc, header)?;
    if let Some(fault) = findings.fault(options, &rule, header_line) {
        return Err(fault);
    }
    keep(&mut drafts);
    let catalogue = Catalogue::from_list_over(memory, &KeptDrafts { drafts }, rule)?;
    Ok(Compiled {
        catalogue,
        stats,
        missing,
        header_line,
    })
}
