//! Reads the entries of a PO text, in their order.
ghost use Rattle.std.specs.Prelude.{◌≡◌, ◌⊎◌, ◌++◌, ◌∷◌, IfOk, IfErr, OnOk, string_bytes};
ghost use Rattle.po_text.specs.Lawful.{HasItsForms, IsLawfulTexts};
ghost use Rattle.mo_image.specs.Entry.{translation};
ghost use Rattle.po_checks.specs.Kept as Kept;
ghost use Rattle.po_checks.specs.Kept.{is_kept, message_of};
ghost use Rattle.catalogue_drafts.specs.Refusals.{Refuses};
ghost use Rattle.catalogue_drafts.specs.Drafts as Drafts;
ghost use Rattle.catalogue_drafts.specs.Drafts.{outline, outline_of, texts_if_kept};
ghost use Rattle.catalogue_drafts.specs.Shares.{texts_by};
ghost use Rattle.catalogue_drafts.specs.Reading.{IsReadOf};
ghost use Rattle.po_checks.specs.Refusal.{out_of_memory};

use crate::draft::Draft;
use crate::pool::Pool;
use crate::texts::{Share, Standing};
use bumpalo::Bump;
use byte_text::{front_of, next_front_of};
use mo_image::{push_form, push_key};
use po_checks::{Findings, LoadFault, Options, is_header, is_untranslated};
use po_text::{EntryBuffer, open_text};
use std::alloc::{AllocError, Global};

/// Says how an entry counts in the statistics.
fn standing_of(entry: &EntryBuffer) -> Standing
    ensures is { result ≡ Drafts.standing_of entry.now }
    ensures lawful { IsLawfulTexts entry.now }
{
    let is_untranslated = is_untranslated(entry);
    if is_header(entry) {
        Standing::Header
    } else if is_untranslated {
        Standing::Untranslated
    } else if entry.is_fuzzy() {
        Standing::Fuzzy
    } else {
        Standing::Translated
    }
}

/// Whether an entry that counts like this is kept.
fn is_kept_as(standing: Standing, entry: &EntryBuffer, options: Options) -> bool
    requires { standing ≡ Drafts.standing_of entry.now }
    ensures { result ≡ is_kept options entry.now }
{
    match standing {
        Standing::Header => !is_untranslated(entry),
        Standing::Untranslated => false,
        Standing::Fuzzy => options.use_fuzzy,
        Standing::Translated => true,
    }
}

/// The entry's key. A key with a context is joined in `scratch`.
fn key_of<'e>(scratch: &'e mut String, entry: &'e EntryBuffer) -> Result<&'e str, AllocError>
    ensures { IfOk result (λ key. key.now ≡ Kept.key_of entry.now) }
{
    match entry.context() {
        Some(context) => {
            scratch.clear();
            push_key(scratch, Some(context), entry.id())?;
            Ok(scratch)
        }
        None => Ok(entry.id()),
    }
}

/// Appends the forms, with NUL between them.
fn add_forms(texts: &mut String, entry: &EntryBuffer) -> Result<(), AllocError>
    ensures { OnOk result (string_bytes texts.new ≡ string_bytes texts.old ++ translation (message_of entry.now)) }
{
    'forms: for k in 0..entry.form_count() {
        push_form(texts, entry.form(k), k == 0)?;
    }
    Ok(())
}

/// Joins the plural and the forms by NULs in `scratch`.
fn plural_of<'e>(
    scratch: &'e mut String,
    plural: &str,
    entry: &EntryBuffer,
) -> Result<&'e str, AllocError>
    ensures { IfOk result (λ joined. joined.now ≡ plural.now ++ 0 ∷ translation (message_of entry.now)) }
{
    scratch.clear();
    scratch.push_str(plural)?;
    scratch.push('\0')?;
    add_forms(scratch, entry)?;
    Ok(scratch)
}

/// What is kept of an entry besides its key, for an entry that counts like this. A plural and its forms are joined in
/// `scratch`.
fn kept_of<'e>(
    scratch: &'e mut String,
    entry: &'e EntryBuffer,
    options: Options,
    standing: Standing,
) -> Result<(Share, &'e str), AllocError>
    requires lawful { IsLawfulTexts entry.now }
    requires forms { HasItsForms entry.now }
    requires standing { standing ≡ Drafts.standing_of entry.now }
    ensures { IfOk result (λ kept. texts_by kept.0 kept.1.now ≡ texts_if_kept options entry.now) }
{
    if !is_kept_as(standing, entry, options) {
        return Ok((Share::Dropped, ""));
    }
    match entry.plural() {
        Some(plural) => Ok((Share::Plural, plural_of(scratch, plural, entry)?)),
        None => Ok((Share::Plain, entry.form(0))),
    }
}

/// A number in 32 bits. No PO text is long enough for one that doesn't fit; it would be refused like a failed
/// allocation.
fn word_of(n: usize) -> Result<u32, AllocError>
    ensures { IfOk result (λ word. word ≡ n) }
{
    if n > u32::MAX as usize {
        return Err(AllocError);
    }
    Ok(n as u32)
}

/// Strings that are reused for the texts that have to be joined before they are copied.
#[derive(Drop)]
struct Scratch {
    key: String,
    kept: String,
}

/// Copies the texts of the entry with this index to the pool, and returns its draft.
fn draft_in<'a>(
    pool: &mut Pool<'a>,
    scratch: &mut Scratch,
    entry: &EntryBuffer,
    options: Options,
    number: usize,
) -> Result<Draft<'a>, AllocError>
    requires { HasItsForms entry.now }
    ensures lawful { OnOk result (IsLawfulTexts entry.now) }
    ensures draft { IfOk result (λ draft. outline draft ≡ outline_of options number entry.now) }
{
    let standing = standing_of(entry);
    let key = key_of(&mut scratch.key, entry)?;
    let (share, kept) = kept_of(&mut scratch.kept, entry, options, standing)?;
    Ok(Draft {
        text: pool.join(key, kept)?,
        front: front_of(key),
        next: next_front_of(key),
        key_len: word_of(key.len())?,
        number: word_of(number)?,
        line: entry.line(),
        share,
        standing,
    })
}

/// What was read of a PO text.
#[derive(Drop)]
pub struct Collected<'a> {
    /// The entries, in the order of the PO text. Their texts are in an arena.
    pub drafts: Vec<Draft<'a>>,
    /// What the checks found.
    pub findings: Findings,
}

/// Reads and checks the entries of a PO text, and copies their texts to the arena.
pub fn collect<'a>(
    alloc: Global,
    arena: &'a Bump,
    text: &[u8],
    options: Options,
) -> Result<Collected<'a>, LoadFault>
    ensures ok { IfOk result (IsReadOf text.now options) }
    ensures err { IfErr result (λ fault. (fault ≡ out_of_memory) ⊎ Refuses text.now options fault.kind fault.line) }
{
    let mut reader = open_text(alloc, text)?;
    let mut entry = EntryBuffer::new(alloc);
    let mut pool = Pool::new(arena);
    let mut scratch = Scratch {
        key: String::new(alloc),
        kept: String::new(alloc),
    };
    let mut drafts = Vec::new(alloc);
    let mut findings = Findings::new();
    'entries: while reader.next_entry(&mut entry)? {
        let draft = draft_in(&mut pool, &mut scratch, &entry, options, drafts.len())?;
        findings.look_at_if(draft.is_kept(), alloc, &entry, options)?;
        drafts.push(draft)?;
    }
    Ok(Collected { drafts, findings })
}
