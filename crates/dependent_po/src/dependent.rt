//! The message of an entry, with its splits.
ghost use Rattle.std.specs.Prelude.{◌≡◌, ℕ, ◌++◌, ◌+◌, ◌<◌, ◌≤◌, ◌^◌, IfOk, OnOk, map, string_bytes};
ghost use Rattle.c_macros.specs.MacroSplits.{AreWithin};
ghost use Rattle.mo_image.specs.Entry.{original};
ghost use Rattle.mo_segments.specs.MessageStrings.{strings_in};
ghost use Rattle.po_checks.specs.Kept.{message_of};
ghost use Rattle.dependent_po.specs.SplitMessages as Messages;
ghost use Rattle.dependent_po.specs.SplitMessages.{front_len, split_behind, AreOriginalSplits, AreSplitsIf};
ghost use Rattle.dependent_po.specs.SplitMessages.{IsMessageOf};
ghost use Rattle.dependent_po.specs.SplitViews.{message_in};
ghost use Rattle.dependent_po.specs.FormAdding.{AddsForm, HasTranslation};

use c_macros::{Side, Split, splits};
use mo_dependent::{Dependent, SplitText};
use mo_image::{push_form, push_key};
use mo_segments::Strings;
use po_text::EntryBuffer;
use std::alloc::{AllocError, Global};

/// Whether a message has a split.
pub(crate) fn has_split(message: &Dependent) -> bool
    ensures { result ≡ Messages.has_split (message_in message.now) }
{
    !message.original.splits.is_empty() || !message.translation.splits.is_empty()
}

/// The two strings of a message, without its splits.
pub(crate) fn into_strings(message: Dependent) -> Strings
    ensures { strings_in result ≡ (message_in message).strings }
{
    let Dependent {
        original,
        translation,
    } = message;
    Strings {
        original: original.bytes,
        translation: translation.bytes,
    }
}

/// The length of what precedes the msgid in a key: the context and byte 4, if there is a context.
fn front_len(entry: &EntryBuffer) -> usize
    ensures is { result ≡ front_len entry.now.context }
    ensures small { result ≤ 2 ^ 63 }
{
    match entry.context() {
        Some(context) => context.len() + 1,
        None => 0,
    }
}

/// Adds splits, each moved by this many bytes.
fn add_moved(into: &mut Vec<Split>, own: &[Split], by: usize) -> Result<(), AllocError>
    requires { (end : ℕ) × AreWithin 0 own.now end × (by + end < 2 ^ 64) }
    ensures { OnOk result (into.new.items ≡ into.old.items ++ map (split_behind by) own.now) }
{
    'splits: for split in own {
        into.push(Split {
            start: by + split.start,
            len: split.len,
        })?;
    }
    Ok(())
}

/// The original of an entry: its key and, after a NUL, its plural.
fn original_of(alloc: Global, entry: &EntryBuffer) -> Result<String, AllocError>
    ensures { IfOk result (λ text. string_bytes text ≡ original (message_of entry.now)) }
{
    let mut text = String::new(alloc);
    push_key(&mut text, entry.context(), entry.id())?;
    if let Some(plural) = entry.plural() {
        push_form(&mut text, plural, false)?;
    }
    Ok(text)
}

/// The splits of the original of an entry: those of its msgid.
fn original_splits(alloc: Global, entry: &EntryBuffer) -> Result<Vec<Split>, AllocError>
    ensures { IfOk result (λ found. AreOriginalSplits entry.now found.items) }
{
    let own = splits(alloc, entry.id(), Side::Original)?;
    let mut found = Vec::new(alloc);
    add_moved(&mut found, own.as_slice(), front_len(entry))?;
    Ok(found)
}

/// A translation: forms with NUL between them, and their splits.
#[derive(Drop)]
pub(crate) struct Translation {
    text: String,
    splits: Vec<Split>,
}

impl Translation {
    /// Adds a form, and its splits if they are looked for.
    fn add(
        &mut self,
        alloc: Global,
        form: &str,
        is_first: bool,
        looks: bool,
    ) -> Result<(), AllocError>
        ensures { OnOk result (AddsForm looks is_first form.now self.old self.new) }
    {
        push_form(&mut self.text, form, is_first)?;
        if looks {
            let own = splits(alloc, form, Side::Translation)?;
            let at = self.text.len() - form.len();
            add_moved(&mut self.splits, own.as_slice(), at)?;
        }
        Ok(())
    }
}

/// The translation of an entry, and its splits if they are looked for.
fn translation_of(
    alloc: Global,
    entry: &EntryBuffer,
    looks: bool,
) -> Result<Translation, AllocError>
    ensures { IfOk result (HasTranslation looks entry.now.forms) }
{
    let mut translation = Translation {
        text: String::new(alloc),
        splits: Vec::new(alloc),
    };
    'forms: for k in 0..entry.form_count() {
        translation.add(alloc, entry.form(k), k == 0, looks)?;
    }
    Ok(translation)
}

/// The splits of the original of an entry, if they are looked for.
fn original_splits_if(
    alloc: Global,
    entry: &EntryBuffer,
    looks: bool,
) -> Result<Vec<Split>, AllocError>
    ensures { IfOk result (λ found. AreSplitsIf looks (AreOriginalSplits entry.now) found.items) }
{
    if looks {
        original_splits(alloc, entry)
    } else {
        Ok(Vec::new(alloc))
    }
}

/// The message of an entry. Splits are looked for only where it is flagged `c-format`.
pub(crate) fn message_of(alloc: Global, entry: &EntryBuffer) -> Result<Dependent, AllocError>
    ensures { IfOk result (λ message. IsMessageOf entry.now (message_in message)) }
{
    let looks = entry.is_c_format();
    let original = original_of(alloc, entry)?;
    let original_splits = original_splits_if(alloc, entry, looks)?;
    let Translation { text, splits } = translation_of(alloc, entry, looks)?;
    Ok(Dependent {
        original: SplitText {
            bytes: original.into_bytes(),
            splits: original_splits,
        },
        translation: SplitText {
            bytes: text.into_bytes(),
            splits,
        },
    })
}
