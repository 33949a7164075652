//! The size of the MO file of messages, in bytes. Sums saturate at 2^64 - 1.
ghost use Rattle.std.specs.Prelude.{◌≡◌, ◌+◌, length, map, max, string_bytes};
ghost use Rattle.mo_image.specs.Entry.{key, original};
ghost use Rattle.mo_image.specs.MoFile.{pool, spelling, entry_size};
ghost use Rattle.catalogue_map.specs.Messages.{message_entry, messages_of};
ghost use Rattle.catalogue_map.specs.Sizes.{capped_number};

use crate::Message;
use mo_image::{HEADER_LEN, ROW_LEN};

/// The size of an entry's two rows, one in each table.
const ROWS_LEN: usize = 2 * ROW_LEN;

/// The length of the key.
fn key_len(message: &Message) -> usize
    ensures { result ≡ length (key (message_entry message.now)) }
{
    match &message.context {
        Some(context) => context.len() + 1 + message.id.len(),
        None => message.id.len(),
    }
}

/// The length that the plural adds to the original, with the NUL before it.
fn plural_len(message: &Message) -> usize
    ensures { let e = message_entry message.now in length (original e) ≡ length (key e) + result }
{
    match &message.plural {
        Some(plural) => plural.len() + 1,
        None => 0,
    }
}

/// The length of the forms, each followed by a NUL.
fn forms_len(forms: &[String]) -> usize
    ensures { result ≡ capped_number (length (pool (map (λ s. string_bytes s) forms.now))) }
{
    let mut len: usize = 0;
    'forms: for form in forms {
        len = len.saturating_add(form.len() + 1);
    }
    len
}

/// The length of the translation with its NUL, which it has even without a form.
fn translation_len(forms: &[String]) -> usize
    ensures { result ≡ capped_number (max (length (pool (map (λ s. string_bytes s) forms.now))) 1) }
{
    match forms_len(forms) {
        0 => 1,
        len => len,
    }
}

/// The size of a message in the file: two rows and two strings, each followed by a NUL.
fn message_len(message: &Message) -> usize
    ensures { result ≡ capped_number (entry_size (message_entry message.now)) }
{
    let original = key_len(message)
        .saturating_add(plural_len(message))
        .saturating_add(1);
    original
        .saturating_add(translation_len(&message.forms))
        .saturating_add(ROWS_LEN)
}

/// The size of the file.
pub(crate) fn file_len(messages: &[Message]) -> usize
    ensures { result ≡ capped_number (length (spelling (messages_of messages.now))) }
{
    let mut len = HEADER_LEN;
    'messages: for message in messages {
        len = len.saturating_add(message_len(message));
    }
    len
}
