//! Checks whether messages list a lawful map, so that a catalogue can be made of them, without allocating.
ghost use Rattle.std.specs.Prelude.{◌≡◌, ◌≤◌, ◌↔◌, [], length, map, IsTrue, IfSome, option_map, string_bytes};
ghost use Rattle.std.specs.List.{AllByRecursion, find};
ghost use Rattle.std.specs.Ordering.{nat_cmp, is_lt};
ghost use Rattle.std.specs.Cmp.Lexicographic.{slice_cmp};
ghost use Rattle.mo_image.specs.Entry.{key, LacksByte, IsText, IsKeyText, HasForms, IsLawfulEntry};
ghost use Rattle.mo_image.specs.Map.{Rises, first_form, header_text, HasAcceptedCharset, IsLawful};
ghost use Rattle.mo_image.specs.MoFile.{most_file, spelling};
ghost use Rattle.catalogue_map.specs.Messages.{message_entry, messages_of};
ghost use Rattle.catalogue_map.specs.Accepted as Accepted;

use crate::sizes::file_len;
use crate::{Catalogue, Message};
use entry_search::cmp_keys;
use mo_image::MAX_LEN;
use po_header::has_accepted_charset;

fn lacks(text: &str, byte: u8) -> bool
    ensures { IsTrue result ↔ LacksByte byte text.now }
{
    !text.as_bytes().contains(&byte)
}

/// Whether a text may be part of a catalogue: it holds no NUL.
fn is_text(text: &str) -> bool
    ensures { IsTrue result ↔ IsText text.now }
{
    lacks(text, 0)
}

/// Whether a text may be part of a key: it holds neither NUL nor byte 4.
fn is_key_text(text: &str) -> bool
    ensures { IsTrue result ↔ IsKeyText text.now }
{
    lacks(text, 0) && lacks(text, 4)
}

/// Whether the context, if there is one, may be part of a key.
fn is_context(context: &Option<String>) -> bool
    ensures { IsTrue result ↔ IfSome (option_map (λ s. string_bytes s) context.now) IsKeyText }
{
    match context {
        Some(context) => is_key_text(context.as_str()),
        None => true,
    }
}

/// Whether the plural, if there is one, may be part of a catalogue.
fn is_plural(plural: &Option<String>) -> bool
    ensures { IsTrue result ↔ IfSome (option_map (λ s. string_bytes s) plural.now) IsText }
{
    match plural {
        Some(plural) => is_text(plural.as_str()),
        None => true,
    }
}

fn are_texts(forms: &[String]) -> bool
    ensures { IsTrue result ↔ AllByRecursion IsText (map (λ s. string_bytes s) forms.now) }
{
    forms.iter().all(|form| is_text(form.as_str()))
}

/// Whether there is at least one form, and exactly one without a plural.
fn is_counted(message: &Message) -> bool
    ensures { let e = message_entry message.now in IsTrue result ↔ HasForms e.plural e.forms }
{
    match &message.plural {
        Some(_) => !message.forms.is_empty(),
        None => message.forms.len() == 1,
    }
}

/// Whether the context and the msgid are lawful.
fn has_lawful_key(message: &Message) -> bool
    ensures { IsTrue result ↔ Accepted.HasLawfulKey (message_entry message.now) }
{
    is_context(&message.context) && is_key_text(message.id.as_str())
}

/// Whether the forms and their number are lawful.
fn has_lawful_forms(message: &Message) -> bool
    ensures { IsTrue result ↔ Accepted.HasLawfulForms (message_entry message.now) }
{
    are_texts(message.forms.as_slice()) && is_counted(message)
}

/// Whether the texts other than the key are lawful.
fn has_lawful_texts(message: &Message) -> bool
    ensures { IsTrue result ↔ Accepted.HasLawfulTexts (message_entry message.now) }
{
    is_plural(&message.plural) && has_lawful_forms(message)
}

/// Whether the message is a lawful entry.
fn is_lawful(message: &Message) -> bool
    ensures { IsTrue result ↔ IsLawfulEntry (message_entry message.now) }
{
    has_lawful_key(message) && has_lawful_texts(message)
}

fn are_lawful(messages: &[Message]) -> bool
    ensures { IsTrue result ↔ AllByRecursion IsLawfulEntry (messages_of messages.now) }
{
    messages.iter().all(|message| is_lawful(message))
}

/// Whether the key of the first message is below that of the second.
fn is_below(first: &Message, second: &Message) -> bool
    ensures { result ≡ Accepted.is_below first.now second.now }
{
    cmp_keys(
        first.context(),
        first.id.as_str(),
        second.context(),
        second.id.as_str(),
    )
    .is_lt()
}

/// Whether each key is above the one before it.
fn keys_rise(messages: &[Message]) -> bool
    ensures { IsTrue result ↔ Rises (map key (messages_of messages.now)) }
{
    messages.is_sorted_by(|first, second| is_below(first, second))
}

/// Whether the message is the header: it has no context and the empty msgid.
fn is_header(message: &Message) -> bool
    ensures { result ≡ Accepted.is_header message.now }
{
    message.context.is_none() && message.id.is_empty()
}

fn header(messages: &[Message]) -> Option<&Message>
    ensures { option_map (λ m. m.now) result ≡ find Accepted.is_header messages.now }
{
    messages.iter().find(|message| is_header(message))
}

/// Returns the first form, or the empty text if there is none.
fn first_form(forms: &[String]) -> &str
    ensures { result.now ≡ first_form (map (λ s. string_bytes s) forms.now) }
{
    match forms.first() {
        Some(form) => form.as_str(),
        None => "",
    }
}

/// Whether the header, if there is one, names an accepted charset or none.
fn header_is_lawful(messages: &[Message]) -> bool
    ensures { IsTrue result ↔ IfSome (header_text (messages_of messages.now)) HasAcceptedCharset }
{
    match header(messages) {
        Some(message) => has_accepted_charset(first_form(message.forms.as_slice())),
        None => true,
    }
}

/// Whether the MO file of the messages is within the size limit.
fn fits(messages: &[Message]) -> bool
    ensures { IsTrue result ↔ (length (spelling (messages_of messages.now)) ≤ most_file) }
{
    file_len(messages) <= MAX_LEN
}

impl Catalogue {
    /// Checks whether the messages list a lawful map, as `from_sorted` requires: no text holds NUL; no context or msgid
    /// holds byte 4; each message has at least one form, and exactly one without a plural; each key is above the one
    /// before it, by bytes; the header, if there is one, names an accepted charset or none; and the MO file has at most
    /// 268,435,456 bytes.
    pub fn accepts(messages: &[Message]) -> bool
        ensures { IsTrue result ↔ IsLawful (messages_of messages.now) }
    {
        are_lawful(messages) && keys_rise(messages) && header_is_lawful(messages) && fits(messages)
    }
}
