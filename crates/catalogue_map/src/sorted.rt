//! Catalogues of messages that are sorted already.
ghost use Rattle.std.specs.Prelude.{◌≡◌, IfOk, map, option_map, string_bytes};
ghost use Rattle.std.specs.List.{join_with_byte};
ghost use Rattle.mo_image.specs.Entry.{key, translation};
ghost use Rattle.mo_image.specs.Parts.{entry_from};
ghost use Rattle.mo_image.specs.Stored.{stored_entry};

use crate::Catalogue;
use mo_image::{OwnedStrings, joined_key, push_form};
use std::alloc::{AllocError, Global};

/// A message that owns its texts.
#[derive(Drop)]
pub struct Message {
    pub context: Option<String>,
    pub id: String,
    /// The msgid_plural, if the message has one.
    pub plural: Option<String>,
    /// The translated forms: exactly one if the message has no plural.
    pub forms: Vec<String>,
}

/// Joins the forms, with NUL between them.
fn translation_of(alloc: Global, forms: &[String]) -> Result<String, AllocError>
    ensures { IfOk result (λ text. string_bytes text ≡ join_with_byte 0 (map (λ s. string_bytes s) forms.now)) }
{
    let mut text = String::new(alloc);
    'forms: for k in 0..forms.len() {
        push_form(&mut text, forms[k].as_str(), k == 0)?;
    }
    Ok(text)
}

impl Message {
    ghost use Rattle.catalogue_map.specs.Messages.{message_entry};

    pub(crate) fn context(&self) -> Option<&str>
        ensures { option_map (λ s. s.now) result ≡ option_map (λ s. string_bytes s) self.now.context }
    {
        match &self.context {
            Some(context) => Some(context.as_str()),
            None => None,
        }
    }

    /// Turns the message into its strings in an MO file.
    fn into_strings(self, alloc: Global) -> Result<OwnedStrings, AllocError>
        ensures { let e = message_entry self in IfOk result (λ strings. stored_entry strings
            ≡ entry_from (key e) e.plural (translation e)) }
    {
        let key = joined_key(alloc, self.context(), self.id.as_str())?;
        let translation = translation_of(alloc, self.forms.as_slice())?;
        Ok(OwnedStrings {
            key,
            plural: self.plural,
            translation,
        })
    }
}

impl Catalogue {
    ghost use Rattle.mo_image.specs.Map.{IsLawful};
    ghost use Rattle.catalogue_map.specs.Messages.{messages_of};

    /// Makes a catalogue of messages. They have to list a lawful map, in rising order of their keys' bytes; `accepts`
    /// checks that. The only error is a failed allocation.
    pub fn from_sorted(alloc: Global, messages: Vec<Message>) -> Result<Catalogue, AllocError>
        requires { IsLawful (messages_of messages.items) }
        ensures { IfOk result (λ catalogue. catalogue ≡ messages_of messages.items) }
    {
        let mut strings = Vec::with_capacity(alloc, messages.len())?;
        'messages: for message in messages {
            strings.push(message.into_strings(alloc)?)?;
        }
        Catalogue::from_list(alloc, &strings)
    }
}
