//! The messages that a catalogue keeps: the first of each key, in rising order of the keys.
ghost use Rattle.std.specs.Prelude.{◌≡◌, ◌++◌, ◌∷◌, [], List, IfOk, OnOk};
ghost use Rattle.mo_image.specs.Pairs.{key_part as before_nul};
ghost use Rattle.mo_segments.specs.MessageStrings.{Strings as Pair, strings_in, strings_of};
ghost use Rattle.mo_segments.specs.Flat.{AreKept};
ghost use Rattle.mo_segments.specs.Keeping.{IsMapOf};

use crate::messages::Strings;
use byte_text::offset_of;
use std::alloc::{AllocError, Global};
use std::collections::BTreeMap;

/// The key of an original: what precedes its first NUL.
fn key(original: &[u8]) -> &[u8]
    ensures { result.now ≡ before_nul original.now }
{
    &original[..offset_of(original, 0)]
}

/// Adds a message, unless there is one with its key.
fn add(
    alloc: Global,
    map: &mut BTreeMap<Vec<u8>, Strings>,
    message: Strings,
) -> Result<(), AllocError>
    ensures { OnOk result ((messages : List Pair) → IsMapOf (λ k. k.items) strings_in map.old.entries messages
        → IsMapOf (λ k. k.items) strings_in map.new.entries (messages ++ strings_in message ∷ [])) }
{
    let key = Vec::from_slice(alloc, key(message.original.as_slice()))?;
    if !map.contains_key(key.as_slice()) {
        map.insert(key, message)?;
    }
    Ok(())
}

/// Keeps the first message of each key, in rising order of the keys' bytes.
pub fn kept(alloc: Global, messages: Vec<Strings>) -> Result<Vec<Strings>, AllocError>
    ensures { IfOk result (λ v. AreKept (strings_of messages.items) (strings_of v.items)) }
{
    let mut map = BTreeMap::new(alloc);
    'messages: for message in messages {
        add(alloc, &mut map, message)?;
    }
    let mut kept = Vec::with_capacity(alloc, map.len())?;
    'kept: for (_, message) in map {
        kept.push(message)?;
    }
    Ok(kept)
}
