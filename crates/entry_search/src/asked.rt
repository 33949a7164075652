//! A key to look up, with its hash.
ghost use Rattle.std.specs.Prelude.{◌≡◌, option_map};
ghost use Rattle.std.specs.Str.{bytes_eq};
ghost use Rattle.mo_image.specs.Entry.{key, key_bytes};
ghost use Rattle.entry_search.specs.Index.{FindsBy};

use crate::keys::is_in_context;
use crate::slot_table::{hash_alone, hash_within};
use mo_image::EntryRef;
use std::marker::Model;

/// The key of a msgid, in a context or in none, to be looked up in one or more catalogues. It is hashed once, when it
/// is made. Its texts are bytes that needn't be UTF-8; a key that isn't is never found. Contracts see it as its bytes.
#[derive(Drop)]
pub struct AskedKey<'a> {
    context: Option<&'a [u8]>,
    id: &'a [u8],
    /// The hash under which an index has the entry with this key, if there is one. It has 32 bits.
    hash: u32,
}

impl<'a> Model for AskedKey<'a> {
    ghost use Rattle.std.specs.Prelude.{ℕ, List, option_map};
    ghost use Rattle.mo_image.specs.Entry.{key_bytes};
    ghost use Rattle.entry_search.specs.Index.{FindsBy};

    ghost Value = { List ℕ };

    ghost view = { λ a. key_bytes (option_map (λ s. s.now) a.context) a.id.now };

    ghost invariant = { λ a. FindsBy (key_bytes (option_map (λ s. s.now) a.context) a.id.now) a.hash };
}

/// Returns the hash under which an index has the entry of a msgid, in a context or in none.
#[inline(always)]
fn hash_of(context: Option<&[u8]>, id: &[u8]) -> u32
    ensures { FindsBy (key_bytes (option_map (λ s. s.now) context.entry) id.now) result }
{
    match context {
        Some(context) => hash_within(context, id),
        None => hash_alone(id),
    }
}

/// Whether an entry is that of a msgid, in a context or in none.
#[inline(always)]
pub(crate) fn has_key(entry: &EntryRef<'_>, context: Option<&[u8]>, id: &[u8]) -> bool
    ensures { result ≡ bytes_eq (key entry.now) (key_bytes (option_map (λ s. s.now) context.entry) id.now) }
{
    let key = entry.key().as_bytes();
    match context {
        Some(context) => is_in_context(key, context, id),
        None => key == id,
    }
}

impl<'a> AskedKey<'a> {
    /// The key of a msgid, in a context or in none.
    #[inline(always)]
    pub fn new(context: Option<&'a [u8]>, id: &'a [u8]) -> AskedKey<'a>
        ensures { result ≡ key_bytes (option_map (λ s. s.now) context.entry) id.now }
    {
        AskedKey {
            context,
            id,
            hash: hash_of(context, id),
        }
    }

    /// Returns the hash under which an index has the entry with this key.
    #[inline(always)]
    pub(crate) fn hash(&self) -> u32
        ensures { FindsBy self.now result }
    {
        self.hash
    }

    /// Returns the context and the msgid.
    #[inline(always)]
    pub(crate) fn texts(&self) -> (Option<&'a [u8]>, &'a [u8])
        ensures { key_bytes (option_map (λ s. s.now) result.0) result.1.now ≡ self.now }
    {
        (self.context, self.id)
    }

    /// Whether this is the key of an entry.
    #[inline(always)]
    pub(crate) fn is_key_of(&self, entry: &EntryRef<'_>) -> bool
        ensures { result ≡ bytes_eq (key entry.now) self.now }
    {
        has_key(entry, self.context, self.id)
    }
}
