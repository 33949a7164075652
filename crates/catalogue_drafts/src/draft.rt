//! An entry that was read, before the entries are sorted.
ghost use Rattle.std.specs.Prelude.{◌≡◌};
ghost use Rattle.catalogue_drafts.specs.Keyed.{IsKeyed};

use crate::texts::{Share, Standing, Texts, split_kept};
use byte_text::TextKey;
use std::mem::size_of;

/// An entry that was read. It borrows its text and is small, since drafts are moved when they are sorted.
#[derive(Drop)]
pub struct Draft<'a> {
    /// The entry's key, followed by what is kept of the entry besides it: its forms, with NUL between them, and before
    /// them its plural and a NUL, if it has one.
    pub text: &'a str,
    /// The first eight bytes of the key as a big-endian number. Two keys are mostly told apart by this number and the
    /// next one, without reading the texts.
    pub front: u64,
    /// The eight bytes of the key after those, as such a number.
    pub next: u64,
    /// The length of the key in bytes.
    pub key_len: u32,
    /// The index of the entry in the PO text.
    pub number: u32,
    pub line: u32,
    pub share: Share,
    pub standing: Standing,
    ghost keyed: { IsKeyed text.now key_len front next },
}

// A larger draft makes the compiler slower.
const _: () = prove!(size_of::<Draft<'_>>() == 48);

impl<'a> Draft<'a> {
    ghost use Rattle.std.specs.Prelude.{is_some, option_map};
    ghost use Rattle.catalogue_drafts.specs.Drafts.{kept_in, outline};
    ghost use Rattle.catalogue_drafts.specs.Shares.{kept_texts};

    /// The entry's key.
    #[inline(always)]
    pub fn key(&self) -> &'a str
        ensures { result.now ≡ (outline self.now).key }
    {
        &self.text[..self.key_len as usize]
    }

    /// The entry's key with its front.
    #[inline(always)]
    pub fn fronted_key(&self) -> TextKey<'a>
        ensures { result ≡ (outline self.now).key }
    {
        TextKey::with_front(self.key(), self.front)
    }

    /// What is kept of the entry besides its key.
    #[inline(always)]
    fn kept(&self) -> &'a str
        ensures { result.now ≡ kept_in self.now }
    {
        &self.text[self.key_len as usize..]
    }

    /// Whether the entry is kept.
    pub fn is_kept(&self) -> bool
        ensures { result ≡ is_some (outline self.now).texts }
    {
        self.share != Share::Dropped
    }

    /// The texts that are kept besides the key, or `None` if the entry isn't kept.
    #[inline(always)]
    pub fn texts(&self) -> Option<Texts<'a>>
        ensures { option_map kept_texts result ≡ (outline self.now).texts }
    {
        split_kept(self.share, self.kept())
    }
}
