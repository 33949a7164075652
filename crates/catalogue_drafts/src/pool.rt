//! Texts that are made one after another in blocks of an arena, which costs less than asking the arena for each.
ghost use Rattle.std.specs.Prelude.{◌≡◌, ◌++◌, length, IfOk, OnOk};
ghost use Rattle.std.specs.Str.{IsUtf8};

use bumpalo::Bump;
use std::alloc::AllocError;
use std::mem;

/// The length of a block. It is cleared first, and so few bytes are still in the processor's cache when texts are
/// written over them.
const BLOCK_LEN: usize = 2000;

/// A longer text that doesn't fit into the block gets memory of its own, so that the rest of the block isn't lost.
const MOST_IN_NEXT: usize = 250;

/// An arena, and the bytes of its latest block that are still free.
#[derive(Drop)]
pub struct Pool<'a> {
    arena: &'a Bump,
    free: &'a mut [u8],
}

impl<'a> Pool<'a> {
    /// An empty pool; allocates nothing.
    pub fn new(arena: &'a Bump) -> Pool<'a> {
        Pool {
            arena,
            free: &mut [],
        }
    }

    /// Asks the arena for this many bytes.
    #[cold]
    #[inline(never)]
    fn fresh(&self, len: usize) -> Result<&'a mut [u8], AllocError>
        ensures { IfOk result (λ bytes. length bytes.now ≡ len) }
    {
        self.arena.try_alloc_slice_fill_clone(len, 0u8)
    }

    /// Takes this many bytes, which may have any values.
    fn take(&mut self, len: usize) -> Result<&'a mut [u8], AllocError>
        ensures { IfOk result (λ bytes. length bytes.now ≡ len) }
    {
        if self.free.len() < len {
            if len > MOST_IN_NEXT {
                return self.fresh(len);
            }
            self.free = self.fresh(BLOCK_LEN)?;
        }
        let (bytes, rest) = mem::take(&mut self.free).split_at_mut(len);
        self.free = rest;
        Ok(bytes)
    }

    /// Copies a key and what is kept besides it, as one text.
    pub fn join(&mut self, key: &str, kept: &str) -> Result<&'a str, AllocError>
        ensures joined { IfOk result (λ text. text.now ≡ key.now ++ kept.now) }
        ensures utf8 { OnOk result (IsUtf8 kept.now) }
    {
        let Some(len) = key.len().checked_add(kept.len()) else {
            return Err(AllocError);
        };
        let bytes = self.take(len)?;
        let (front, rest) = bytes.split_at_mut(key.len());
        front.copy_from_slice(key.as_bytes());
        rest.copy_from_slice(kept.as_bytes());
        Ok(unsafe { str::from_utf8_unchecked(bytes) })
    }
}
