//! Blocks of a file, by which long texts are compared: each block has a number, and blocks with the same number have
//! the same bytes. Where blocks end depends only on the bytes before, so equal texts are mostly cut alike.
ghost use Rattle.std.specs.Prelude.{◌≡◌, ℕ, List, ◌+◌, ◌<◌, ◌≤◌, length, IsTrue, IfOk, IfSome};
ghost use Rattle.mo_image.specs.MoFile.{most_file};
ghost use Rattle.mo_tables.specs.Claims.{AreAlike, IsAlike};
ghost use Rattle.mo_tables.specs.Blocks.{IsText, LacksNul, AreSame, AreFirsts, AreBlocks};

use crate::claims::Alike;
use bstr::ByteSlice;
use mo_image::MAX_LEN;
use std::alloc::{AllocError, Global};
use std::hash::{FoldHasher, Hasher};

/// How far behind the offset of its least hash a block ends. No block but the last is shorter.
const WINDOW: usize = 256;

/// An odd number with its bits well mixed, by which bytes are hashed. The hash at a offset is made of the 64 bytes
/// before it.
const MULTIPLIER: u64 = 0x9e37_79b9_7f4a_7c15;

/// The number of slots for each block in the table of their bytes.
const SLOTS: usize = 4;

/// How many blocks are tried until one begins in both copies of a text.
const TRIES: usize = 16;

/// Cuts a file into blocks that lie end to end. Returns where they begin, and where the last one ends. A block ends
/// where the least hash in it has stood for `WINDOW` bytes.
fn cuts(alloc: Global, bytes: &[u8]) -> Result<Vec<u32>, AllocError>
    requires { length bytes.now ≤ most_file }
{
    let mut starts = Vec::with_capacity(alloc, bytes.len() / WINDOW + 2)?;
    starts.push(0)?;
    let mut hash: u64 = 0;
    let mut least = u64::MAX;
    let mut since: usize = 0;
    for i in 0..bytes.len() {
        let mixed = u64::from(bytes[i]).wrapping_mul(MULTIPLIER);
        hash = hash.wrapping_add(hash).wrapping_add(mixed);
        since = since.wrapping_add(1);
        if hash < least {
            least = hash;
            since = 0;
        } else if since == WINDOW {
            starts.push(i as u32)?;
            least = u64::MAX;
        }
    }
    starts.push(bytes.len() as u32)?;
    Ok(starts)
}

/// Returns the bytes of the k-th block, if there is one.
fn block_at<'a>(bytes: &'a [u8], starts: &[u32], k: u32) -> Option<&'a [u8]>
    ensures { IfSome result (λ text. IsText bytes.now starts.now k text.now) }
{
    let k = k as usize;
    let start = *starts.get(k)? as usize;
    let end = *starts.get(k + 1)? as usize;
    bytes.get(start..end)
}

/// Returns the slot of a block with these bytes.
fn slot_of(block: &[u8], slots: usize) -> usize {
    let mut hasher = FoldHasher::default();
    hasher.write(block);
    let hash = hasher.finish() >> 32;
    (hash.wrapping_mul(slots as u64) >> 32) as usize
}

/// Whether a block holds no NUL.
fn lacks_nul(block: &[u8]) -> bool
    ensures { IsTrue result → LacksNul block.now }
{
    block.find_byte(0).is_none()
}

/// Returns the first block with the bytes of the k-th one, which may be that block itself. There is no answer if it
/// holds NUL, or if other bytes have its slot.
fn first_like(bytes: &[u8], starts: &[u32], slots: &mut [u32], k: u32) -> Option<u32>
    ensures { IfSome result (λ first. AreSame bytes.now starts.now k first) }
{
    let block = block_at(bytes, starts, k)?;
    if !lacks_nul(block) {
        return None;
    }
    let slot = slots.get_mut(slot_of(block, slots.len()))?;
    let first = *slot;
    if first == 0 {
        *slot = k;
        return Some(k);
    }
    if block_at(bytes, starts, first)? == block {
        Some(first)
    } else {
        None
    }
}

/// Returns for each block the first block with the same bytes, or 0.
fn first_blocks(alloc: Global, bytes: &[u8], starts: &[u32]) -> Result<Vec<u32>, AllocError>
    ensures { IfOk result (λ firsts. AreFirsts bytes.now starts.now firsts.items) }
{
    let count = starts.len().min(MAX_LEN);
    let mut slots = vec![in alloc; 0u32; SLOTS * count]?;
    let mut firsts = Vec::with_capacity(alloc, count)?;
    for k in 0..count {
        let first = first_like(bytes, starts, &mut slots, k as u32);
        firsts.push(first.unwrap_or(0))?;
    }
    Ok(firsts)
}

/// Returns how many numbers both lists begin with, up to a 0.
fn alike_numbers(a: &[u32], b: &[u32]) -> usize
    ensures within { (result ≤ length a.now) × (result ≤ length b.now) }
    ensures alike { AreAlike a.now b.now result }
{
    let n = a.len().min(b.len());
    for i in 0..n {
        if a[i] != b[i] || a[i] == 0 {
            return i;
        }
    }
    n
}

/// The blocks of a file, or none as long as there is no need of them.
#[derive(Drop)]
pub(crate) struct Blocks {
    /// Where the blocks begin, and where the last one ends.
    starts: Vec<u32>,
    /// For each block the first block with the same bytes, or 0: it holds NUL, or the table had no room for it. (The
    /// first block of a file holds NUL in its header.)
    firsts: Vec<u32>,
}

impl Blocks {
    /// Starts with no blocks.
    pub(crate) fn none(alloc: Global) -> Blocks
        ensures { (bytes : List ℕ) → AreBlocks bytes result }
    {
        Blocks {
            starts: Vec::new(alloc),
            firsts: Vec::new(alloc),
        }
    }

    /// Cuts a file into blocks, and numbers them. They take at most a tenth of the file's size.
    pub(crate) fn of(alloc: Global, bytes: &[u8]) -> Result<Blocks, AllocError>
        requires { length bytes.now ≤ most_file }
        ensures { IfOk result (AreBlocks bytes.now) }
    {
        let starts = cuts(alloc, bytes)?;
        let firsts = first_blocks(alloc, bytes, &starts)?;
        Ok(Blocks { starts, firsts })
    }

    /// Cuts a file into blocks, if that is needed and hasn't been done.
    pub(crate) fn cut_if(
        self,
        alloc: Global,
        bytes: &[u8],
        needed: bool,
    ) -> Result<Blocks, AllocError>
        requires short { length bytes.now ≤ most_file }
        requires blocks { AreBlocks bytes.now self }
        ensures { IfOk result (AreBlocks bytes.now) }
    {
        if needed && self.is_empty() {
            Blocks::of(alloc, bytes)
        } else {
            Ok(self)
        }
    }

    /// Whether there are no blocks.
    pub(crate) fn is_empty(&self) -> bool {
        self.starts.is_empty()
    }

    /// Returns the first block that begins at this offset or behind it.
    fn first_at(&self, offset: usize) -> usize
        ensures { result ≤ length self.now.starts.items }
    {
        self.starts
            .partition_point(|start| (*start as usize) < offset)
    }

    /// Returns the part that the blocks from the i-th on have in common with those from the j-th on, if these begin
    /// `distance` bytes further on.
    fn run(&self, i: usize, j: usize, distance: usize) -> Option<Alike>
        ensures { (bytes : List ℕ) → AreBlocks bytes self.now
            → IfSome result (λ a. IsAlike bytes a × (a.distance ≡ distance)) }
    {
        let from = *self.starts.get(i)? as usize;
        let other = *self.starts.get(j)? as usize;
        if other.checked_sub(from)? != distance {
            return None;
        }
        let n = alike_numbers(self.firsts.get(i..)?, self.firsts.get(j..)?);
        if n == 0 {
            return None;
        }
        let to = *self.starts.get(i + n)? as usize;
        Some(Alike { distance, from, to })
    }

    /// Returns a part behind this offset that is repeated `distance` bytes further on: whole blocks that are cut alike
    /// in both copies and have the same numbers.
    pub(crate) fn alike(&self, offset: usize, distance: usize) -> Option<Alike>
        ensures { (bytes : List ℕ) → AreBlocks bytes self.now
            → IfSome result (λ a. IsAlike bytes a × (a.distance ≡ distance)) }
    {
        let first = self.first_at(offset);
        for i in first..first + TRIES {
            let start = *self.starts.get(i)? as usize;
            let j = self.first_at(start.saturating_add(distance));
            if let Some(alike) = self.run(i, j, distance) {
                return Some(alike);
            }
        }
        None
    }
}
