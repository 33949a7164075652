//! The order test for files whose strings overlap. Bytes shared by keys at one distance from each other are compared
//! only once, and once a file has taken much comparing, keys are compared by blocks.
ghost use Rattle.std.specs.Prelude.{◌≡◌, ◌↔◌, ℕ, List, ◌+◌, ◌-◌, ◌<◌, ◌≤◌, length, slice_index, IsTrue, IfOk};
ghost use Rattle.std.specs.Prelude.{IfSome, All};
ghost use Rattle.std.specs.List.Sorted.{IsPermutation};
ghost use Rattle.mo_image.specs.MoFile.{most_file};
ghost use Rattle.mo_tables.specs.Claims.{claims_to, AreAlike, IsAlike, ClaimLies, EndsThere, ClaimHolds};
ghost use Rattle.mo_tables.specs.Blocks.{AreBlocks};

use crate::blocks::Blocks;
use crate::rows::{Row, Span};
use bstr::ByteSlice;
use std::alloc::{AllocError, Global};

/// Two originals. The claim is that the key of `lesser` is below that of `greater`.
#[derive(Clone, Copy)]
pub(crate) struct Claim {
    lesser: Span,
    greater: Span,
}

impl Claim {
    /// The sort key of a claim: claims about the same text come together, and in these, claims whose keys are at the
    /// same distance.
    fn order(&self) -> (usize, usize, usize) {
        let distance = self.lesser.start().abs_diff(self.greater.start());
        let first = if self.lesser.start < self.greater.start {
            self.lesser
        } else {
            self.greater
        };
        (first.end(), distance, first.start())
    }
}

/// Returns one claim per pair of neighbouring rows: the key of each row is below that of the next.
pub(crate) fn read_claims(alloc: Global, rows: &[Row]) -> Result<Vec<Claim>, AllocError>
    ensures { IfOk result (λ claims. claims.items ≡ claims_to rows.now (length rows.now - 1)) }
{
    let n = rows.len().saturating_sub(1);
    let mut claims = Vec::with_capacity(alloc, n)?;
    for i in 0..n {
        claims.push(Claim {
            lesser: rows[i].original,
            greater: rows[i + 1].original,
        })?;
    }
    Ok(claims)
}

/// Sorts the claims so that `all_hold` compares shared bytes only once for each distance.
pub(crate) fn in_order(mut claims: Vec<Claim>) -> Vec<Claim>
    ensures { IsPermutation claims.items result.items }
{
    claims.sort_unstable_by_key(|claim| claim.order());
    claims
}

/// The number of bytes that are compared at once.
const CHUNK: usize = 256;

/// How many times the file's size is compared before the file is cut into blocks.
const COMPARED: usize = 4;

/// The number of bytes that are compared before blocks are looked for.
const LEAD: usize = 1024;

/// How many runs of blocks are looked for in one comparison.
const LEAPS: usize = 16;

/// Returns the length of the longest run of whole chunks that both slices begin with and that holds no NUL.
fn alike_chunks(a: &[u8], b: &[u8]) -> usize
    ensures within { (result ≤ length a.now) × (result ≤ length b.now) }
    ensures alike { AreAlike a.now b.now result }
{
    let chunks = a.len().min(b.len()) / CHUNK;
    for i in 0..chunks {
        let start = i * CHUNK;
        let chunk = &a[start..start + CHUNK];
        let other = &b[start..start + CHUNK];
        if chunk != other {
            return start;
        }
        let None = chunk.find_byte(0) else {
            return start;
        };
    }
    chunks * CHUNK
}

/// Returns the length of the longest prefix that both slices share and that holds no NUL.
fn alike_len(a: &[u8], b: &[u8]) -> usize
    ensures within { (result ≤ length a.now) × (result ≤ length b.now) }
    ensures alike { AreAlike a.now b.now result }
    ensures ends { slice_index a.now result ≡ slice_index b.now result → slice_index a.now result ≡ 0 }
{
    let n = a.len().min(b.len());
    for i in alike_chunks(a, b)..n {
        if a[i] != b[i] || a[i] == 0 {
            return i;
        }
    }
    n
}

/// Returns the greatest common divisor of two numbers, by Euclid's algorithm.
fn greatest_common_divisor(a: usize, b: usize) -> usize
    requires { 0 < b }
    ensures { result ≤ b }
{
    let mut divisor = b;
    let mut rest = a % b;
    'steps: while rest != 0 {
        let next = divisor % rest;
        divisor = rest;
        rest = next;
    }
    divisor
}

/// A part of the file, from `from` up to `to`, that holds no NUL and is repeated `distance` bytes further on.
#[derive(Clone, Copy)]
pub(crate) struct Alike {
    pub(crate) distance: usize,
    pub(crate) from: usize,
    pub(crate) to: usize,
}

impl Alike {
    /// Starts with nothing known: an empty part.
    fn new() -> Alike
        ensures { result ≡ record { distance = 0; from = 0; to = 0 } }
    {
        Alike {
            distance: 0,
            from: 0,
            to: 0,
        }
    }

    /// Returns what is known of the bytes at `offset` and `distance` bytes further on: `self` if it covers the
    /// offset at this distance, else an empty part.
    fn around(self, offset: usize, distance: usize) -> Alike
        ensures distance { result.distance ≡ distance }
        ensures around { (result.from ≤ offset) × (offset ≤ result.to) }
        ensures known { (bytes : List ℕ) → IsAlike bytes self → offset + distance ≤ length bytes
            → IsAlike bytes result }
    {
        if self.distance == distance && self.from <= offset && offset <= self.to {
            return self;
        }
        Alike {
            distance,
            from: offset,
            to: offset,
        }
    }

    /// Extends the part by comparing more bytes, up to `limit` or to where the two copies differ or a NUL ends them.
    /// Adds their number to `spent`.
    fn grown(self, bytes: &[u8], limit: usize, spent: &mut usize) -> Alike
        requires alike { IsAlike bytes.now self }
        requires limit { (self.to ≤ limit) × (limit ≤ length bytes.now) }
        ensures alike { IsAlike bytes.now result }
        ensures same { (result.distance ≡ self.distance) × (result.from ≡ self.from) × (self.to ≤ result.to) }
        ensures ends { limit ≡ length bytes.now → EndsThere bytes.now result }
    {
        let more = alike_len(&bytes[self.to..limit], &bytes[self.to + self.distance..]);
        *spent = spent.saturating_add(more);
        Alike {
            to: self.to + more,
            ..self
        }
    }

    /// Derives the part at a multiple of its distance: a text that repeats itself at one distance repeats itself at
    /// each multiple, so one period answers for all of them.
    ///
    /// For example, the first six bytes of `abababab` repeat at distance 2. At distance 4, `to` is 6 - (4 - 2) = 4: the
    /// first four bytes repeat. In a text of one letter, the period 1 answers for every distance.
    fn at_multiple(self, distance: usize) -> Option<Alike>
        ensures { (bytes : List ℕ) → IsAlike bytes self
            → IfSome result (λ a. IsAlike bytes a × (a.distance ≡ distance)) }
    {
        if self.distance == 0 || distance % self.distance != 0 {
            return None;
        }
        let to = self.to.checked_sub(distance.checked_sub(self.distance)?)?;
        if to < self.from {
            return None;
        }
        Some(Alike {
            distance,
            from: self.from,
            to,
        })
    }

    /// Derives a part at a greater distance: if the text repeats itself with `period`, so does the copy of it that
    /// `self` knows of.
    fn shifted(self, period: Alike, distance: usize) -> Option<Alike>
        ensures { (bytes : List ℕ) → IsAlike bytes self → IsAlike bytes period
            → IfSome result (λ a. IsAlike bytes a × (a.distance ≡ distance)) }
    {
        let more = distance.checked_sub(self.distance)?;
        let repeated = period.at_multiple(more)?;
        let from = repeated.from.max(self.from.saturating_sub(more));
        let to = repeated.to.min(self.to.checked_sub(more)?);
        if to < from {
            return None;
        }
        Some(Alike { distance, from, to })
    }

    /// Derives a period from two copies: a text that is repeated at two distances repeats itself at their difference.
    fn repeated(self, nearer: Alike) -> Option<Alike>
        ensures { (bytes : List ℕ) → IsAlike bytes self → IsAlike bytes nearer → IfSome result (IsAlike bytes) }
    {
        let distance = self.distance.checked_sub(nearer.distance)?;
        let from = self.from.max(nearer.from.saturating_sub(distance));
        let to = self.to.min(nearer.to.checked_sub(distance)?);
        if to < from {
            return None;
        }
        Some(Alike { distance, from, to })
    }

    /// Joins the part with another one at its distance. If there is a gap between them, bytes are compared to close it;
    /// if they differ, the other part is dropped.
    fn joined(self, bytes: &[u8], other: Alike, spent: &mut usize) -> Alike
        requires alike { IsAlike bytes.now self }
        requires other { IsAlike bytes.now other }
        requires distance { other.distance ≡ self.distance }
        ensures alike { IsAlike bytes.now result }
        ensures same { (result.distance ≡ self.distance) × (result.from ≤ self.from) × (self.to ≤ result.to) }
    {
        if other.to <= self.to {
            return self;
        }
        if other.from <= self.from {
            return other;
        }
        let near = if self.to < other.from {
            self.grown(bytes, other.from, spent)
        } else {
            self
        };
        if near.to < other.from {
            return near;
        }
        Alike {
            to: other.to,
            ..near
        }
    }

    /// Extends the part by whole blocks, as far as these tell, and by the bytes before each run of blocks.
    fn grown_by_blocks(self, bytes: &[u8], blocks: &Blocks, spent: &mut usize) -> Alike
        requires alike { IsAlike bytes.now self }
        requires blocks { AreBlocks bytes.now blocks.now }
        ensures alike { IsAlike bytes.now result }
        ensures same { (result.distance ≡ self.distance) × (result.from ≤ self.from) × (self.to ≤ result.to) }
    {
        let mut known = self;
        for _leap in 0..LEAPS {
            let limit = known.to.saturating_add(LEAD).min(bytes.len());
            known = known.grown(bytes, limit, spent);
            if known.to < limit {
                return known;
            }
            let Some(other) = blocks.alike(known.to, known.distance) else {
                return known;
            };
            known = known.joined(bytes, other, spent);
        }
        known
    }

    /// Returns the part that shows where the key at `offset` and the key `distance` bytes further on differ or both
    /// end. Bytes that the period or blocks answer for are not compared again.
    fn compared(
        self,
        bytes: &[u8],
        blocks: &Blocks,
        period: Alike,
        offset: usize,
        distance: usize,
        spent: &mut usize,
    ) -> Alike
        requires alike { IsAlike bytes.now self }
        requires blocks { AreBlocks bytes.now blocks.now }
        requires period { IsAlike bytes.now period }
        requires within { offset + distance ≤ length bytes.now }
        ensures alike { IsAlike bytes.now result }
        ensures distance { result.distance ≡ distance }
        ensures around { (result.from ≤ offset) × (offset ≤ result.to) }
        ensures ends { EndsThere bytes.now result }
    {
        let mut known = self.around(offset, distance);
        if let Some(other) = period.at_multiple(distance) {
            known = known.joined(bytes, other, spent);
        }
        if let Some(other) = self.shifted(period, distance) {
            known = known.joined(bytes, other, spent);
        }
        if !blocks.is_empty() {
            known = known.grown_by_blocks(bytes, blocks, spent);
        }
        known.grown(bytes, bytes.len(), spent)
    }

    /// Returns the period to go on with, after the keys at `offset` have been compared.
    fn after(
        self,
        bytes: &[u8],
        blocks: &Blocks,
        compared: Alike,
        offset: usize,
        spent: &mut usize,
    ) -> Alike
        requires alike { IsAlike bytes.now self }
        requires blocks { AreBlocks bytes.now blocks.now }
        requires compared { IsAlike bytes.now compared }
        requires offset { offset ≤ compared.to }
        ensures { IsAlike bytes.now result }
    {
        let distance = compared.distance;
        if distance == 0 || compared.to - offset < distance {
            return self;
        }
        if self.to <= offset || compared.to <= self.from {
            return compared;
        }
        let period = greatest_common_divisor(self.distance, distance);
        if period == self.distance && self.from <= offset {
            return self;
        }
        let whole = Alike::new().compared(bytes, blocks, self, offset, period, spent);
        if whole.to + period < compared.to + distance {
            return compared;
        }
        whole
    }

    /// Like `after`, but also uses the comparison before this one, of keys that are closer together.
    fn learnt(
        self,
        bytes: &[u8],
        blocks: &Blocks,
        compared: Alike,
        nearer: Alike,
        offset: usize,
        spent: &mut usize,
    ) -> Alike
        requires alike { IsAlike bytes.now self }
        requires blocks { AreBlocks bytes.now blocks.now }
        requires compared { IsAlike bytes.now compared }
        requires nearer { IsAlike bytes.now nearer }
        requires offset { offset ≤ compared.to }
        ensures { IsAlike bytes.now result }
    {
        let period = self.after(bytes, blocks, compared, offset, spent);
        match compared.repeated(nearer) {
            Some(repeated) => period.after(bytes, blocks, repeated, repeated.from, spent),
            None => period,
        }
    }
}

/// Returns the byte at `offset`, or 0 past the end.
fn byte_at(bytes: &[u8], offset: usize) -> u8
    ensures { result ≡ slice_index bytes.now offset }
{
    match bytes.get(offset) {
        Some(byte) => *byte,
        None => 0,
    }
}

/// Whether all claims hold. They may come in any order; after `in_order`, shared bytes are compared once for each
/// distance. Once `COMPARED` times the file's size has been compared, the file is cut into blocks.
pub(crate) fn all_hold(alloc: Global, bytes: &[u8], claims: &[Claim]) -> Result<bool, AllocError>
    requires short { length bytes.now ≤ most_file }
    requires lie { All (ClaimLies bytes.now) claims.now }
    ensures { IfOk result (λ yes. IsTrue yes ↔ All (ClaimHolds bytes.now) claims.now) }
{
    let mut blocks = Blocks::none(alloc);
    let mut spent = 0;
    let mut alike = Alike::new();
    let mut period = Alike::new();
    'claims: for claim in claims {
        blocks = blocks.cut_if(alloc, bytes, COMPARED * bytes.len() < spent)?;
        let lesser = claim.lesser.start();
        let greater = claim.greater.start();
        let offset = lesser.min(greater);
        let distance = lesser.abs_diff(greater);
        let nearer = alike;
        alike = alike.compared(bytes, &blocks, period, offset, distance, &mut spent);
        let shared = alike.to - offset;
        if byte_at(bytes, greater + shared) <= byte_at(bytes, lesser + shared) {
            return Ok(false);
        }
        period = period.learnt(bytes, &blocks, alike, nearer, offset, &mut spent);
    }
    Ok(true)
}
