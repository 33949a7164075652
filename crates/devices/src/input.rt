//! Reading a whole input, up to a limit.
ghost use Rattle.std.specs.Prelude.{◌≡◌, ◌⊎◌, ◌<◌, ◌≤◌, IfOk, IsErrOf, false, length, true};
ghost use Rattle.std.specs.Io.KnownBytes.{Consumes};
ghost use Rattle.devices.specs.Devices.{IsFront, RisesBy};
ghost use Rattle.devices.specs.Chunks.{IsWhole, ReadsMore};

use crate::device::{ReadFault, Source};
use std::alloc::{AllocError, Global};
use thiserror::Error;

/// How many reads of one input are tried.
pub const MOST_READS: u32 = 134_217_728;

/// How many bytes one read asks for.
const CHUNK: usize = 16_384;

/// Why an input couldn't be read.
#[derive(Clone, Copy, Debug, PartialEq, Eq, Error)]
pub enum InputFault {
    /// The reader failed, or `MOST_READS` reads didn't reach the end.
    #[error("the input can't be read")]
    Unreadable,
    /// Memory ran out.
    #[error("out of memory")]
    Memory,
}

impl From<AllocError> for InputFault {
    ghost use Rattle.devices.specs.declared.input.InputFault.TheVariants.{Memory};

    ghost from_gives = { λ _ fault. fault ≡ Memory };

    fn from(_: AllocError) -> InputFault {
        InputFault::Memory
    }
}

/// One read through `chunk`, whose bytes go to the end of `bytes`. True where that was all: `limit` bytes
/// are there, or no more are left.
#[tactic(auto, using(crate::proofs::ReadLemmas::one_read))]
fn read_some<R: Source>(
    reader: &mut R,
    chunk: &mut [u8],
    bytes: &mut Vec<u8>,
    limit: usize,
) -> Result<bool, InputFault>
    requires { length bytes.old.items ≤ limit }
    ensures more { IfOk result (λ _.
        ReadsMore (R.remaining reader.old) (R.remaining reader.new) bytes.old.items bytes.new.items) }
    ensures within { IfOk result (λ _. length bytes.new.items ≤ limit) }
    ensures all { IfOk result (λ all.
        all ≡ true → 0 < length chunk.old → IsWhole (R.remaining reader.new) limit bytes.new.items) }
    ensures counted { IfOk result (λ all. all ≡ false → RisesBy 1 (R.reads reader.old) (R.reads reader.new)) }
    ensures later { R.failures reader.old ≤ R.failures reader.new }
    ensures cause { IsErrOf result InputFault.Unreadable → RisesBy 1 (R.failures reader.old) (R.failures reader.new) }
{
    let most = chunk.len().min(limit - bytes.len());
    if most == 0 {
        return Ok(true);
    }
    match reader.read(&mut chunk[..most]) {
        Ok(0) => Ok(true),
        Ok(n) => {
            bytes.extend_from_slice(&chunk[..n])?;
            Ok(false)
        }
        Err(ReadFault::Interrupted) => Ok(false),
        Err(ReadFault::Failed) => Err(InputFault::Unreadable),
    }
}

/// The first `limit` bytes of an input, in at most `most_reads` reads through `chunk`. They have room for `expected`
/// bytes from the start.
#[tactic(auto, using(crate::proofs::ReadLemmas::many_reads))]
pub(crate) fn read_within<R: Source>(
    alloc: Global,
    reader: &mut R,
    chunk: &mut [u8],
    limit: usize,
    expected: usize,
    most_reads: u32,
) -> Result<Vec<u8>, InputFault>
    requires { 0 < length chunk.old }
    ensures bytes { IfOk result (λ v. IsFront limit (R.remaining reader.old) v.items) }
    ensures none_lost { IfOk result (λ v. Consumes (R.remaining reader.old) (R.remaining reader.new) v.items) }
    ensures later { R.failures reader.old ≤ R.failures reader.new }
    ensures cause { IsErrOf result InputFault.Unreadable
        → RisesBy 1 (R.failures reader.old) (R.failures reader.new)
        ⊎ RisesBy most_reads (R.reads reader.old) (R.reads reader.new) }
{
    let mut bytes = Vec::with_capacity(alloc, expected.min(limit))?;
    for turn in 0..most_reads {
        if read_some(reader, chunk, &mut bytes, limit)? {
            return Ok(bytes);
        }
    }
    Err(InputFault::Unreadable)
}

/// The first `limit` bytes of an input, or all of them where it has no more.
///
/// A read that is interrupted is tried again. After a fault some bytes may have been read and lost.
pub fn read_all<R: Source>(
    alloc: Global,
    reader: &mut R,
    limit: usize,
) -> Result<Vec<u8>, InputFault>
    ensures bytes { IfOk result (λ v. IsFront limit (R.remaining reader.old) v.items) }
    ensures none_lost { IfOk result (λ v. Consumes (R.remaining reader.old) (R.remaining reader.new) v.items) }
    ensures later { R.failures reader.old ≤ R.failures reader.new }
    ensures cause { IsErrOf result InputFault.Unreadable
        → RisesBy 1 (R.failures reader.old) (R.failures reader.new)
        ⊎ RisesBy MOST_READS (R.reads reader.old) (R.reads reader.new) }
{
    read_expected(alloc, reader, limit, 0)
}

/// Reads an input as `read_all` does, into memory for `expected` bytes. That saves the input from being moved while it
/// grows, if it has that length; it may have any other. A file has its length in its metadata.
pub fn read_expected<R: Source>(
    alloc: Global,
    reader: &mut R,
    limit: usize,
    expected: usize,
) -> Result<Vec<u8>, InputFault>
    ensures bytes { IfOk result (λ v. IsFront limit (R.remaining reader.old) v.items) }
    ensures none_lost { IfOk result (λ v. Consumes (R.remaining reader.old) (R.remaining reader.new) v.items) }
    ensures later { R.failures reader.old ≤ R.failures reader.new }
    ensures cause { IsErrOf result InputFault.Unreadable
        → RisesBy 1 (R.failures reader.old) (R.failures reader.new)
        ⊎ RisesBy MOST_READS (R.reads reader.old) (R.reads reader.new) }
{
    let mut chunk = vec![in alloc; 0u8; CHUNK]?;
    read_within(alloc, reader, &mut chunk, limit, expected, MOST_READS)
}
