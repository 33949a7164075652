//! The part of an input that has come, and where its lines end.
ghost use Rattle.std.specs.Prelude.{◌≡◌, ◌⊎◌, ◌<◌, ◌≤◌, [], IfErr, IfNone, IfOk, IfSome, IsErrOf, MatchOption};
ghost use Rattle.std.specs.Prelude.{drop, false, length, true, vec_len};
ghost use Rattle.std.specs.Io.KnownBytes.{IsAtEnd};
ghost use Rattle.devices.specs.Devices.{RisesBy};
ghost use Rattle.devices.specs.Incoming.{HasEnd, HasEnds, EndsFewer, EndsLine, EndsLines, LacksEnd, LacksLines};
ghost use Rattle.devices.specs.Arrivals.{Comes};
ghost use Rattle.devices.specs.Waiting.{ReadsOnce, StillCounts, StillWaits, WaitsUntil};
ghost use Rattle.devices.specs.Seeking.{AddsBytes, LosesBytes, Reads, IsKnownEnd, HasNoEnd};

use crate::device::{ReadFault, Source};
use crate::input::MOST_READS;
use bstr::ByteSlice;
use std::alloc::{AllocError, Global};
use std::marker::Model;
use thiserror::Error;

/// Why the end of a line isn't known.
#[derive(Clone, Copy, Debug, PartialEq, Eq, Error)]
pub enum LineInputFault {
    /// The line doesn't end within what a caller takes.
    #[error("the line is too long")]
    TooLong,
    /// The reader failed, or `MOST_READS` reads gave no end of the line.
    #[error("the input can't be read")]
    Unreadable,
    /// Memory ran out.
    #[error("out of memory")]
    Memory,
}

impl From<AllocError> for LineInputFault {
    ghost use Rattle.devices.specs.declared.incoming.LineInputFault.TheVariants.{Memory};

    ghost from_gives = { λ _ fault. fault ≡ Memory };

    fn from(_: AllocError) -> LineInputFault {
        LineInputFault::Memory
    }
}

/// How many bytes one read asks for.
const CHUNK: usize = 65_536;

/// Takes the first bytes off.
fn drop_front(bytes: &mut Vec<u8>, count: usize)
    requires { count ≤ vec_len bytes.old }
    ensures { bytes.new.items ≡ drop count bytes.old.items }
{
    if count > 0 {
        let rest = bytes.len() - count;
        bytes.copy_within(count.., 0);
        bytes.truncate(rest);
    }
}

/// One read through `chunk`, whose bytes go to the end of `bytes`. True where the input has ended.
fn read_chunk<R: Source>(
    reader: &mut R,
    chunk: &mut [u8],
    bytes: &mut Vec<u8>,
) -> Result<bool, LineInputFault>
    requires { 0 < length chunk.old }
    ensures more { IfOk result (λ _.
        AddsBytes (R.remaining reader.old) (R.remaining reader.new) bytes.old.items bytes.new.items) }
    ensures ended { IfOk result (λ ended. ended ≡ true → IsAtEnd (R.remaining reader.new)) }
    ensures lost { IfErr result (λ _.
        LosesBytes (R.remaining reader.old) (R.remaining reader.new) bytes.old.items bytes.new.items) }
    ensures counted { RisesBy 1 (R.reads reader.old) (R.reads reader.new) }
    ensures later { R.failures reader.old ≤ R.failures reader.new }
    ensures cause { IsErrOf result LineInputFault.Unreadable
        → RisesBy 1 (R.failures reader.old) (R.failures reader.new) }
    ensures long { IsErrOf result LineInputFault.TooLong → ⊥ }
    ensures logged { ReadsOnce (R.log reader.old) (R.log reader.new) bytes.old.items bytes.new.items result }
    ensures keeps { R.output reader.new ≡ R.output reader.old }
{
    match reader.read(chunk) {
        Ok(0) => Ok(true),
        Ok(n) => {
            bytes.extend_from_slice(&chunk[..n])?;
            Ok(false)
        }
        Err(ReadFault::Interrupted) => Ok(false),
        Err(ReadFault::Failed) => Err(LineInputFault::Unreadable),
    }
}

/// The part of an input that has come and isn't taken yet.
///
/// A line ends after its LF, or where the input ends, as the last line of a text stream may in ISO C (7.21.2).
#[derive(Drop)]
pub struct LineInput {
    bytes: Vec<u8>,
    taken: usize,
    ended: bool,
    chunk: Vec<u8>,
}

impl Model for LineInput {
    ghost use Rattle.std.specs.Prelude.{◌≤◌, ◌<◌, drop, vec_len, length};
    ghost use Rattle.devices.specs.Incoming.{Incoming};

    ghost Value = { Incoming };

    ghost view = { λ s. record { left = drop s.taken s.bytes.items; ended = s.ended } };

    ghost invariant = { λ s. (s.taken ≤ vec_len s.bytes) × (0 < vec_len s.chunk) };
}

impl LineInput {
    /// An input before its first read.
    pub fn new(alloc: Global) -> Result<LineInput, AllocError>
        ensures { IfOk result (λ input. input ≡ record { left = []; ended = false }) }
    {
        let chunk = vec![in alloc; 0u8; CHUNK]?;
        Ok(LineInput {
            bytes: Vec::new(alloc),
            taken: 0,
            ended: false,
            chunk,
        })
    }

    /// What has come and isn't taken.
    pub fn left(&self) -> &[u8]
        ensures { result.now ≡ self.now.left }
    {
        &self.bytes[self.taken..]
    }

    /// Whether the input has ended: no more comes.
    pub fn has_ended(&self) -> bool
        ensures { result ≡ self.now.ended }
    {
        self.ended
    }

    /// Takes `count` bytes off, or all if there are fewer.
    pub fn take(&mut self, count: usize)
        ensures { self.new ≡ record { left = drop count self.old.left; ended = self.old.ended } }
    {
        let left = self.bytes.len() - self.taken;
        self.taken += count.min(left);
    }

    /// Where the line ends that begins at `from`, if that is known; `from` itself where no line begins there. There is
    /// no LF from there to `searched`.
    fn known_end(&self, from: usize, searched: usize) -> Option<usize>
        requires low { from ≤ searched }
        requires high { searched ≤ length self.now.left }
        requires lacks { LacksEnd self.now.left from searched }
        ensures { MatchOption result (HasNoEnd self.now from) (λ end. IsKnownEnd self.now from end) }
    {
        let left = self.left();
        if let Some(at) = (&left[searched..]).find_byte(b'\n') {
            return Some(searched + at + 1);
        }
        if self.has_ended() {
            return Some(left.len());
        }
        None
    }

    /// Reads once. Before that what was taken is dropped.
    fn read_more<R: Source>(&mut self, reader: &mut R) -> Result<(), LineInputFault>
        requires { self.old.ended ≡ false }
        ensures comes { Reads (R.remaining reader.old) (R.remaining reader.new) self.old self.new result }
        ensures counted { RisesBy 1 (R.reads reader.old) (R.reads reader.new) }
        ensures later { R.failures reader.old ≤ R.failures reader.new }
        ensures cause { IsErrOf result LineInputFault.Unreadable
            → RisesBy 1 (R.failures reader.old) (R.failures reader.new) }
        ensures long { IsErrOf result LineInputFault.TooLong → ⊥ }
        ensures logged { ReadsOnce (R.log reader.old) (R.log reader.new) self.old.left self.new.left result }
        ensures keeps { R.output reader.new ≡ R.output reader.old }
    {
        drop_front(&mut self.bytes, self.taken);
        self.taken = 0;
        self.ended = read_chunk(reader, &mut self.chunk, &mut self.bytes)?;
        Ok(())
    }

    /// Where the line ends that begins at `from`: after its LF, or at the end of the input. It reads more only while
    /// no end of the line has come. None: no line begins there, the input has ended.
    ///
    /// At most `devices::MOST_READS` reads are tried, and one that is interrupted is tried again. After a fault that
    /// isn't `TooLong` some bytes may have been read and lost.
    pub fn line_end<R: Source>(
        &mut self,
        reader: &mut R,
        from: usize,
        most: usize,
    ) -> Result<Option<usize>, LineInputFault>
        requires { from ≤ length self.old.left }
        ensures comes { Comes (R.remaining reader.old) (R.remaining reader.new) self.old self.new result }

        // What the answers say.
        ensures line { IfOk result (λ found. IfSome found (λ end. EndsLine self.new from end)) }
        ensures within { IfOk result (λ found. IfSome found (λ end. end ≤ most)) }
        ensures none { IfOk result (λ found. IfNone found ((self.new.ended ≡ true) × (length self.new.left ≡ from))) }
        ensures long { IsErrOf result LineInputFault.TooLong
            → (most < length self.new.left) × LacksEnd self.new.left from most }
        ensures cause { IsErrOf result LineInputFault.Unreadable
            → RisesBy 1 (R.failures reader.old) (R.failures reader.new)
            ⊎ RisesBy MOST_READS (R.reads reader.old) (R.reads reader.new) }

        // How the reader is used: not at all where the end of the line is there.
        ensures later { R.failures reader.old ≤ R.failures reader.new }
        ensures reads { RisesBy 0 (R.reads reader.old) (R.reads reader.new) }
        ensures lazy { HasEnd self.old from → (reader.new ≡ reader.old) × (self.new ≡ self.old) }
        ensures waits { WaitsUntil (R.log reader.old) (R.log reader.new) self.old self.new
            (StillWaits self.old from) result }
        ensures keeps { R.output reader.new ≡ R.output reader.old }
    {
        let mut searched = from;
        for turn in 0..MOST_READS {
            if let Some(end) = self.known_end(from, searched) {
                if end == from {
                    return Ok(None);
                }
                if end > most {
                    return Err(LineInputFault::TooLong);
                }
                return Ok(Some(end));
            }
            searched = self.left().len();
            if searched > most {
                return Err(LineInputFault::TooLong);
            }
            self.read_more(reader)?;
        }
        Err(LineInputFault::Unreadable)
    }

    /// Where `count` lines end that begin at `from`. It reads as `line_end` does. None: the input has ended with fewer.
    ///
    /// The reads of each line are at most `devices::MOST_READS`.
    pub fn lines_end<R: Source>(
        &mut self,
        reader: &mut R,
        from: usize,
        count: u64,
        most: usize,
    ) -> Result<Option<usize>, LineInputFault>
        requires { from ≤ length self.old.left }
        ensures comes { Comes (R.remaining reader.old) (R.remaining reader.new) self.old self.new result }

        // What the answers say.
        ensures lines { IfOk result (λ found. IfSome found (λ end. EndsLines count self.new from end)) }
        ensures within { IfOk result (λ found. IfSome found (λ end. 0 < count → end ≤ most)) }
        ensures none { IfOk result (λ found. IfNone found (LacksLines count self.new from)) }
        ensures long { IsErrOf result LineInputFault.TooLong → EndsFewer count self.new from most }
        ensures cause { IsErrOf result LineInputFault.Unreadable
            → RisesBy 1 (R.failures reader.old) (R.failures reader.new)
            ⊎ RisesBy MOST_READS (R.reads reader.old) (R.reads reader.new) }

        // How the reader is used: not at all where the ends of the lines are there.
        ensures later { R.failures reader.old ≤ R.failures reader.new }
        ensures reads { RisesBy 0 (R.reads reader.old) (R.reads reader.new) }
        ensures lazy { HasEnds count self.old from → (reader.new ≡ reader.old) × (self.new ≡ self.old) }
        ensures waits { WaitsUntil (R.log reader.old) (R.log reader.new) self.old self.new
            (StillCounts count self.old from) result }
        ensures keeps { R.output reader.new ≡ R.output reader.old }
    {
        let mut end = from;
        'lines: for counted in 0..count {
            match self.line_end(reader, end, most)? {
                Some(behind) => end = behind,
                None => return Ok(None),
            }
        }
        Ok(Some(end))
    }
}
