//! The lines of a session as they arrive, and what they say.
ghost use Rattle.std.specs.Prelude.{◌≡◌, ◌+◌, ◌<◌, ◌≤◌, ◌^◌, ℕ, IfOk, IfErr, Some, None, drop, take};
ghost use Rattle.devices.specs.Lines.{without_end};
ghost use Rattle.script_text.specs.Commands.{line_of};
ghost use Rattle.script_text.specs.LineValues.{line_value};
ghost use Rattle.script_text.specs.Texts.{most_script};
ghost use Rattle.devices.specs.Incoming.{EndsLine};
ghost use Rattle.devices.specs.Waiting.{ReadsWhile, StillCounts, StillWaits, WaitsUntil};
ghost use Rattle.catserve.specs.Timing.{BeginsInTime, HearsInTime, ReadsText};
ghost use Rattle.devices.specs.Devices.{input_seen};
ghost use Rattle.catserve.specs.Session.{most_lines, AnswersInTime};
ghost use Rattle.catserve.specs.Hearing.{unheard_session, EndsNext, FailsFor, FailsInPreamble, HearsNothing};
ghost use Rattle.catserve.specs.Hearing.{HearsNoText, commands_of, line_of_kind, size_behind, HearsText};

use crate::said::{PreambleLine, read_preamble_line, read_said};
use crate::session_fault::SessionFault;
use devices::{LineInput, LineInputFault, Source};
use script_text::{DEFAULT_WORKERS, Line, MOST_SCRIPT, ScriptKind};
use simdutf8::is_utf8;
use std::alloc::{AllocError, Global};
use std::marker::Model;

/// The most lines that a session may have.
const MOST_LINES: u64 = 1 << 63;

/// A line that was heard, and the text of its load.
#[derive(Drop)]
pub(crate) struct Heard {
    pub(crate) line: Line,
    pub(crate) text: Vec<u8>,
}

/// The input of a session, the number of its next line, and the size of its open round in bytes.
#[derive(Drop)]
pub(crate) struct Hearing {
    input: LineInput,
    number: u64,
    size: usize,
}

impl Model for Hearing {
    ghost use Rattle.std.specs.Prelude.{◌≤◌};
    ghost use Rattle.script_text.specs.Texts.{most_script};
    ghost use Rattle.catserve.specs.Hearing.{HearingValue};

    ghost Value = { HearingValue };

    ghost view = { λ h. record { input = h.input; number = h.number; size = h.size } };

    ghost invariant = { λ h. h.size ≤ most_script };
}

impl Hearing {
    /// A session whose input hasn't been read.
    pub(crate) fn new(alloc: Global) -> Result<Hearing, AllocError>
        ensures { IfOk result (λ hearing. hearing ≡ unheard_session) }
    {
        Ok(Hearing {
            input: LineInput::new(alloc)?,
            number: 1,
            size: 0,
        })
    }

    /// A fault at the next line. Running out of memory isn't one of a line.
    fn fault_here(&self, kind: ScriptKind) -> SessionFault
        ensures { result ≡ record { kind = kind; line = line_of_kind kind self.now.number } }
    {
        let line = match kind {
            ScriptKind::Memory => 0,
            _ => self.number,
        };
        SessionFault { kind, line }
    }

    /// The fault of an input that gives no end of the next line.
    fn fault_of(&self, fault: LineInputFault) -> SessionFault
        ensures { FailsFor fault self.now.number result }
    {
        match fault {
            LineInputFault::TooLong => self.fault_here(ScriptKind::TooLarge),
            LineInputFault::Unreadable => SessionFault::from(ScriptKind::ReadFault),
            LineInputFault::Memory => SessionFault::from(ScriptKind::Memory),
        }
    }

    /// Takes off the next `bytes` bytes, which are `lines` lines.
    fn take(&mut self, bytes: usize, lines: u64)
        requires size { self.old.size + bytes ≤ most_script }
        requires number { self.old.number + lines < 2 ^ 64 }
        ensures { self.new ≡ record {
          input = record { left = drop bytes self.old.input.left; ended = self.old.input.ended };
          number = self.old.number + lines;
          size = self.old.size + bytes;
        } }
    {
        self.input.take(bytes);
        self.number += lines;
        self.size += bytes;
    }

    /// Where the next line ends. None: the input has ended.
    fn next_end<R: Source>(&mut self, reader: &mut R) -> Result<Option<usize>, SessionFault>
        ensures found { let input = input_seen R.remaining R.reads R.failures in
            IfOk result (λ end. EndsNext (input reader.old) (input reader.new) self.old self.new end) }
        ensures fault { let input = input_seen R.remaining R.reads R.failures in
            IfErr result (λ fault.
            HearsNothing (input reader.old) (input reader.new) self.old self.new fault.kind fault.line) }
        ensures waits { WaitsUntil (R.log reader.old) (R.log reader.new) self.old.input self.new.input
            (StillWaits self.old.input 0) result }
        ensures keeps { R.output reader.new ≡ R.output reader.old }
    {
        if self.number >= MOST_LINES {
            return Err(self.fault_here(ScriptKind::TooLarge));
        }
        match self.input.line_end(reader, 0, MOST_SCRIPT - self.size) {
            Ok(end) => Ok(end),
            Err(fault) => Err(self.fault_of(fault)),
        }
    }

    /// Takes off the line that ends at `end` and the `count` lines that follow it. Returns the bytes of those `count`
    /// lines.
    fn hear_text<R: Source>(
        &mut self,
        alloc: Global,
        reader: &mut R,
        end: usize,
        count: u64,
    ) -> Result<Vec<u8>, SessionFault>
        requires line { EndsLine self.old.input 0 end }
        requires size { self.old.size + end ≤ most_script }
        requires few { self.old.number < most_lines }
        ensures heard { let input = input_seen R.remaining R.reads R.failures in
            IfOk result (λ bytes.
            HearsText (input reader.old) (input reader.new) self.old self.new end count bytes.items) }
        ensures fault { let input = input_seen R.remaining R.reads R.failures in
            IfErr result (λ fault.
            HearsNoText (input reader.old) (input reader.new) self.old self.new end count fault.kind fault.line) }
        ensures waits { IfOk result (λ bytes. ReadsText (R.log reader.old) (R.log reader.new) self.old.input
            self.new.input end count bytes.items) }
        ensures waited { IfErr result (λ _. ReadsWhile (R.log reader.old) (R.log reader.new)
            (StillCounts count self.old.input end)) }
        ensures keeps { R.output reader.new ≡ R.output reader.old }
    {
        let most = MOST_SCRIPT - self.size;
        let found = match self.input.lines_end(reader, end, count, most) {
            Ok(found) => found,
            Err(fault) => return Err(self.fault_of(fault)),
        };
        let Some(text_end) = found else {
            return Err(self.fault_here(ScriptKind::BadLine));
        };
        let left = self.input.left();
        if !is_utf8(&left[..text_end]) {
            return Err(self.fault_here(ScriptKind::NotUtf8));
        }
        let Ok(bytes) = left[end..text_end].to_vec(alloc) else {
            return Err(SessionFault::from(ScriptKind::Memory));
        };
        self.take(text_end, 1 + count);
        Ok(bytes)
    }

    /// Counts the bytes of the next round from here, if this was the end of a round.
    fn end_round(&mut self, heard: &Heard)
        ensures { self.new ≡ record self.old { size = size_behind (commands_of heard.now) self.old.size } }
    {
        match &heard.line {
            Line::Goes => self.size = 0,
            Line::Blank | Line::Loads { .. } | Line::LoadsMo { .. } | Line::Asks { .. } => {}
        }
    }

    /// Takes off the line that ends at `end` and says this, with the lines of its text.
    fn hear_said<R: Source>(
        &mut self,
        alloc: Global,
        reader: &mut R,
        end: usize,
        line: Line,
    ) -> Result<Option<Heard>, SessionFault>
        requires line { EndsLine self.old.input 0 end }
        requires size { self.old.size + end ≤ most_script }
        requires few { self.old.number < most_lines }
        ensures heard { let input = input_seen R.remaining R.reads R.failures in (workers : ℕ)
            → line_of workers (without_end (take end self.old.input.left)) ≡ Some (line_value line)
            → HearsInTime (input reader.old) (input reader.new) (R.log reader.old) (R.log reader.new) workers self.old
            self.new result }
        ensures keeps { R.output reader.new ≡ R.output reader.old }
    {
        let text = match self.hear_text(alloc, reader, end, line.text_lines()) {
            Ok(text) => text,
            Err(fault) => return Err(fault),
        };
        let heard = Heard { line, text };
        self.end_round(&heard);
        Ok(Some(heard))
    }

    /// The next line of a session with this number of workers, with its text. None: the input has ended. It reads only
    /// if the line and its text haven't come yet.
    pub(crate) fn hear<R: Source>(
        &mut self,
        alloc: Global,
        workers: u32,
        reader: &mut R,
    ) -> Result<Option<Heard>, SessionFault>
        ensures heard { let input = input_seen R.remaining R.reads R.failures in
            HearsInTime (input reader.old) (input reader.new) (R.log reader.old) (R.log reader.new) workers self.old
            self.new result }
        ensures keeps { R.output reader.new ≡ R.output reader.old }
    {
        let found = match self.next_end(reader) {
            Ok(found) => found,
            Err(fault) => return Err(fault),
        };
        let Some(end) = found else {
            return Ok(None);
        };
        match read_said(alloc, workers, &self.input.left()[..end]) {
            Ok(said) => self.hear_said(alloc, reader, end, said),
            Err(kind) => Err(self.fault_here(kind)),
        }
    }

    /// The number of workers: what the first line that says something gives, or `DEFAULT_WORKERS`. Takes off the lines
    /// before it that say nothing, and the line itself if it gives the number.
    pub(crate) fn hear_preamble<R: Source>(&mut self, reader: &mut R) -> Result<u32, SessionFault>
        requires { self.old ≡ unheard_session }
        ensures begins { let input = input_seen R.remaining R.reads R.failures in
            IfOk result (λ workers. BeginsInTime None (input reader.old) (input reader.new) self.new workers
            (R.log reader.old) (R.log reader.new)) }
        ensures fault { let input = input_seen R.remaining R.reads R.failures in
            IfErr result (λ fault. FailsInPreamble (input reader.old) (input reader.new) fault.kind fault.line) }
        ensures in_time { IfErr result (λ _. AnswersInTime None (R.log reader.old) (R.log reader.new)) }
        ensures keeps { R.output reader.new ≡ R.output reader.old }
    {
        'preamble: while let Some(end) = self.next_end(reader)? {
            match read_preamble_line(&self.input.left()[..end]) {
                PreambleLine::NotUtf8 => return Err(self.fault_here(ScriptKind::NotUtf8)),
                PreambleLine::Blank => self.take(end, 1),
                PreambleLine::Workers(workers) => {
                    self.take(end, 1);
                    return Ok(workers);
                }
                PreambleLine::Other => return Ok(DEFAULT_WORKERS),
            }
        }
        Ok(DEFAULT_WORKERS)
    }
}
