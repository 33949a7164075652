//! What a line of a session says, whatever input it comes from.
ghost use Rattle.std.specs.Prelude.{◌≡◌, IfOk, IfErr, Some};
ghost use Rattle.devices.specs.Lines.{without_end};
ghost use Rattle.script_text.specs.Commands.{line_of};
ghost use Rattle.script_text.specs.LineValues.{line_value};
ghost use Rattle.catserve.specs.Hearing.{IsPreambleLine, IsUnsaid};

use byte_text::split_at_byte;
use script_text::{Line, LineFault, ScriptKind, read_line, read_workers, says_nothing};
use simdutf8::compat::from_utf8;
use std::alloc::Global;

/// What a line before the first command is.
#[derive(Clone, Copy)]
pub(crate) enum PreambleLine {
    /// It isn't UTF-8.
    NotUtf8,
    /// It says nothing.
    Blank,
    /// It gives the number of workers.
    Workers(u32),
    /// It is the first command, or a bad line.
    Other,
}

/// A line without its LF.
fn without_lf(line: &str) -> &str
    ensures { result.now ≡ without_end line.now }
{
    match split_at_byte(line, b'\n') {
        Some((text, _)) => text,
        None => line,
    }
}

/// What a line says in a session with this number of workers. `BadLine` if such a session can't have it.
pub(crate) fn read_said(alloc: Global, workers: u32, line: &[u8]) -> Result<Line, ScriptKind>
    ensures ok { IfOk result (λ said. line_of workers (without_end line.now) ≡ Some (line_value said)) }
    ensures fault { IfErr result (IsUnsaid workers line.now) }
{
    let Ok(text) = from_utf8(line) else {
        return Err(ScriptKind::NotUtf8);
    };
    match read_line(alloc, workers, without_lf(text)) {
        Ok(said) => Ok(said),
        Err(LineFault::Bad) => Err(ScriptKind::BadLine),
        Err(LineFault::Memory) => Err(ScriptKind::Memory),
    }
}

/// What a line before the first command is.
pub(crate) fn read_preamble_line(line: &[u8]) -> PreambleLine
    ensures { IsPreambleLine line.now result }
{
    let Ok(text) = from_utf8(line) else {
        return PreambleLine::NotUtf8;
    };
    let text = without_lf(text);
    if says_nothing(text) {
        return PreambleLine::Blank;
    }
    match read_workers(text) {
        Ok(workers) => PreambleLine::Workers(workers),
        Err(_) => PreambleLine::Other,
    }
}
