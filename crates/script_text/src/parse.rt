//! Parsing a whole script.
ghost use Rattle.std.specs.Prelude.{◌≡◌, ◌<◌, ◌≤◌, ◌+◌, ◌^◌, IfOk, IfErr, OnOk, Ok, fold, length};
ghost use Rattle.devices.specs.Lines.{lines};
ghost use Rattle.script_text.specs.Commands.{line_of};
ghost use Rattle.script_text.specs.CommandValues.{command_with, command_list};
ghost use Rattle.script_text.specs.Script.{load_count, script, saying_of, IsBad};
ghost use Rattle.script_text.specs.Texts.{IsScript, IsTextFault};
ghost use Rattle.script_text.specs.LineValues.{line_value};
ghost use Rattle.script_text.specs.Gathering.{HasBegun, TakesIn, gathered_with, so_far};
ghost use Rattle.script_text.specs.Scanning.{IsLineFault, ParseFails};

use crate::command::{Line, Said, read_line, read_workers, says_nothing};
use crate::fault::{LineFault, ScriptFault, ScriptKind};
use crate::line::{split_line, take_lines};
use catalogue::MAX_TEXT;
use simdutf8::compat::from_utf8;
use std::alloc::{AllocError, Global};
use std::marker::Model;

/// The most bytes that a script may have: 64 MiB, the limit on a PO text.
pub const MOST_SCRIPT: usize = MAX_TEXT;

/// The number of workers of a script without a line `workers`.
pub const DEFAULT_WORKERS: u32 = 2;

/// A parsed script: its number of workers, and its lines that say something. Contracts see its rounds.
#[derive(Drop)]
pub struct Script<'a> {
    pub workers: u32,
    pub said: Vec<Said<'a>>,
}

impl<'a> Model for Script<'a> {
    ghost use Rattle.std.specs.List.{flat_map};
    ghost use Rattle.script_text.specs.CommandValues.{command_list};
    ghost use Rattle.script_text.specs.Script.{ScriptValue, rounds_of};

    ghost Value = { ScriptValue };

    ghost view = { λ s. record { workers = s.workers; rounds = rounds_of (flat_map command_list s.said.items) } };
}

/// The fault for line number `line`.
fn fault_at(fault: LineFault, line: u32) -> ScriptFault
    ensures { IsLineFault fault line result }
{
    match fault {
        LineFault::Bad => ScriptFault {
            kind: ScriptKind::BadLine,
            line,
        },
        LineFault::Memory => ScriptFault::from(ScriptKind::Memory),
    }
}

/// Keeps a line with the text of its load, if it says something.
fn keep<'a>(said: &mut Vec<Said<'a>>, line: Line, text: &'a [u8]) -> Result<(), AllocError>
    ensures { OnOk result (so_far said.new.items
        ≡ fold gathered_with (so_far said.old.items) (command_list (command_with (line_value line) text.now))) }
{
    match line {
        Line::Blank => Ok(()),
        line => Ok(said.push(Said { line, text })?),
    }
}

/// Takes in a line, which has this number and is followed by `behind`, with the text of its load. Returns what follows
/// the text, and the number of the next line.
fn take_in<'a>(
    alloc: Global,
    workers: u32,
    said: &mut Vec<Said<'a>>,
    line: &str,
    behind: &'a str,
    number: u32,
) -> Result<(&'a str, u32), LineFault>
    requires { number + length behind.now + 1 < 2 ^ 32 }
    ensures ok { IfOk result (λ next. TakesIn (so_far said.old.items) (so_far said.new.items) (line_of workers line.now)
        behind.now number next.0.now next.1) }
    ensures bad { IfErr result (λ fault.
        fault ≡ LineFault.Bad → saying_of (line_of workers line.now) (lines behind.now) ≡ IsBad) }
{
    let line = read_line(alloc, workers, line)?;
    let count = line.text_lines();
    let Some((text, rest)) = take_lines(behind, count) else {
        return Err(LineFault::Bad);
    };
    keep(said, line, text)?;
    Ok((rest, number + 1 + count as u32))
}

/// The preamble of a script: its number of workers. `rest` is the text of its commands, which begin on line `number`.
struct Preamble<'a> {
    workers: u32,
    rest: &'a str,
    number: u32,
}

/// Reads the preamble of a script. Without a line `workers` there are `DEFAULT_WORKERS`.
fn read_preamble(text: &str) -> Preamble<'_>
    requires { length text.now ≤ MOST_SCRIPT }
    ensures { HasBegun text.now result.workers result.rest.now result.number }
{
    let (workers, mut rest, mut number) = (DEFAULT_WORKERS, text, 1);
    'preamble: while let Some((line, behind)) = split_line(rest) {
        if !says_nothing(line) {
            if let Ok(workers) = read_workers(line) {
                (rest, number) = (behind, number + 1);
                return Preamble {
                    workers,
                    rest,
                    number,
                };
            }
            break;
        }
        rest = behind;
        number += 1;
    }
    Preamble {
        workers,
        rest,
        number,
    }
}

/// Parses a script.
fn parse(alloc: Global, text: &str) -> Result<Script<'_>, ScriptFault>
    requires { length text.now ≤ MOST_SCRIPT }
    ensures ok { IfOk result (λ value. script text.now ≡ Ok value) }
    ensures few { IfOk result (λ value. load_count value.rounds ≤ MOST_SCRIPT) }
    ensures err { IfErr result (λ fault. ParseFails (script text.now) fault) }
{
    let Preamble {
        workers,
        mut rest,
        mut number,
    } = read_preamble(text);
    let mut said = Vec::new(alloc);
    'lines: while let Some((line, behind)) = split_line(rest) {
        match take_in(alloc, workers, &mut said, line, behind, number) {
            Ok((next, next_number)) => {
                rest = next;
                number = next_number;
            }
            Err(fault) => return Err(fault_at(fault, number)),
        }
    }
    Ok(Script { workers, said })
}

/// Parses a whole script: UTF-8 of at most `MOST_SCRIPT` bytes.
///
/// Err: the text is too large, isn't UTF-8 or has a bad line (the fault names the first one), or memory ran out.
pub fn read_script(alloc: Global, bytes: &[u8]) -> Result<Script<'_>, ScriptFault>
    ensures ok { IfOk result (λ value. IsScript bytes.now value) }
    ensures few { IfOk result (λ value. load_count value.rounds ≤ MOST_SCRIPT) }
    ensures err { IfErr result (λ fault. IsTextFault bytes.now fault) }
{
    if bytes.len() > MOST_SCRIPT {
        return Err(ScriptFault::from(ScriptKind::TooLarge));
    }
    match from_utf8(bytes) {
        Ok(text) => parse(alloc, text),
        Err(_) => Err(ScriptFault::from(ScriptKind::NotUtf8)),
    }
}
