//! A run of a script over a reader and a writer.
ghost use Rattle.std.specs.Prelude.{◌≡◌, IfOk, IfErr, length};
ghost use Rattle.std.specs.List.{flat_map};
ghost use Rattle.script_text.specs.CommandValues.{command_list};
ghost use Rattle.catserve.specs.Rounds.{HasOutput};
ghost use Rattle.catserve.specs.Run.{ReadsText, Runs};
ghost use Rattle.devices.specs.Devices.{input_seen, output_seen};
ghost use Rattle.catserve.specs.Running.{CutsShort, EndsPlaying, EndsReading, HasPlayedAll, kind_in_memory};
ghost use Rattle.catserve.specs.Talking.{IsFresh};

use crate::hearing::Heard;
use crate::player::Player;
use devices::{InputFault, Sink, Source, Writing, read_all};
use script_text::{MOST_SCRIPT, Said, Script, ScriptFault, ScriptKind, read_script};
use std::alloc::Global;
use std::sync::Wait;
use std::thread::Threads;

/// Plays the lines of a script, and writes the lines of each round at its end.
fn play_all<T: Threads + Wait + Sync, W: Sink>(
    rt: &T,
    alloc: Global,
    player: &mut Player,
    lines: Vec<Said<'_>>,
    writer: &mut W,
) -> Result<(), ScriptKind>
    requires { IsFresh (length player.old.desks) player.old }
    ensures ok { IfOk result (λ _. HasPlayedAll (length player.old.desks) (flat_map command_list lines.entry.items)
        (W.contents writer.old) (W.contents writer.new)) }
    ensures fault { IfErr result (CutsShort (flat_map command_list lines.entry.items)) }
{
    'lines: for said in lines {
        let Said { line, text } = said;
        let text = text.to_vec(alloc)?;
        player.respond(rt, alloc, Heard { line, text }, writer)?;
    }
    if player.has_begun() {
        player.answer(rt, alloc, writer)?;
    }
    Ok(())
}

/// The error of a script whose lines are written to memory: there only memory can stop the writer.
fn kind_in_memory(kind: ScriptKind) -> ScriptKind
    ensures { result ≡ kind_in_memory kind }
{
    match kind {
        ScriptKind::WriteFault => ScriptKind::Memory,
        other => other,
    }
}

/// The output of a text that is a script. Its store has a reader for each worker.
fn output_of<T: Threads + Wait + Sync>(
    rt: &T,
    alloc: Global,
    text: &[u8],
) -> Result<Vec<u8>, ScriptFault>
    ensures ok { IfOk result (λ output. HasOutput text.now output.items) }
    ensures fault { IfErr result (λ fault. EndsPlaying text.now fault.kind fault.line) }
{
    let Script { workers, said } = read_script(alloc, text)?;
    let mut player = Player::open(rt, alloc, workers)?;
    let mut output = Writing::new(Vec::new(alloc));
    let played = play_all(rt, alloc, &mut player, said, &mut output);
    player.end(rt);
    match played {
        Ok(()) => Ok(output.inner),
        Err(kind) => Err(ScriptFault::from(kind_in_memory(kind))),
    }
}

/// Reads the text of a script, and at most one byte more than it may have.
fn read_text<R: Source>(alloc: Global, reader: &mut R) -> Result<Vec<u8>, ScriptFault>
    ensures ok { let input = input_seen R.remaining R.reads R.failures in
        IfOk result (λ text. ReadsText (input reader.old) (input reader.new) text.items) }
    ensures fault { let input = input_seen R.remaining R.reads R.failures in
        IfErr result (λ fault. EndsReading (input reader.old) (input reader.new) fault.kind fault.line) }
{
    match read_all(alloc, reader, MOST_SCRIPT + 1) {
        Ok(text) => Ok(text),
        Err(InputFault::Unreadable) => Err(ScriptFault::from(ScriptKind::ReadFault)),
        Err(InputFault::Memory) => Err(ScriptFault::from(ScriptKind::Memory)),
    }
}

/// Reads a script whole, runs it by a store of its own with a reader for each worker, and writes its output at the end.
///
/// Each round's loads are made and published, and then the workers answer the round's questions, all at once
/// (`desks::serve`). The line `workers` gives their number; without it there are two. At most 67,108,865 bytes are
/// read, in at most 134,217,728 reads. After a `WriteFault` a prefix of the output was written, and after any other
/// fault nothing was. `NoPlace` is returned only for a text that is a script, `Closed` only for a script with a
/// question, and `Join` never.
pub fn run_script<T: Threads + Wait + Sync, R: Source, W: Sink>(
    rt: &T,
    alloc: Global,
    reader: &mut R,
    writer: &mut W,
) -> Result<(), ScriptFault>
    ensures { let input = input_seen R.remaining R.reads R.failures in let output = output_seen W.contents W.failures in
        Runs (input reader.old) (input reader.new) (output writer.old) (output writer.new) result }
{
    let text = read_text(alloc, reader)?;
    let output = output_of(rt, alloc, text.as_slice())?;
    match writer.write_all(output.as_slice()) {
        Ok(()) => Ok(()),
        Err(_) => Err(ScriptFault::from(ScriptKind::WriteFault)),
    }
}
