//! A session: a script that is answered round by round, while it arrives.
ghost use Rattle.std.specs.Prelude.{◌≡◌, ◌<◌};
ghost use Rattle.devices.specs.Devices.{input_seen, output_seen};
ghost use Rattle.catserve.specs.Session.{AnswersInTime, Converses};
ghost use Rattle.catserve.specs.Talking.{Continues, IsFresh};
ghost use Rattle.catserve.specs.Timing.{ContinuesInTime};

use crate::hearing::Hearing;
use crate::player::Player;
use crate::session_fault::SessionFault;
use devices::{Sink, Source};
use std::alloc::Global;
use std::sync::Wait;
use std::thread::Threads;

/// Answers what follows the preamble of a session, to the end of the input.
fn converse<T: Threads + Wait + Sync, D: Source + Sink>(
    rt: &T,
    alloc: Global,
    workers: u32,
    hearing: &mut Hearing,
    player: &mut Player,
    device: &mut D,
) -> Result<(), SessionFault>
    requires number { 0 < hearing.old.number }
    requires fresh { IsFresh workers player.old }
    ensures all { let input = input_seen D.remaining D.reads D.Source.failures in
        let output = output_seen D.contents D.Sink.failures in
        Continues workers (input device.old) (input device.new) (output device.old) (output device.new) hearing.old
        result }
    ensures in_time { let input = input_seen D.remaining D.reads D.Source.failures in
        ContinuesInTime workers (input device.old) hearing.old (D.log device.old) (D.log device.new) }
{
    'lines: while let Some(thing) = hearing.hear(alloc, workers, device)? {
        player.respond(rt, alloc, thing, device)?;
    }
    if player.has_begun() {
        player.answer(rt, alloc, device)?;
    }
    Ok(())
}

/// Opens a store with this number of workers, and answers what follows the preamble of a session.
fn converse_by_store<T: Threads + Wait + Sync, D: Source + Sink>(
    rt: &T,
    alloc: Global,
    workers: u32,
    hearing: &mut Hearing,
    device: &mut D,
) -> Result<(), SessionFault>
    requires { 0 < hearing.old.number }
    ensures all { let input = input_seen D.remaining D.reads D.Source.failures in
        let output = output_seen D.contents D.Sink.failures in
        Continues workers (input device.old) (input device.new) (output device.old) (output device.new) hearing.old
        result }
    ensures in_time { let input = input_seen D.remaining D.reads D.Source.failures in
        ContinuesInTime workers (input device.old) hearing.old (D.log device.old) (D.log device.new) }
{
    let mut player = Player::open(rt, alloc, workers)?;
    let done = converse(rt, alloc, workers, hearing, &mut player, device);
    player.end(rt);
    done
}

/// Reads a script as it arrives, and answers each round when its `go` has arrived. The session has a store of its own
/// with a reader for each worker.
///
/// A round's lines are written and flushed in one piece. Before each read that gives bytes or the end of the input, the
/// output of all rounds that had ended has been written, and nothing else. At the end of the input the last round is
/// answered too, if it has a load or a question. The number of workers may be given in `workers`. Otherwise the first
/// line that says something may give it, as in a script, or there are two. `NoPlace` is returned if it isn't 1 to 16.
///
/// A round has at most 67,108,864 bytes, counting the lines in it that say nothing, and a session at most 2^63 lines.
/// At most 134,217,728 reads are made for each line; the number of reads of a session isn't limited. After a fault the
/// rounds that ended before it have been answered, and nothing of the open one was written, unless a write failed: then
/// a prefix of that round's lines was. `Closed` is returned only if the open round has a question, and `Join` never.
pub fn run_session<T: Threads + Wait + Sync, D: Source + Sink>(
    rt: &T,
    alloc: Global,
    workers: Option<u32>,
    device: &mut D,
) -> Result<(), SessionFault>
    ensures all { let input = input_seen D.remaining D.reads D.Source.failures in
        let output = output_seen D.contents D.Sink.failures in
        Converses workers (input device.old) (input device.new) (output device.old) (output device.new) result }
    ensures in_time { AnswersInTime workers (D.log device.old) (D.log device.new) }
{
    let mut hearing = Hearing::new(alloc)?;
    match workers {
        Some(count) => converse_by_store(rt, alloc, count, &mut hearing, device),
        None => {
            let count = hearing.hear_preamble(device)?;
            converse_by_store(rt, alloc, count, &mut hearing, device)
        }
    }
}
