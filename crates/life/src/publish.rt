//! The publishing thread.
ghost use Rattle.std.specs.Prelude.{◌≡◌, OnOk};
ghost use Rattle.life.specs.Boards.{numbers_of};
ghost use Rattle.life.specs.PublisherWork.{Does, DoesAll, StopsAfter};

use crate::board::{Board, OfStore};
use crate::command::{Command, Outcome};
use desks::{Gate, Place, load_job};
use live_versions::{Notice, Publisher};
use std::alloc::{AllocError, Global};
use std::sync::Wait;

/// Does a command.
fn do_command<R: Wait>(
    rt: &R,
    alloc: Global,
    publisher: &mut Publisher,
    command: &Command,
) -> Outcome
    ensures book { publisher.new.seen.book ≡ publisher.old.seen.book }
    ensures does { Does publisher.old command.now result publisher.new }
{
    match command {
        Command::Load(job) => match load_job(alloc, publisher, job) {
            Ok(counts) => Outcome::Loaded(counts),
            Err(fault) => Outcome::Refused(fault),
        },
        Command::Publish => match publisher.publish(rt) {
            Ok(version) => Outcome::Published(version),
            Err(_) => Outcome::Unpublished,
        },
    }
}

/// Does the command with this index, and then leaves a notice of what is published.
fn do_and_tell<R: Wait>(
    rt: &R,
    alloc: Global,
    publisher: &mut Publisher,
    board: &Board<Notice, OfStore>,
    index: usize,
    command: &Command,
) -> Outcome
    requires { board.now ≡ numbers_of publisher.old.seen.book }
    ensures book { publisher.new.seen.book ≡ publisher.old.seen.book }
    ensures does { Does publisher.old command.now result publisher.new }
{
    let outcome = do_command(rt, alloc, publisher, command);
    board.post(index, publisher.tell());
    outcome
}

/// Does the commands in turn.
pub(crate) fn do_commands<R: Wait, G: Gate>(
    rt: &R,
    gate: &G,
    alloc: Global,
    publisher: &mut Publisher,
    board: &Board<Notice, OfStore>,
    commands: &[Command],
    outcomes: &mut Vec<Outcome>,
) -> Result<(), AllocError>
    requires { board.now ≡ numbers_of publisher.old.seen.book }
    ensures book { publisher.new.seen.book ≡ publisher.old.seen.book }
    ensures does { OnOk result (DoesAll publisher.old commands.now outcomes.new.items publisher.new) }
    ensures stops { StopsAfter publisher.old commands.now publisher.new }
{
    outcomes.clear();
    for index in 0..commands.len() {
        gate.pass(Place::Publishing, index as u64);
        let outcome = do_and_tell(rt, alloc, publisher, board, index, &commands[index]);
        outcomes.push(outcome)?;
    }
    Ok(())
}
