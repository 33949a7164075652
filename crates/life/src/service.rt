//! A run as a whole.
ghost use Rattle.std.specs.List.{AllZip, AllByRecursion};
ghost use Rattle.std.specs.Thread.{IsSync};
ghost use Rattle.std.specs.Prelude.{◌≡◌, ◌≤◌, OnOk, IfOk, length};
ghost use Rattle.life.specs.Boards.{numbers_of};
ghost use Rattle.life.specs.Clients.{KeepsClient, HasAnswered, IsServed};
ghost use Rattle.life.specs.PublisherWork.{DoesAll, StopsAfter};
ghost use Rattle.life.specs.Continuing.{HasLife};

use crate::answer::Answering;
use crate::board::Board;
use crate::client::Client;
use crate::command::{Command, Outcome};
use crate::publish::do_commands;
use crate::settle::{learn_all, settle_all};
use desks::{Gate, ServeFault};
use live_versions::Publisher;
use std::alloc::Global;
use std::sync::Wait;
use std::thread::{Threads, join_mut};
use thread_tree::work_all;

/// The commands and the requests of all clients, at the same time, with a board between them.
fn run_both<R: Threads + Wait + Sync, G: Gate + Sync>(
    rt: &R,
    answering: &Answering<'_, G>,
    publisher: &mut Publisher,
    outcomes: &mut Vec<Outcome>,
    commands: &[Command],
    clients: &mut [Client],
) -> Result<(), ServeFault>
    requires board { answering.now.board.now ≡ numbers_of publisher.old.seen.book }
    requires fits { AllByRecursion (λ c. answering.now.board.now ≡ numbers_of c.reader.book) clients.old }
    requires count { length clients.old ≤ 16 }
    ensures book { publisher.new.seen.book ≡ publisher.old.seen.book }
    ensures does { OnOk result (DoesAll publisher.old commands.now outcomes.new.items publisher.new) }
    ensures stops { StopsAfter publisher.old commands.now publisher.new }
    ensures kept { AllZip KeepsClient clients.old clients.new }
    ensures answered { OnOk result (AllZip HasAnswered clients.old clients.new) }
{
    let Answering { gate, alloc, board } = *answering;
    let (published, answered) = join_mut(
        rt,
        &mut || do_commands(rt, gate, alloc, publisher, board, commands, outcomes),
        &mut ||
            requires { IsSync R.row × IsSync G.row × (length clients.now ≤ 16)
                × AllByRecursion (λ c. answering.now.board.now ≡ numbers_of c.reader.book) clients.now }
            ensures kept { AllZip KeepsClient clients.entry.now clients.exit.now }
            ensures answered { OnOk result (AllZip HasAnswered clients.entry.now clients.exit.now) }
        { work_all(rt, answering, 0, clients) },
    );
    if published.is_err() {
        return Err(ServeFault::Memory);
    }
    answered
}

/// Makes a board, on which the publisher leaves its notices, for the commands and the requests.
#[tactic(auto, using(crate::proofs::Clients::kept_all, crate::proofs::Running::none_done))]
fn run_all<R: Threads + Wait + Sync, G: Gate + Sync>(
    rt: &R,
    alloc: Global,
    publisher: &mut Publisher,
    outcomes: &mut Vec<Outcome>,
    commands: &[Command],
    gate: &G,
    clients: &mut [Client],
) -> Result<(), ServeFault>
    requires book { AllByRecursion (λ c. c.reader.book ≡ publisher.old.seen.book) clients.old }
    requires count { length clients.old ≤ 16 }
    ensures book { publisher.new.seen.book ≡ publisher.old.seen.book }
    ensures does { OnOk result (DoesAll publisher.old commands.now outcomes.new.items publisher.new) }
    ensures stops { StopsAfter publisher.old commands.now publisher.new }
    ensures kept { AllZip KeepsClient clients.old clients.new }
    ensures answered { OnOk result (AllZip HasAnswered clients.old clients.new) }
{
    let opening = publisher.tell();
    let Ok(board) = Board::new(alloc, commands.len(), opening) else {
        return Err(ServeFault::Memory);
    };
    let answering = Answering {
        gate,
        alloc,
        board: &board,
    };
    run_both(rt, &answering, publisher, outcomes, commands, clients)
}

/// Does the commands while the requests of all clients are answered, and then settles each reader.
fn run_slice<R: Threads + Wait + Sync, G: Gate + Sync>(
    rt: &R,
    alloc: Global,
    publisher: &mut Publisher,
    outcomes: &mut Vec<Outcome>,
    commands: &[Command],
    gate: &G,
    clients: &mut [Client],
) -> Result<(), ServeFault>
    requires book { AllByRecursion (λ c. c.reader.book ≡ publisher.old.seen.book) clients.old }
    requires count { length clients.old ≤ 16 }
    ensures book { publisher.new.seen.book ≡ publisher.old.seen.book }
    ensures does { OnOk result (DoesAll publisher.old commands.now outcomes.new.items publisher.new) }
    ensures stops { StopsAfter publisher.old commands.now publisher.new }
    ensures kept { AllZip KeepsClient clients.old clients.new }
    ensures served { OnOk result (AllZip (IsServed publisher.old.seen publisher.new.seen) clients.old clients.new) }
{
    let opening = publisher.tell();
    learn_all(clients, &opening);
    run_all(rt, alloc, publisher, outcomes, commands, gate, clients)?;
    let closing = publisher.tell();
    settle_all(clients, &closing)?;
    Ok(())
}

/// Does the commands in one thread, while each client's requests are answered in a thread of its own. Then each reader
/// settles with what is published.
///
/// Whatever the schedule of the threads was, and whatever was done with the store since it was opened, all of it has
/// one legal history: the commands with their outcomes are events of it, and each request is an entry.
///
/// After a fault some first commands are done, and no other, and each reader has seen all that it had seen. A reader
/// that hasn't settled has no place in a history: nothing says how what it saw compares with what another reader saw.
pub fn run_on<R: Threads + Wait + Sync, G: Gate + Sync>(
    rt: &R,
    alloc: Global,
    publisher: &mut Publisher,
    clients: &mut [Client],
    commands: &[Command],
    gate: &G,
) -> Result<Vec<Outcome>, ServeFault>
    requires book { AllByRecursion (λ c. c.reader.book ≡ publisher.old.seen.book) clients.old }
    requires count { length clients.old ≤ 16 }
    ensures life { IfOk result (λ outcomes.
        HasLife publisher.old publisher.new commands.now outcomes.items clients.old clients.new) }
    ensures served { IfOk result (λ _.
        AllZip (IsServed publisher.old.seen publisher.new.seen) clients.old clients.new) }

    // What a fault leaves. It holds without one too.
    ensures stops { StopsAfter publisher.old commands.now publisher.new }
    ensures kept { AllZip KeepsClient clients.old clients.new }
    ensures book { publisher.new.seen.book ≡ publisher.old.seen.book }

    // Another run may follow.
    ensures again { AllByRecursion (λ c. c.reader.book ≡ publisher.new.seen.book) clients.new }
{
    let mut outcomes = Vec::new(alloc);
    match run_slice(rt, alloc, publisher, &mut outcomes, commands, gate, clients) {
        Ok(()) => Ok(outcomes),
        Err(fault) => Err(fault),
    }
}
