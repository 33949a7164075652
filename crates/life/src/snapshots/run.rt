//! A snapshot store's life from its opening to its end.
ghost use Rattle.std.specs.List.{AllZip, AllByRecursion};
ghost use Rattle.std.specs.Thread.{IsSync};
ghost use Rattle.std.specs.Prelude.{◌≡◌, ◌<◌, ◌^◌, [], IfOk, OnOk, length, map, vec_len};
ghost use Rattle.snapshot_store.specs.Holding.{most_loads};
ghost use Rattle.life.specs.Boards.{numbers_of};
ghost use Rattle.life.specs.Clients.{KeepsClient, HasAnswered, IsServed};
ghost use Rattle.life.specs.Promise.{IsRun};
ghost use Rattle.life.specs.PublisherWork.{DoesAll};

use crate::board::Board;
use crate::client::Request;
use crate::command::{Command, Outcome};
use crate::life::LifeFault;
use crate::snapshots::answer::Answering;
use crate::snapshots::client::Client;
use crate::snapshots::publish::do_commands;
use crate::snapshots::settle::settle_all;
use desks::{Gate, ServeFault};
use snapshot_store::{Publisher, open_store};
use std::alloc::{AllocError, Global};
use std::thread::{Threads, join_mut};
use thread_tree::work_all;

/// The outcome of each command, in order, and each reader with its requests and replies.
#[derive(Drop)]
pub struct Run {
    pub outcomes: Vec<Outcome>,
    pub clients: Vec<Client>,
}

/// A client of the store for each list of requests.
fn seat_all(
    alloc: Global,
    publisher: &Publisher,
    lists: Vec<Vec<Request>>,
) -> Result<Vec<Client>, AllocError>
    ensures requests { IfOk result (λ clients. map (λ c. c.requests) clients.items ≡ lists.items) }
    ensures seated { IfOk result (λ clients. AllByRecursion (λ c. c.reader ≡ publisher.now.seen) clients.items) }
{
    let mut clients = Vec::new(alloc);
    'lists: for requests in lists {
        let reader = publisher.reader()?;
        clients.push(Client {
            reader,
            requests,
            replies: Vec::new(alloc),
        })?;
    }
    Ok(clients)
}

/// The commands and the requests of all clients, at the same time.
fn run_both<R: Threads + Sync, G: Gate + Sync>(
    rt: &R,
    answering: &Answering<'_, G>,
    publisher: &mut Publisher,
    outcomes: &mut Vec<Outcome>,
    commands: &[Command],
    clients: &mut [Client],
) -> Result<(), ServeFault>
    requires count { length clients.old < 2 ^ 32 }
    requires board { answering.now.board.now ≡ numbers_of publisher.old.seen.book }
    requires fits { AllByRecursion (λ c. answering.now.board.now ≡ numbers_of c.reader.book) clients.old }
    ensures book { publisher.new.seen.book ≡ publisher.old.seen.book }
    ensures does { OnOk result (DoesAll publisher.old commands.now outcomes.new.items publisher.new) }
    ensures kept { AllZip KeepsClient clients.old clients.new }
    ensures answered { OnOk result (AllZip HasAnswered clients.old clients.new) }
{
    let Answering { gate, alloc, board } = *answering;
    let (published, answered) = join_mut(
        rt,
        &mut || do_commands(gate, alloc, publisher, board, commands, outcomes),
        &mut ||
            requires { IsSync R.row × IsSync G.row × (length clients.now < 2 ^ 32)
                × AllByRecursion (λ c. answering.now.board.now ≡ numbers_of c.reader.book) clients.now }
            ensures kept { AllZip KeepsClient clients.entry.now clients.exit.now }
            ensures answered { OnOk result (AllZip HasAnswered clients.entry.now clients.exit.now) }
        { work_all(rt, answering, 0, clients) },
    );
    if published.is_err() || answered.is_err() {
        return Err(ServeFault::Memory);
    }
    Ok(())
}

/// Makes a board, on which the publisher leaves its notices, for the commands and the requests.
#[tactic(auto, using(crate::proofs::Clients::kept_all))]
fn run_all<R: Threads + Sync, G: Gate + Sync>(
    rt: &R,
    alloc: Global,
    publisher: &mut Publisher,
    outcomes: &mut Vec<Outcome>,
    commands: &[Command],
    gate: &G,
    clients: &mut [Client],
) -> Result<(), ServeFault>
    requires count { length clients.old < 2 ^ 32 }
    requires book { AllByRecursion (λ c. c.reader.book ≡ publisher.old.seen.book) clients.old }
    ensures book { publisher.new.seen.book ≡ publisher.old.seen.book }
    ensures does { OnOk result (DoesAll publisher.old commands.now outcomes.new.items publisher.new) }
    ensures kept { AllZip KeepsClient clients.old clients.new }
    ensures answered { OnOk result (AllZip HasAnswered clients.old clients.new) }
{
    let Ok(board) = Board::new(alloc, commands.len(), publisher.tell()) else {
        return Err(ServeFault::Memory);
    };
    let answering = Answering {
        gate,
        alloc,
        board: &board,
    };
    run_both(rt, &answering, publisher, outcomes, commands, clients)
}

/// The commands and the requests at the same time, of readers that have seen what is published. Each of them enters
/// what is published at the end.
fn run_clients<R: Threads + Sync, G: Gate + Sync>(
    rt: &R,
    alloc: Global,
    publisher: &mut Publisher,
    outcomes: &mut Vec<Outcome>,
    commands: &[Command],
    gate: &G,
    clients: &mut [Client],
) -> Result<(), ServeFault>
    requires seated { AllByRecursion (λ c. c.reader ≡ publisher.old.seen) clients.old }
    requires count { length clients.old < 2 ^ 32 }
    ensures does { OnOk result (DoesAll publisher.old commands.now outcomes.new.items publisher.new) }
    ensures served { OnOk result (AllZip (IsServed publisher.old.seen publisher.new.seen) clients.old clients.new) }
{
    run_all(rt, alloc, publisher, outcomes, commands, gate, clients)?;
    let closing = publisher.tell();
    settle_all(publisher, &closing, clients)?;
    Ok(())
}

/// Opens a store, with a client for each list of requests.
fn open_clients(
    alloc: Global,
    lists: Vec<Vec<Request>>,
) -> Result<(Publisher, Vec<Client>), LifeFault>
    ensures empty { IfOk result (λ opened. (opened.0.seen.batches ≡ []) × (opened.0.pending ≡ [])) }
    ensures most { IfOk result (λ opened. opened.0.most ≡ most_loads) }
    ensures requests { IfOk result (λ opened. map (λ c. c.requests) opened.1.items ≡ lists.items) }
    ensures readers { IfOk result (λ opened. AllByRecursion (λ c. c.reader ≡ opened.0.seen) opened.1.items) }
{
    let Ok(publisher) = open_store(alloc) else {
        return Err(LifeFault::Unopened);
    };
    match seat_all(alloc, &publisher, lists) {
        Ok(clients) => Ok((publisher, clients)),
        Err(_) => Err(LifeFault::Unopened),
    }
}

/// Opens a store, with a reader for each list of requests. Does the commands in one thread while each list is answered
/// in a thread of its own. Then each reader enters what is published, and the store ends. The publisher leaves a notice
/// after each command, which a request may have its reader learn first.
///
/// The clause `promise` is that of `run_life`: for every list of loads and publishes and every schedule of the
/// threads, each request acts as one step of one legal history, however many queries it looks up. A publish that fails
/// is no step, whether memory or a free slot was lacking.
pub fn run_snapshots<R: Threads + Sync, G: Gate + Sync>(
    rt: &R,
    alloc: Global,
    commands: &[Command],
    lists: Vec<Vec<Request>>,
    gate: &G,
) -> Result<Run, LifeFault>
    requires count { vec_len lists < 2 ^ 32 }
    ensures requests { IfOk result (λ run. map (λ c. c.requests) run.clients.items ≡ lists.items) }
    ensures promise { IfOk result (λ run. IsRun most_loads commands.now run.outcomes.items run.clients.items) }
{
    let (mut publisher, mut clients) = open_clients(alloc, lists)?;
    let mut outcomes = Vec::new(alloc);
    match run_clients(
        rt,
        alloc,
        &mut publisher,
        &mut outcomes,
        commands,
        gate,
        clients.as_mut_slice(),
    ) {
        Ok(()) => Ok(Run { outcomes, clients }),
        Err(fault) => Err(LifeFault::Stopped(fault)),
    }
}
