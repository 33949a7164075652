//! A store's life from its opening to its end.
ghost use Rattle.std.specs.List.{All, AllByRecursion};
ghost use Rattle.std.specs.Prelude.{◌≡◌, ◌≤◌, ◌++◌, [], IfOk, OnOk, vec_len, map};
ghost use Rattle.life.specs.Promise.{IsRun};

use crate::client::{Client, Request};
use crate::command::{Command, Outcome};
use crate::service::run_on;
use desks::{Gate, ServeFault};
use live_versions::{Lookups, Notice, Publisher, open_store};
use std::alloc::Global;
use std::sync::Wait;
use std::thread::Threads;
use thiserror::Error;

/// The outcome of each command, in order, and each reader with its requests and replies.
#[derive(Drop)]
pub struct Life {
    pub outcomes: Vec<Outcome>,
    pub clients: Vec<Client>,
}

/// Why a life ended early.
#[derive(Clone, Copy, Debug, PartialEq, Eq, Error)]
pub enum LifeFault {
    /// The store didn't open, or memory was refused for its clients.
    #[error("no store")]
    Unopened,
    /// The commands or the look-ups ended with this fault.
    #[error("{0}")]
    Stopped(ServeFault),
}

/// A client for each list of requests.
fn seat_all(
    alloc: Global,
    seen: &Notice,
    readers: &mut Vec<Lookups>,
    lists: &mut Vec<Vec<Request>>,
    clients: &mut Vec<Client>,
) -> Result<(), LifeFault>
    requires readers { All (λ r. r ≡ seen.now) readers.old.items }
    requires clients { AllByRecursion (λ c. c.reader ≡ seen.now) clients.old.items }
    ensures requests { OnOk result
        (map (λ c. c.requests) clients.new.items ≡ map (λ c. c.requests) clients.old.items ++ lists.old.items) }
    ensures seated { OnOk result (AllByRecursion (λ c. c.reader ≡ seen.now) clients.new.items) }
{
    let Some(requests) = lists.pop() else {
        return Ok(());
    };
    let Some(reader) = readers.pop() else {
        return Err(LifeFault::Unopened);
    };
    seat_all(alloc, seen, readers, lists, clients)?;
    let client = Client {
        reader,
        requests,
        replies: Vec::new(alloc),
    };
    if clients.push(client).is_err() {
        return Err(LifeFault::Unopened);
    }
    Ok(())
}

/// A new store that accepts `most` loads, with a client for each list of requests.
fn open_clients<R: Wait>(
    rt: &R,
    alloc: Global,
    most: u64,
    mut lists: Vec<Vec<Request>>,
) -> Result<(Publisher, Vec<Client>), LifeFault>
    requires count { (1 ≤ vec_len lists) × (vec_len lists ≤ 16) }
    ensures empty { IfOk result (λ opened. (opened.0.seen.batches ≡ []) × (opened.0.pending ≡ [])) }
    ensures most { IfOk result (λ opened. opened.0.most ≡ most) }
    ensures requests { IfOk result (λ opened. map (λ c. c.requests) opened.1.items ≡ lists.items) }
    ensures readers { IfOk result (λ opened. AllByRecursion (λ c. c.reader ≡ opened.0.seen) opened.1.items) }
{
    let count = lists.len() as u32;
    let Ok((mut publisher, mut readers)) = open_store(rt, alloc, count, most) else {
        return Err(LifeFault::Unopened);
    };
    let seen = publisher.tell();
    let mut clients = Vec::new(alloc);
    if seat_all(alloc, &seen, &mut readers, &mut lists, &mut clients).is_err() {
        publisher.end(rt);
        return Err(LifeFault::Unopened);
    }
    Ok((publisher, clients))
}

/// Opens a store that accepts `most` loads, with a reader for each list of requests. Does the commands in one thread
/// while each list is answered in a thread of its own, and then ends the store. The publisher leaves a notice after
/// each command, which a request may have its reader learn first.
///
/// The clause `promise` is what the store promises: for every list of loads and publishes and every schedule of the
/// threads, each request acts as one step of one legal history, however many queries it looks up.
pub fn run_life<R: Threads + Wait + Sync, G: Gate + Sync>(
    rt: &R,
    alloc: Global,
    most: u64,
    commands: &[Command],
    lists: Vec<Vec<Request>>,
    gate: &G,
) -> Result<Life, LifeFault>
    requires count { (1 ≤ vec_len lists) × (vec_len lists ≤ 16) }
    ensures requests { IfOk result (λ life. map (λ c. c.requests) life.clients.items ≡ lists.items) }
    ensures promise { IfOk result (λ life. IsRun most commands.now life.outcomes.items life.clients.items) }
{
    let (mut publisher, mut clients) = open_clients(rt, alloc, most, lists)?;
    let run = run_on(
        rt,
        alloc,
        &mut publisher,
        clients.as_mut_slice(),
        commands,
        gate,
    );
    publisher.end(rt);
    match run {
        Ok(outcomes) => Ok(Life { outcomes, clients }),
        Err(fault) => Err(LifeFault::Stopped(fault)),
    }
}
