//! The workers, which answer the queries of the desks.
ghost use Rattle.std.specs.List.{AllZip};
ghost use Rattle.std.specs.Prelude.{◌≡◌, ◌+◌, ◌<◌, ◌≤◌, ◌^◌, length, OnOk, IfErr};
ghost use Rattle.live_versions.specs.Batches.{version_of, StartsWith};
ghost use Rattle.desks.specs.Answers.{Answered};
ghost use Rattle.desks.specs.Working.{Worked, OfWork};

use crate::desk::{Answer, Desk, ServeFault};
use crate::gate::{Gate, Place};
use live_set::Query;
use live_versions::Lookups;
use std::alloc::Global;
use std::mem;
use std::thread::Threads;
use thread_tree::Work;

/// Answers the queries one after another, each from an entry of its own.
fn answer_all<G: Gate>(
    gate: &G,
    alloc: Global,
    worker: u32,
    reader: &mut Lookups,
    queries: &[Query],
    answers: &mut Vec<Answer>,
) -> Result<(), ServeFault>
    ensures book { reader.new.book ≡ reader.old.book }
    ensures later { StartsWith reader.new.batches reader.old.batches }
    ensures answered { OnOk result
        (Answered reader.new.batches (version_of reader.old.batches) queries.now answers.new.items) }
    ensures fault { IfErr result OfWork }
{
    answers.clear();
    if answers.reserve(queries.len()).is_err() {
        return Err(ServeFault::Memory);
    }
    for index in 0..queries.len() {
        gate.pass(Place::Worker(worker), index as u64);
        match reader.ask(alloc, &queries[index]) {
            Ok((version, text)) => {
                if answers.push(Answer { version, text }).is_err() {
                    return Err(ServeFault::Memory);
                }
            }
            Err(fault) => return Err(ServeFault::from(fault)),
        }
    }
    Ok(())
}

/// What all workers have.
#[derive(Drop)]
struct Answering<'a, G> {
    gate: &'a G,
    alloc: Global,
}

impl<'a, G: Gate> Work<Desk, ServeFault> for Answering<'a, G> {
    ghost use Rattle.std.specs.Prelude.{⊤};
    ghost use Rattle.desks.specs.Working.{Worked};

    ghost fits = { λ w desk. ⊤ };

    ghost keeps = { Worked };

    ghost does = { λ desk after. ⊤ };

    /// Works one desk. What every answer changes is kept on the thread's own stack, since desks are neighbours in
    /// memory.
    fn work(&self, worker: u32, desk: &mut Desk) -> Result<(), ServeFault> {
        let mut answers = mem::replace(&mut desk.answers, Vec::new(self.alloc));
        let answered = answer_all(
            self.gate,
            self.alloc,
            worker,
            &mut desk.reader,
            desk.queries.as_slice(),
            &mut answers,
        );
        desk.answers = answers;
        desk.fault = answered.err();
        Ok(())
    }

    fn is_idle(&self, desk: &Desk) -> bool {
        desk.queries.is_empty()
    }
}

/// Whether no desk has queries.
pub(crate) fn are_idle(desks: &[Desk]) -> bool {
    desks.iter().all(|desk| desk.queries.is_empty())
}

/// Answers the queries of all desks; the worker of the first one is number `first`. Each desk takes a thread of its
/// own, except those without queries and one that has some.
///
/// A desk's fault is `Closed` or `Memory`; after one don't rely on its answers.
#[tactic(auto, using(thread_tree::proofs::Fitting::all_fit))]
pub fn work_all<R: Threads + Sync, G: Gate + Sync>(
    rt: &R,
    gate: &G,
    alloc: Global,
    first: u32,
    desks: &mut [Desk],
)
    requires { first + length desks.old < 2 ^ 32 }
    ensures { AllZip Worked desks.old desks.new }
{
    // A desk keeps its fault.
    let _ = thread_tree::work_all(rt, &Answering { gate, alloc }, first, desks);
}
