//! The service as a whole.
ghost use Rattle.std.specs.List.{AllZip, AllByRecursion};
ghost use Rattle.std.specs.Thread.{IsSync};
ghost use Rattle.std.specs.Prelude.{◌≡◌, ◌≤◌, All, IfOk, IfErr, vec_len, length};
ghost use Rattle.live_versions.specs.Batches.{version_of};
ghost use Rattle.desks.specs.Desks.{EndsAhead, KeepsDesk, IsServed};
ghost use Rattle.desks.specs.Jobs.{HasDone, Stops};
ghost use Rattle.desks.specs.Working.{Worked};
ghost use Rattle.desks.specs.declared.desk.ServeFault.TheVariants.{Memory};

use crate::desk::{Desk, ServeFault};
use crate::gate::Gate;
use crate::job::{Accepted, Job};
use crate::publish::do_jobs;
use crate::settle::{first_fault, learn_all, settle_all};
use crate::worker::{are_idle, work_all};
use live_versions::{Publisher, StoreFault, Version};
use std::alloc::Global;
use std::sync::Wait;
use std::thread::{Threads, join_mut};

/// The outcome of each job, in order, and the version at the end.
#[derive(Drop)]
pub struct Served {
    pub outcomes: Vec<Result<Accepted, StoreFault>>,
    pub version: Version,
}

/// Does the jobs and the work of all desks, at the same time if both have something to do.
fn run_all<R: Threads + Wait + Sync, G: Gate + Sync>(
    rt: &R,
    alloc: Global,
    publisher: &mut Publisher,
    outcomes: &mut Vec<Result<Accepted, StoreFault>>,
    jobs: &[Job],
    gate: &G,
    desks: &mut [Desk],
) -> Result<(), ServeFault>
    requires count { length desks.old ≤ 16 }
    ensures book { publisher.new.seen.book ≡ publisher.old.seen.book }
    ensures most { publisher.new.most ≡ publisher.old.most }
    ensures done { IfOk result (λ _. HasDone publisher.old jobs.now outcomes.new.items publisher.new) }
    ensures stops { Stops publisher.old jobs.now publisher.new }
    ensures fault { IfErr result (λ fault. fault ≡ Memory) }
    ensures worked { AllZip Worked desks.old desks.new }
{
    // If there is nothing to publish or no query, one of the two does nothing: it calls no gate, and nothing waits for
    // it.
    if (jobs.is_empty() && publisher.pending() == 0) || are_idle(desks) {
        let published = do_jobs(rt, gate, alloc, publisher, jobs, outcomes);
        work_all(rt, gate, alloc, 0, desks);
        return published;
    }
    let (published, ()) = join_mut(
        rt,
        &mut || do_jobs(rt, gate, alloc, publisher, jobs, outcomes),
        &mut ||
            requires { IsSync R.row × IsSync G.row × (length desks.now ≤ 16) }
            ensures { AllZip Worked desks.entry.now desks.exit.now }
        { work_all(rt, gate, alloc, 0, desks) },
    );
    published
}

/// Serves a slice of desks, and returns the version at the end.
fn serve_slice<R: Threads + Wait + Sync, G: Gate + Sync>(
    rt: &R,
    alloc: Global,
    publisher: &mut Publisher,
    outcomes: &mut Vec<Result<Accepted, StoreFault>>,
    jobs: &[Job],
    gate: &G,
    desks: &mut [Desk],
) -> Result<Version, ServeFault>
    requires book { AllByRecursion (λ d. d.reader.book ≡ publisher.old.seen.book) desks.old }
    requires count { length desks.old ≤ 16 }
    ensures book { publisher.new.seen.book ≡ publisher.old.seen.book }
    ensures most { publisher.new.most ≡ publisher.old.most }
    ensures kept { AllZip KeepsDesk desks.old desks.new }
    ensures store { AllByRecursion (λ d. d.reader.book ≡ publisher.new.seen.book) desks.new }
    ensures done { IfOk result (λ _. HasDone publisher.old jobs.now outcomes.new.items publisher.new) }
    ensures version { IfOk result (λ version. version ≡ version_of publisher.new.seen.batches) }
    ensures desks { IfOk result (λ _. AllZip (IsServed publisher.old.seen publisher.new.seen) desks.old desks.new) }
    ensures stops { Stops publisher.old jobs.now publisher.new }
    ensures fault { IfErr result (EndsAhead publisher.new.seen desks.new) }
{
    let opening = publisher.tell();
    learn_all(desks, &opening);
    run_all(rt, alloc, publisher, outcomes, jobs, gate, desks)?;
    if let Some(fault) = first_fault(desks) {
        return Err(fault);
    }
    let closing = publisher.tell();
    match settle_all(desks, &closing) {
        Ok(()) => Ok(closing.version()),
        Err(fault) => Err(fault),
    }
}

/// Answers the queries of all desks, each query from one entry, while the publisher publishes what is pending and then
/// does the jobs one after another. A job is a load; if it is accepted, it is published by itself.
///
/// Each desk with queries is worked in a thread of its own, while another thread publishes. A desk without queries
/// takes no thread; neither does the publishing if nothing is pending and there are no jobs, or if there are no
/// queries. First every reader learns what is published, and at the end it settles with what is published then. If
/// the system can't start a thread, that thread's work is done in turn.
///
/// After a fault don't rely on the desks' `answers` and `fault`. The store has the loads that it had, followed by the
/// accepted loads of a prefix of the jobs, and no others; at most the last of these is pending. `Closed` is returned
/// only if it is the fault of a desk.
pub fn serve<R: Threads + Wait + Sync, G: Gate + Sync>(
    rt: &R,
    alloc: Global,
    publisher: &mut Publisher,
    desks: &mut Vec<Desk>,
    jobs: Vec<Job>,
    gate: &G,
) -> Result<Served, ServeFault>
    requires book { All (λ d. d.reader.book ≡ publisher.old.seen.book) desks.old.items }
    requires count { (1 ≤ vec_len desks.old) × (vec_len desks.old ≤ 16) }
    ensures book { publisher.new.seen.book ≡ publisher.old.seen.book }
    ensures most { publisher.new.most ≡ publisher.old.most }
    ensures kept { AllZip KeepsDesk desks.old.items desks.new.items }

    // The desks may be served again.
    ensures again { All (λ d. d.reader.book ≡ publisher.new.seen.book) desks.new.items }
    ensures as_many { vec_len desks.new ≡ vec_len desks.old }

    // The outcomes of the jobs, what is published at the end, and what each desk has.
    ensures done { IfOk result (λ s. HasDone publisher.old jobs.items s.outcomes.items publisher.new) }
    ensures version { IfOk result (λ s. s.version ≡ version_of publisher.new.seen.batches) }
    ensures desks { IfOk result (λ _.
        AllZip (IsServed publisher.old.seen publisher.new.seen) desks.old.items desks.new.items) }

    // What the store is like after a fault. It also holds without one.
    ensures stops { Stops publisher.old jobs.items publisher.new }
    ensures fault { IfErr result (EndsAhead publisher.new.seen desks.new.items) }
{
    let mut outcomes = Vec::new(alloc);
    match serve_slice(
        rt,
        alloc,
        publisher,
        &mut outcomes,
        jobs.as_slice(),
        gate,
        desks.as_mut_slice(),
    ) {
        Ok(version) => Ok(Served { outcomes, version }),
        Err(fault) => Err(fault),
    }
}
