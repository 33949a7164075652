//! The publishing thread.
ghost use Rattle.std.specs.Prelude.{◌≡◌, [], IfOk, OnErr, IfErr};
ghost use Rattle.desks.specs.Jobs.{IsAccepted, IsRefused, Does, HasDone, Stops};
ghost use Rattle.desks.specs.Working.{LeavesOne};
ghost use Rattle.desks.specs.declared.desk.ServeFault.TheVariants.{Memory};

use crate::desk::ServeFault;
use crate::gate::{Gate, Place};
use crate::job::{Accepted, Job, Source};
use live_versions::{Publisher, StoreFault};
use std::alloc::Global;
use std::sync::Wait;

/// Loads a job's source: a PO text with `Publisher::load`, an MO file with `Publisher::load_mo`. A refused load changes
/// nothing.
pub fn load_job(alloc: Global, publisher: &mut Publisher, job: &Job) -> Result<Accepted, StoreFault>
    ensures ok { IfOk result (λ counts. IsAccepted publisher.old job.now counts publisher.new) }
    ensures err { IfErr result (IsRefused publisher.old job.now) }
    ensures unchanged { OnErr result (publisher.new ≡ publisher.old) }
    ensures seen { publisher.new.seen ≡ publisher.old.seen }
{
    let (domain, locale) = (job.domain.as_str(), job.locale.as_str());
    match &job.source {
        Source::Po { bytes, options } => {
            let stats = publisher.load(alloc, domain, locale, bytes.as_slice(), *options)?;
            Ok(Accepted::Po(stats))
        }
        Source::Mo { bytes } => {
            let entries = publisher.load_mo(alloc, domain, locale, bytes.as_slice())?;
            Ok(Accepted::Mo(entries))
        }
    }
}

/// Does one job: loads its source, and publishes if the load is accepted. Fails only if memory runs out.
fn do_job<R: Wait>(
    rt: &R,
    alloc: Global,
    publisher: &mut Publisher,
    job: &Job,
) -> Result<Result<Accepted, StoreFault>, ServeFault>
    requires { publisher.old.pending ≡ [] }
    ensures book { publisher.new.seen.book ≡ publisher.old.seen.book }
    ensures most { publisher.new.most ≡ publisher.old.most }
    ensures ok { IfOk result (λ outcome. Does publisher.old job.now outcome publisher.new) }
    ensures err { OnErr result (LeavesOne publisher.old job.now publisher.new) }
    ensures fault { IfErr result (λ fault. fault ≡ Memory) }
{
    match load_job(alloc, publisher, job) {
        Ok(counts) => {
            if publisher.publish(rt).is_err() {
                return Err(ServeFault::Memory);
            }
            Ok(Ok(counts))
        }
        Err(fault) => match fault {
            StoreFault::Memory => Err(ServeFault::Memory),
            _ => Ok(Err(fault)),
        },
    }
}

/// Publishes what is pending, and then does the jobs one after another. It stops if memory runs out.
pub(crate) fn do_jobs<R: Wait, G: Gate>(
    rt: &R,
    gate: &G,
    alloc: Global,
    publisher: &mut Publisher,
    jobs: &[Job],
    outcomes: &mut Vec<Result<Accepted, StoreFault>>,
) -> Result<(), ServeFault>
    ensures book { publisher.new.seen.book ≡ publisher.old.seen.book }
    ensures most { publisher.new.most ≡ publisher.old.most }
    ensures ok { IfOk result (λ _. HasDone publisher.old jobs.now outcomes.new.items publisher.new) }
    ensures stops { Stops publisher.old jobs.now publisher.new }
    ensures fault { IfErr result (λ fault. fault ≡ Memory) }
{
    outcomes.clear();
    if publisher.publish(rt).is_err() {
        return Err(ServeFault::Memory);
    }
    for index in 0..jobs.len() {
        gate.pass(Place::Publishing, index as u64);
        let outcome = do_job(rt, alloc, publisher, &jobs[index])?;
        if outcomes.push(outcome).is_err() {
            return Err(ServeFault::Memory);
        }
    }
    Ok(())
}
