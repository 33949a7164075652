//! The publishing thread.
ghost use Rattle.std.specs.Prelude.{◌≡◌, IfOk, IfErr, OnErr, OnOk};
ghost use Rattle.desks.specs.Jobs.{IsAccepted, IsRefused};
ghost use Rattle.life.specs.Boards.{numbers_of};
ghost use Rattle.life.specs.PublisherWork.{Does, DoesAll};

use crate::board::{Board, OfStore};
use crate::command::{Command, Outcome};
use desks::{Accepted, Gate, Job, Place, Source};
use live_versions::StoreFault;
use snapshot_store::{Notice, Publisher};
use std::alloc::{AllocError, Global};

/// Loads a job's source: a PO text with `Publisher::load`, an MO file with `Publisher::load_mo`.
fn load_job(alloc: Global, publisher: &mut Publisher, job: &Job) -> Result<Accepted, StoreFault>
    ensures ok { IfOk result (λ counts. IsAccepted publisher.old job.now counts publisher.new) }
    ensures err { IfErr result (IsRefused publisher.old job.now) }
    ensures unchanged { OnErr result (publisher.new ≡ publisher.old) }
    ensures seen { publisher.new.seen ≡ publisher.old.seen }
{
    let (domain, locale) = (job.domain.as_str(), job.locale.as_str());
    match &job.source {
        Source::Po { bytes, options } => {
            let stats = publisher.load(alloc, domain, locale, bytes.as_slice(), *options)?;
            Ok(Accepted::Po(stats))
        }
        Source::Mo { bytes } => {
            let entries = publisher.load_mo(alloc, domain, locale, bytes.as_slice())?;
            Ok(Accepted::Mo(entries))
        }
    }
}

/// Does a command. A publish that fails for any reason is `Unpublished`.
fn do_command(alloc: Global, publisher: &mut Publisher, command: &Command) -> Outcome
    ensures book { publisher.new.seen.book ≡ publisher.old.seen.book }
    ensures does { Does publisher.old command.now result publisher.new }
{
    match command {
        Command::Load(job) => match load_job(alloc, publisher, job) {
            Ok(counts) => Outcome::Loaded(counts),
            Err(fault) => Outcome::Refused(fault),
        },
        Command::Publish => match publisher.publish(alloc) {
            Ok(version) => Outcome::Published(version),
            Err(_) => Outcome::Unpublished,
        },
    }
}

/// Does the command with this index, and then leaves a notice of what is published.
fn do_and_tell(
    alloc: Global,
    publisher: &mut Publisher,
    board: &Board<Notice, OfStore>,
    index: usize,
    command: &Command,
) -> Outcome
    requires { board.now ≡ numbers_of publisher.old.seen.book }
    ensures book { publisher.new.seen.book ≡ publisher.old.seen.book }
    ensures does { Does publisher.old command.now result publisher.new }
{
    let outcome = do_command(alloc, publisher, command);
    board.post(index, publisher.tell());
    outcome
}

/// Does the commands in turn.
pub(crate) fn do_commands<G: Gate>(
    gate: &G,
    alloc: Global,
    publisher: &mut Publisher,
    board: &Board<Notice, OfStore>,
    commands: &[Command],
    outcomes: &mut Vec<Outcome>,
) -> Result<(), AllocError>
    requires { board.now ≡ numbers_of publisher.old.seen.book }
    ensures book { publisher.new.seen.book ≡ publisher.old.seen.book }
    ensures does { OnOk result (DoesAll publisher.old commands.now outcomes.new.items publisher.new) }
{
    outcomes.clear();
    for index in 0..commands.len() {
        gate.pass(Place::Publishing, index as u64);
        let outcome = do_and_tell(alloc, publisher, board, index, &commands[index]);
        outcomes.push(outcome)?;
    }
    Ok(())
}
