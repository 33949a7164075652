//! The player of scripts and sessions: a store, the desks of its workers, and the lines that are held back.
ghost use Rattle.std.specs.Prelude.{◌≡◌, ◌≤◌, IfOk, IfErr, OnOk, length};
ghost use Rattle.live_versions.specs.Store.{HasRoom};
ghost use Rattle.script_text.specs.ScriptFields.{most_workers};
ghost use Rattle.catserve.specs.Hearing.{command_of};
ghost use Rattle.devices.specs.Devices.{output_seen};
ghost use Rattle.catserve.specs.Running.{HaveBook, IsOpenKind, kind_of_open, load_of};
ghost use Rattle.catserve.specs.Talking.{FailsToAnswer, GivesQuestion, IsFresh, MakesLoad};
ghost use Rattle.catserve.specs.Timing.{GivesRound, GivesSome, RespondsInTime};

use crate::asking::{give, open_desks};
use crate::hearing::Heard;
use crate::output::load_line;
use crate::round::finish;
use desks::{Desk, Job, Source, load_job};
use devices::Sink;
use live_set::Query;
use live_versions::{OpenFault, Publisher, open_store};
use script_text::{Line, ScriptKind};
use std::alloc::{AllocError, Global};
use std::marker::Model;
use std::sync::Wait;
use std::thread::Threads;

/// A store with a desk for each worker, the lines that are held back, and whether the open round has a load or a
/// question.
pub(crate) struct Player {
    publisher: Publisher,
    desks: Vec<Desk>,
    held: Vec<u8>,
    begun: bool,
}

impl Model for Player {
    ghost use Rattle.catserve.specs.Talking.{PlayerValue};

    ghost Value = { PlayerValue };

    ghost view = { λ t. record { store = t.publisher; desks = t.desks.items; held = t.held.items; begun = t.begun } };
}

/// The fault of an opening as an error of a script.
fn kind_of_open(fault: OpenFault) -> ScriptKind
    ensures { result ≡ kind_of_open fault }
{
    match fault {
        OpenFault::BadCount | OpenFault::NoPlace => ScriptKind::NoPlace,
        OpenFault::Memory => ScriptKind::Memory,
    }
}

impl Player {
    /// Opens a store with this number of workers.
    pub(crate) fn open<T: Wait>(rt: &T, alloc: Global, workers: u32) -> Result<Player, ScriptKind>
        ensures ok { IfOk result (λ player. IsFresh workers player) }
        ensures fault { IfErr result IsOpenKind }
    {
        let (publisher, readers) = match open_store(rt, alloc, workers, u64::MAX) {
            Ok(opened) => opened,
            Err(fault) => return Err(kind_of_open(fault)),
        };
        match open_desks(alloc, readers) {
            Ok(desks) => Ok(Player {
                publisher,
                desks,
                held: Vec::new(alloc),
                begun: false,
            }),
            Err(_) => {
                publisher.end(rt);
                Err(ScriptKind::Memory)
            }
        }
    }

    /// Ends the store.
    pub(crate) fn end<T: Wait>(self, rt: &T) {
        let Player {
            publisher,
            desks: _,
            held: _,
            begun: _,
        } = self;
        publisher.end(rt);
    }

    /// Whether the open round has a load or a question.
    pub(crate) fn has_begun(&self) -> bool
        ensures { result ≡ self.now.begun }
    {
        self.begun
    }

    /// Makes a load, and holds its line back.
    fn load(&mut self, alloc: Global, job: Job) -> Result<(), AllocError>
        requires { HasRoom self.old.store }
        ensures { OnOk result (MakesLoad (load_of job) self.old self.new) }
    {
        let made = load_job(alloc, &mut self.publisher, &job);
        let line = load_line(alloc, made)?;
        self.held.extend_from_slice(line.as_bytes())?;
        self.begun = true;
        Ok(())
    }

    /// Gives a question to the desk of its worker.
    fn ask(&mut self, worker: u32, query: Query) -> Result<(), AllocError>
        ensures { OnOk result (GivesQuestion worker query self.old self.new) }
    {
        give(self.desks.as_mut_slice(), worker, query)?;
        self.begun = true;
        Ok(())
    }

    /// Ends the round: publishes its loads, answers its questions, and writes all its lines.
    pub(crate) fn answer<T: Threads + Wait + Sync, W: Sink>(
        &mut self,
        rt: &T,
        alloc: Global,
        writer: &mut W,
    ) -> Result<(), ScriptKind>
        requires book { HaveBook self.old.store.seen self.old.desks }
        requires count { (1 ≤ length self.old.desks) × (length self.old.desks ≤ most_workers) }
        ensures ok { let output = output_seen W.contents W.failures in
            IfOk result (λ _. GivesRound self.old self.new (output writer.old) (output writer.new) (W.log writer.old)
            (W.log writer.new)) }
        ensures fault { let output = output_seen W.contents W.failures in
            IfErr result (λ kind. FailsToAnswer self.old self.new (output writer.old) (output writer.new) kind) }
        ensures broken { IfErr result (λ _. GivesSome (W.log writer.old) (W.log writer.new)) }
        ensures keeps { W.input writer.new ≡ W.input writer.old }
    {
        finish(
            rt,
            alloc,
            &mut self.publisher,
            &mut self.desks,
            &mut self.held,
        )?;
        match writer.write_all(self.held.as_slice()) {
            Ok(()) => {
                self.held.clear();
                self.begun = false;
                Ok(())
            }
            Err(_) => Err(ScriptKind::WriteFault),
        }
    }

    /// Does what was heard. Only the end of a round writes something.
    pub(crate) fn respond<T: Threads + Wait + Sync, W: Sink>(
        &mut self,
        rt: &T,
        alloc: Global,
        heard: Heard,
        writer: &mut W,
    ) -> Result<(), ScriptKind>
        requires room { HasRoom self.old.store }
        requires book { HaveBook self.old.store.seen self.old.desks }
        requires count { (1 ≤ length self.old.desks) × (length self.old.desks ≤ most_workers) }
        ensures ok { let output = output_seen W.contents W.failures in
            IfOk result (λ _. RespondsInTime (command_of heard) self.old self.new (output writer.old)
            (output writer.new) (W.log writer.old) (W.log writer.new)) }
        ensures fault { let output = output_seen W.contents W.failures in
            IfErr result (λ kind. FailsToAnswer self.old self.new (output writer.old) (output writer.new) kind) }
        ensures broken { IfErr result (λ _. GivesSome (W.log writer.old) (W.log writer.new)) }
        ensures keeps { W.input writer.new ≡ W.input writer.old }
    {
        let Heard { line, text } = heard;
        match line {
            Line::Blank => Ok(()),
            Line::Loads {
                domain,
                locale,
                options,
                count: _,
            } => {
                let source = Source::Po {
                    bytes: text,
                    options,
                };
                let job = Job {
                    domain,
                    locale,
                    source,
                };
                Ok(self.load(alloc, job)?)
            }
            Line::LoadsMo {
                domain,
                locale,
                bytes,
            } => {
                let source = Source::Mo { bytes };
                let job = Job {
                    domain,
                    locale,
                    source,
                };
                Ok(self.load(alloc, job)?)
            }
            Line::Asks { worker, query } => Ok(self.ask(worker, query)?),
            Line::Goes => self.answer(rt, alloc, writer),
        }
    }
}
