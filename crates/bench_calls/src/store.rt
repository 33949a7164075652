//! Times a live store: entries, alone and of many readers while a publisher publishes; queries in one thread and in
//! four, and with lists of languages; `serve` on 1 to 16 desks, with and without jobs; publishes with many catalogues
//! in the store; loads of a PO text and of its MO file. Each is done with a store of its own.
ghost use Rattle.std.specs.Prelude.{◌≡◌, ◌≤◌, All, vec_len};

use crate::entries::{Beside, time_beside, time_reader};
use crate::lists::time_lists;
use crate::loads::time_loads;
use crate::publishes::time_publishes;
use crate::queries::time_queries;
use crate::serving::{Serving, time_serve};
use crate::soak::soak;
use crate::soak_serve::soak_serve;
use live_versions::{Lookups, Publisher, open_store};
use std::io;
use std::rt::Clock;
use std::sync::Wait;
use std::thread::Threads;

/// The number of messages of a language, if no argument says so.
pub const MESSAGES: u32 = 500;

/// The number of publishes while readers enter, if no argument says so.
pub const TURNS: u32 = 100;

/// Turns of other work that a busy reader does after each entry, about five microseconds.
const WORK: u32 = 30_000;

/// The number of readers beside a publisher, the turns of other work after each entry, and whether it publishes.
const BESIDES: &[(u32, u32, bool)] = &[
    (4, 0, false),
    (4, 0, true),
    (4, WORK, false),
    (4, WORK, true),
    (16, 0, false),
    (16, 0, true),
    (16, WORK, false),
    (16, WORK, true),
];

/// How often each query is made: often if they are few, once if they are many.
const ROUNDS: &[u32] = &[10, 1];

/// The numbers of desks that are timed.
const DESKS: &[u32] = &[1, 2, 4, 8, 16];

/// The numbers of jobs of the publishing thread.
const JOBS: &[u32] = &[0, 1_000];

/// What is done in one thread, by one reader or the publisher.
#[derive(Clone, Copy)]
pub enum Alone {
    Entries,
    /// Queries by lists of languages, with this number of messages in each language.
    Lists(u32),
    Publishes,
    Loads,
}

/// What is done with a store.
#[derive(Clone, Copy)]
pub enum Work {
    Alone(Alone),
    /// Entries beside a publisher.
    Beside(Beside),
    /// Queries: the number of messages in each language, and of rounds.
    Queries(u32, u32),
    /// A call of `serve`.
    Serve(Serving),
    /// A soak, and how many seconds it takes.
    Soak(u64),
    SoakServe(u64),
}

impl Work {
    /// How many readers it takes.
    fn readers(self) -> u32 {
        match self {
            Work::Alone(_) => 1,
            Work::Beside(beside) => beside.readers,
            Work::Queries(_, _) | Work::Soak(_) => 4,
            Work::Serve(serving) => serving.desks,
            Work::SoakServe(_) => 8,
        }
    }
}

/// Does it with a store of its own.
pub fn with_store<R: Print + Eprint + Clock + Threads + Wait + AllocGlobal + Sync>(
    rt: &R,
    work: Work,
) -> io::Result<()> {
    let Ok((mut publisher, readers)) = open_store(rt, rt.alloc(), work.readers(), u64::MAX) else {
        return println!(rt; "no store");
    };
    let done = run(rt, &mut publisher, readers, work);
    publisher.end(rt);
    done
}

fn run<R: Print + Eprint + Clock + Threads + Wait + AllocGlobal + Sync>(
    rt: &R,
    publisher: &mut Publisher,
    readers: Vec<Lookups>,
    work: Work,
) -> io::Result<()>
    requires book { All (λ l. l.book ≡ publisher.old.seen.book) readers.items }
    requires count { (1 ≤ vec_len readers) × (vec_len readers ≤ 16) }
{
    match work {
        Work::Alone(alone) => run_alone(rt, publisher, readers, alone),
        Work::Beside(beside) => time_beside(rt, publisher, readers, beside),
        Work::Queries(messages, rounds) => time_queries(rt, publisher, readers, messages, rounds),
        Work::Serve(serving) => time_serve(rt, publisher, readers, serving),
        Work::Soak(seconds) => soak(rt, publisher, readers, seconds),
        Work::SoakServe(seconds) => soak_serve(rt, publisher, readers, seconds),
    }
}

fn run_alone<R: Print + Eprint + Clock + Wait + AllocGlobal>(
    rt: &R,
    publisher: &mut Publisher,
    mut readers: Vec<Lookups>,
    alone: Alone,
) -> io::Result<()> {
    let Some(reader) = readers.first_mut() else {
        return Ok(());
    };
    match alone {
        Alone::Entries => time_reader(rt, reader),
        Alone::Lists(messages) => time_lists(rt, publisher, reader, messages),
        Alone::Publishes => time_publishes(rt, publisher),
        Alone::Loads => time_loads(rt, publisher),
    }
}

/// Times entries beside a publisher, of 4 and of 16 readers.
fn time_entries<R: Print + Eprint + Clock + Threads + Wait + AllocGlobal + Sync>(
    rt: &R,
    turns: u32,
) -> io::Result<()> {
    with_store(rt, Work::Alone(Alone::Entries))?;
    'besides: for (readers, work, publishing) in BESIDES {
        let beside = Beside {
            readers: *readers,
            work: *work,
            publishing: *publishing,
            turns,
        };
        with_store(rt, Work::Beside(beside))?;
    }
    Ok(())
}

/// Times `serve` on 1 to 16 desks.
fn time_desks<R: Print + Eprint + Clock + Threads + Wait + AllocGlobal + Sync>(
    rt: &R,
    messages: u32,
) -> io::Result<()> {
    'desks: for desks in DESKS {
        'jobs: for jobs in JOBS {
            let serving = Serving {
                messages,
                desks: *desks,
                jobs: *jobs,
            };
            with_store(rt, Work::Serve(serving))?;
        }
    }
    Ok(())
}

/// Times a store with `messages` in each language, and `publishes` while readers enter.
pub fn time_store<R: Print + Eprint + Clock + Threads + Wait + AllocGlobal + Sync>(
    rt: &R,
    messages: u32,
    publishes: u32,
) -> io::Result<()> {
    time_entries(rt, publishes)?;
    'rounds: for rounds in ROUNDS {
        with_store(rt, Work::Queries(messages, *rounds))?;
    }
    with_store(rt, Work::Alone(Alone::Lists(messages)))?;
    time_desks(rt, messages)?;
    with_store(rt, Work::Alone(Alone::Publishes))?;
    with_store(rt, Work::Alone(Alone::Loads))
}
