//! Queries in 20 languages, of one reader and of four at once.
use crate::languages::publish_languages;
use crate::messages::{Asked, LANGUAGES, queries};
use crate::readers::{ask_all, ask_all_into, ask_each, keep_all, look_all};
use crate::times::{now, print_time, since};
use live_set::Query;
use live_versions::{Lookups, Publisher};
use std::alloc::Global;
use std::io;
use std::rt::Clock;
use std::sync::Wait;
use std::thread::{Threads, map_vec};

/// How one reader makes its queries.
#[derive(Clone, Copy)]
enum Way {
    Look,
    Ask,
    AskInto,
    Keep,
}

/// The ways, each with what is printed of it.
const WAYS: &[(Way, &str)] = &[
    (Way::Look, "look-ups without a copy, one reader"),
    (Way::Ask, "queries, one reader"),
    (Way::AskInto, "queries into one text, one reader"),
    (Way::Keep, "queries kept, one reader"),
];

impl Way {
    /// How often each query is made in `rounds` rounds.
    fn rounds(self, rounds: u32) -> u32 {
        match self {
            Way::Keep => 1,
            _ => rounds,
        }
    }

    /// Makes each query so often, and returns how many got no answer.
    fn make_all(self, alloc: Global, reader: &mut Lookups, queries: &[Query], rounds: u32) -> u64 {
        match self {
            Way::Look => look_all(reader, queries, rounds),
            Way::Ask => ask_all(alloc, reader, queries, rounds),
            Way::AskInto => ask_all_into(alloc, reader, queries, rounds),
            Way::Keep => keep_all(alloc, reader, queries),
        }
    }
}

/// Times the queries of one reader, in each way.
fn time_one<R: Print + Eprint + Clock + AllocGlobal>(
    rt: &R,
    reader: &mut Lookups,
    queries: &[Query],
    rounds: u32,
) -> io::Result<()> {
    let count = queries.len();
    let wrong = ask_each(rt.alloc(), reader, queries);
    println!(rt; "{count} answers: {wrong} wrong")?;
    'ways: for (way, what) in WAYS {
        let start = now(rt);
        let wrong = way.make_all(rt.alloc(), reader, queries, rounds);
        let taken = since(rt, start);
        let turns = u64::from(way.rounds(rounds)).saturating_mul(count as u64);
        print_time(rt, what, taken, turns, wrong)?;
    }
    Ok(())
}

/// The sum of what the readers lost.
fn total(found: &[u64]) -> u64 {
    found.iter().fold(0, |sum, lost| sum.saturating_add(*lost))
}

/// Times the queries of four readers at once.
fn time_four<R: Print + Eprint + Clock + Threads + AllocGlobal + Sync>(
    rt: &R,
    readers: Vec<Lookups>,
    queries: &[Query],
    rounds: u32,
) -> io::Result<()> {
    let alloc = rt.alloc();
    let start = now(rt);
    let found = map_vec(
        rt,
        readers,
        &|mut reader: Lookups| ask_all(alloc, &mut reader, queries, rounds),
    );
    let taken = since(rt, start);
    let turns = u64::from(rounds)
        .saturating_mul(queries.len() as u64)
        .saturating_mul(4);
    match found {
        Ok(found) => print_time(rt, "queries, four readers", taken, turns, total(&found)),
        Err(_) => println!(rt; "out of memory"),
    }
}

fn run_queries<R: Print + Eprint + Clock + Threads + AllocGlobal + Sync>(
    rt: &R,
    mut readers: Vec<Lookups>,
    queries: &[Query],
    rounds: u32,
) -> io::Result<()> {
    if let Some(reader) = readers.first_mut() {
        time_one(rt, reader, queries, rounds)?;
    }
    time_four(rt, readers, queries, rounds)
}

/// Times queries of a store's readers. All rounds together make as many queries as the store has messages.
pub fn time_queries<R: Print + Eprint + Clock + Threads + Wait + AllocGlobal + Sync>(
    rt: &R,
    publisher: &mut Publisher,
    readers: Vec<Lookups>,
    messages: u32,
    rounds: u32,
) -> io::Result<()> {
    let asked = Asked {
        languages: LANGUAGES,
        messages,
        count: messages.saturating_mul(LANGUAGES) / rounds.max(1),
    };
    let published = publish_languages(rt, publisher, messages);
    match queries(rt.alloc(), asked, "") {
        Ok(queries) if published == Ok(true) => run_queries(rt, readers, &queries, rounds),
        _ => println!(rt; "out of memory"),
    }
}
