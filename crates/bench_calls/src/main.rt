//! Times single calls, as `signature`, plural rules and look-ups in a catalogue, and a live store.
//!
//!     bench_calls                          formats and the store, the latter small, and each soak for a second
//!     bench_calls format                   lists of C formats (`format`)
//!     bench_calls lookups MO IDS N         each msgid of the file IDS in the file MO, N times (`lookups`)
//!     bench_calls plural HEADERS N         the rule of each line of the file HEADERS, N times (`plural`)
//!     bench_calls store [MESSAGES [PUBLISHES]]   a store, with MESSAGES in each of 20 languages (`store`)
//!     bench_calls soak [SECONDS]           look-ups while catalogues are replaced (`soak`)
//!     bench_calls soak_serve [SECONDS]     `serve`, over and over (`soak_serve`)
//!
//! Of a store, standard output has only what went wrong, so it is equal for equal runs; the times go to standard error.
#![tactic(auto)]

mod entries;
mod format;
mod languages;
mod lists;
mod loads;
mod lookups;
mod messages;
mod plural;
mod publishes;
mod queries;
mod readers;
mod serving;
mod soak;
mod soak_serve;
mod store;
mod times;

use crate::store::{MESSAGES, TURNS, Work, time_store, with_store};
use std::fs::Files;
use std::rt::Clock;
use std::sync::Wait;
use std::thread::Threads;
use std::time::CpuClock;
use std::{env, io};

/// How long a soak takes, in seconds, if no argument says so.
const SECONDS: u32 = 60;

/// An argument, or an empty text if there is none with this index.
fn word(words: &[String], index: usize) -> &str {
    match words.get(index) {
        Some(word) => word.as_str(),
        None => "",
    }
}

/// The number that a word is, or `otherwise` if it is none.
fn number_of(word: &str, otherwise: u32) -> u32 {
    word.parse::<u32>().unwrap_or(otherwise)
}

fn print_usage<R: Eprint>(rt: &R) -> io::Result<()> {
    eprintln!(rt;
        "usage: bench_calls [format | lookups MO IDS N | plural HEADERS N | store | soak | soak_serve]"
    )
}

/// Times formats and a small store, and runs each soak for a second.
fn time_all<R: Print + Eprint + Clock + CpuClock + Threads + Wait + AllocGlobal + Sync>(
    rt: &R,
) -> io::Result<()> {
    format::time_formats(rt)?;
    time_store(rt, MESSAGES, TURNS)?;
    with_store(rt, Work::Soak(1))?;
    with_store(rt, Work::SoakServe(1))
}

/// Times what the words after the program's name say.
fn time_words<R: Print + Eprint + Clock + CpuClock + Files + Threads + Wait + AllocGlobal + Sync>(
    rt: &R,
    words: &[String],
) -> io::Result<()> {
    let (first, second, third) = (word(words, 2), word(words, 3), word(words, 4));
    match word(words, 1) {
        "format" => format::time_formats(rt),
        "lookups" => match third.parse::<u32>() {
            Ok(rounds) => lookups::time_lookups(rt, first, second, rounds),
            Err(_) => print_usage(rt),
        },
        "plural" => match second.parse::<u32>() {
            Ok(rounds) => plural::time_rules(rt, first, rounds),
            Err(_) => print_usage(rt),
        },
        "store" => time_store(rt, number_of(first, MESSAGES), number_of(second, TURNS)),
        "soak" => with_store(rt, Work::Soak(u64::from(number_of(first, SECONDS)))),
        "soak_serve" => with_store(rt, Work::SoakServe(u64::from(number_of(first, SECONDS)))),
        _ => print_usage(rt),
    }
}

fn main(rt: HostRuntime) -> io::Result<()> {
    let words: Vec<String> = env::args(&rt)?.collect(rt.alloc())?;
    if words.len() < 2 {
        return time_all(&rt);
    }
    time_words(&rt, &words)
}
