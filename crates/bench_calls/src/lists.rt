//! Queries with lists of languages where only the last one has the message.
ghost use Rattle.std.specs.Prelude.{◌≡◌};

use crate::languages::publish_languages;
use crate::messages::{Asked, LANGUAGES, PLAIN, other_text, queries};
use crate::readers::{ask_all, ask_each};
use crate::times::{now, print_time, since};
use live_set::Query;
use live_versions::{Lookups, Publisher};
use std::alloc::AllocError;
use std::io;
use std::rt::Clock;
use std::sync::Wait;

/// The number of members of a list, what precedes its last member (locales without a catalogue, and those of `OTHERS`,
/// whose catalogues have other messages), and what is printed of it.
const LISTS: &[(u32, &str, &str)] = &[
    (1, "", "queries by lists of 1, one reader"),
    (3, "aa:x0:", "queries by lists of 3, one reader"),
    (6, "aa:x0:bb:x1:cc:", "queries by lists of 6, one reader"),
];

/// The locales whose catalogues have other messages.
const OTHERS: &[&str] = &["x0", "x1"];

/// How often each query is made.
const ROUNDS: u32 = 10;

/// Loads the catalogues that have other messages.
fn load_others<R: AllocGlobal>(
    rt: &R,
    publisher: &mut Publisher,
    messages: u32,
) -> Result<bool, AllocError>
    ensures { publisher.new.seen.book ≡ publisher.old.seen.book }
{
    let text = other_text(rt.alloc(), messages)?;
    let mut all = true;
    'others: for locale in OTHERS {
        let loaded = publisher.load(rt.alloc(), "app", locale, text.as_bytes(), PLAIN);
        all = all && loaded.is_ok();
    }
    Ok(all)
}

/// Times one reader's queries.
fn time_list<R: Print + Eprint + Clock + AllocGlobal>(
    rt: &R,
    reader: &mut Lookups,
    queries: &[Query],
    members: u32,
    what: &str,
) -> io::Result<()> {
    let wrong = ask_each(rt.alloc(), reader, queries);
    println!(rt; "lists of {members}: {wrong} wrong")?;
    let start = now(rt);
    let lost = ask_all(rt.alloc(), reader, queries, ROUNDS);
    let taken = since(rt, start);
    let turns = u64::from(ROUNDS).saturating_mul(queries.len() as u64);
    print_time(rt, what, taken, turns, lost)
}

/// Times one reader's queries with lists that begin with `before`.
fn run_list<R: Print + Eprint + Clock + AllocGlobal>(
    rt: &R,
    reader: &mut Lookups,
    asked: Asked,
    members: u32,
    before: &str,
    what: &str,
) -> io::Result<()> {
    match queries(rt.alloc(), asked, before) {
        Ok(queries) => time_list(rt, reader, &queries, members, what),
        Err(_) => println!(rt; "out of memory"),
    }
}

/// Times one reader's queries with a list of each length.
fn run_lists<R: Print + Eprint + Clock + AllocGlobal>(
    rt: &R,
    reader: &mut Lookups,
    messages: u32,
) -> io::Result<()> {
    let asked = Asked {
        languages: LANGUAGES,
        messages,
        count: messages.saturating_mul(LANGUAGES) / ROUNDS,
    };
    'lists: for (members, before, what) in LISTS {
        run_list(rt, reader, asked, *members, before, what)?;
    }
    Ok(())
}

/// Times queries of one reader with lists of 1, 3 and 6 languages.
pub fn time_lists<R: Print + Eprint + Clock + Wait + AllocGlobal>(
    rt: &R,
    publisher: &mut Publisher,
    reader: &mut Lookups,
    messages: u32,
) -> io::Result<()> {
    let loaded = load_others(rt, publisher, messages);
    let published = publish_languages(rt, publisher, messages);
    if loaded == Ok(true) && published == Ok(true) {
        run_lists(rt, reader, messages)
    } else {
        println!(rt; "no catalogues")
    }
}
