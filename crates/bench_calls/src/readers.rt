//! The work of the readers that are timed.
use crate::messages::translation_of;
use desks::Answer;
use live_set::{Ask, Query};
use live_versions::Lookups;
use std::alloc::Global;
use std::sync::atomic::AtomicBool;
use std::sync::atomic::Ordering::SeqCst;

/// Work that has nothing to do with a store.
fn other_work(turns: u32, mut state: u64) -> u64 {
    'turns: for _ in 0..turns {
        state = state
            .wrapping_mul(6_364_136_223_846_793_005)
            .wrapping_add(1_442_695_040_888_963_407);
    }
    state
}

/// Enters `entries` times, with other work after each entry, and returns how many entries had a version below the one
/// before.
pub fn enter_many(reader: &mut Lookups, entries: u32, work: u32) -> u64 {
    let mut last = reader.seen();
    let mut state: u64 = 1;
    let mut fallen: u64 = 0;
    'turns: for _ in 0..entries {
        let Ok(pinned) = reader.enter() else {
            return u64::from(entries);
        };
        let version = pinned.version();
        pinned.leave();
        if version < last {
            fallen = fallen.saturating_add(1);
        }
        last = version;
        state = other_work(work, state);
    }
    // Uses the result of the work, so that the compiler can't leave it out.
    if state == 0 { u64::MAX } else { fallen }
}

/// Enters until `done` is set. Returns the number of entries, and how many of them had a version below the one before.
pub fn enter_until(reader: &mut Lookups, done: &AtomicBool, work: u32) -> (u64, u64) {
    let (mut entries, mut fallen) = (0_u64, 0_u64);
    'turns: for _ in 0..u64::MAX {
        if done.load(SeqCst) {
            break;
        }
        fallen = fallen.saturating_add(enter_many(reader, 1000, work));
        entries = entries.saturating_add(1000);
    }
    (entries, fallen)
}

/// Whether a text is the answer to a query: the translation in the last language of its list.
pub fn is_answer(alloc: Global, query: &Query, text: &str) -> bool {
    let Ask::Plain { id } = &query.ask else {
        return false;
    };
    let language = match query.languages.rsplit_once(':') {
        Some((_, last)) => last,
        None => query.languages.as_str(),
    };
    match translation_of(alloc, language, id) {
        Ok(wanted) => wanted.as_str() == text,
        Err(_) => false,
    }
}

/// Makes each query `rounds` times by `ask`, and returns how often that was false.
fn lost_by<F: FnMut(&Query) -> bool>(queries: &[Query], rounds: u32, mut ask: F) -> u64
    requires { (f : _) (x : _) → F.pre f x }
{
    let mut lost: u64 = 0;
    'rounds: for _ in 0..rounds {
        'queries: for query in queries {
            if !ask(query) {
                lost = lost.saturating_add(1);
            }
        }
    }
    lost
}

/// Makes each query once, and returns the number of wrong answers.
pub fn ask_each(alloc: Global, reader: &mut Lookups, queries: &[Query]) -> u64 {
    lost_by(queries, 1, |query| match reader.ask(alloc, query) {
        Ok((_, text)) => is_answer(alloc, query, &text),
        Err(_) => false,
    })
}

/// Makes each query `rounds` times, and returns how many got no answer.
pub fn ask_all(alloc: Global, reader: &mut Lookups, queries: &[Query], rounds: u32) -> u64 {
    lost_by(queries, rounds, |query| reader.ask(alloc, query).is_ok())
}

/// Like `ask_all`, with all answers written into one `String`.
pub fn ask_all_into(alloc: Global, reader: &mut Lookups, queries: &[Query], rounds: u32) -> u64 {
    let mut text = String::new(alloc);
    lost_by(
        queries,
        rounds,
        |query| reader.ask_into(query, &mut text).is_ok(),
    )
}

/// Makes each query once, and keeps the answers. Returns how many queries got none.
pub fn keep_all(alloc: Global, reader: &mut Lookups, queries: &[Query]) -> u64 {
    let mut answers = Vec::new(alloc);
    'queries: for query in queries {
        let kept = match reader.ask(alloc, query) {
            Ok((version, text)) => answers.push(Answer { version, text }).is_ok(),
            Err(_) => false,
        };
        if !kept {
            break;
        }
    }
    queries.len().abs_diff(answers.len()) as u64
}

/// Enters for each query and looks its text up without a copy. Returns how many were empty or not entered for.
pub fn look_all(reader: &mut Lookups, queries: &[Query], rounds: u32) -> u64 {
    lost_by(queries, rounds, |query| {
        let Ok(pinned) = reader.enter() else {
            return false;
        };
        let found = !pinned.look(query).is_empty();
        pinned.leave();
        found
    })
}
