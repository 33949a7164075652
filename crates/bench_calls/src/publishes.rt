//! Publishes of one catalogue with many others in the store.
use crate::messages::{PLAIN, locale_of, po_text};
use crate::times::{now, print_time, since, sum_of};
use live_versions::Publisher;
use std::alloc::Global;
use std::io;
use std::rt::Clock;
use std::sync::Wait;
use std::time::Duration;

/// The number of timed publishes of one catalogue.
const PUBLISHES: u32 = 1_000;

/// The number of other catalogues in the store during those publishes.
const OTHERS: u32 = 1_000;

/// Loads a text for another locale.
fn load_other(alloc: Global, publisher: &mut Publisher, other: u32, text: &str) -> bool {
    match locale_of(alloc, other) {
        Ok(locale) => publisher
            .load(alloc, "app", &locale, text.as_bytes(), PLAIN)
            .is_ok(),
        Err(_) => false,
    }
}

/// Loads a text for all other locales, and returns how many loads went wrong.
fn load_others(alloc: Global, publisher: &mut Publisher, text: &str) -> u64 {
    let mut wrong: u64 = 0;
    'others: for other in 0..OTHERS {
        if !load_other(alloc, publisher, other, text) {
            wrong = wrong.saturating_add(1);
        }
    }
    wrong
}

fn run_publishes<R: Print + Eprint + Clock + Wait + AllocGlobal>(
    rt: &R,
    publisher: &mut Publisher,
    text: &str,
) -> io::Result<()> {
    let mut wrong = load_others(rt.alloc(), publisher, text);
    let mut taken = Some(Duration::from_millis(0));
    'turns: for _ in 0..PUBLISHES {
        let loaded = publisher.load(rt.alloc(), "app", "fr", text.as_bytes(), PLAIN);
        let start = now(rt);
        let published = publisher.publish(rt);
        taken = sum_of(taken, since(rt, start));
        if loaded.is_err() || published.is_err() {
            wrong = wrong.saturating_add(1);
        }
    }
    let turns = u64::from(PUBLISHES);
    print_time(rt, "publishes of one catalogue", taken, turns, wrong)
}

/// Times publishes of one catalogue with many others in the store.
pub fn time_publishes<R: Print + Eprint + Clock + Wait + AllocGlobal>(
    rt: &R,
    publisher: &mut Publisher,
) -> io::Result<()> {
    match po_text(rt.alloc(), 0, 10) {
        Ok(text) => run_publishes(rt, publisher, &text),
        Err(_) => println!(rt; "out of memory"),
    }
}
