//! Entries, of one reader, and of many while a publisher publishes or does nothing.
use crate::messages::{PLAIN, po_text};
use crate::readers::{enter_many, enter_until};
use crate::times::{now, print_time, since};
use live_versions::{Lookups, Publisher};
use std::io;
use std::rt::Clock;
use std::sync::Wait;
use std::sync::atomic::AtomicBool;
use std::sync::atomic::Ordering::SeqCst;
use std::thread::{Threads, join, map_vec};
use std::time::{Duration, Instant};

/// The number of entries that one reader makes.
const ENTRIES: u32 = 1_000_000;

/// Readers at work while a publisher may publish.
#[derive(Clone, Copy)]
pub struct Beside {
    pub readers: u32,
    /// Turns of other work that a reader does after each entry.
    pub work: u32,
    /// Whether the publisher publishes.
    pub publishing: bool,
    /// How often it does, or how many milliseconds it waits.
    pub turns: u32,
}

/// Loads a French text, if there is one, and publishes it.
fn replace<R: Wait + AllocGlobal>(rt: &R, publisher: &mut Publisher, text: Option<&str>) -> bool {
    let Some(text) = text else {
        return true;
    };
    let loaded = publisher.load(rt.alloc(), "app", "fr", text.as_bytes(), PLAIN);
    let published = publisher.publish(rt);
    loaded.is_ok() && published.is_ok()
}

/// Sleeps until `due` has passed since `start`.
fn sleep_until<R: Wait + Clock>(rt: &R, start: Option<Instant>, due: Duration) {
    if let Some(left) = due.checked_sub(since(rt, start).unwrap_or(due)) {
        std::thread::sleep(rt, left);
    }
}

/// Publishes `turns` times, once in each millisecond, or only waits for that long if there is no text. A late publish
/// doesn't delay those after it. Then sets `done`. Returns how many publishes failed, and the time that all of it took.
fn publish_many<R: Wait + Clock + AllocGlobal>(
    rt: &R,
    publisher: &mut Publisher,
    text: Option<&str>,
    turns: u32,
    done: &AtomicBool,
) -> (u64, Option<Duration>) {
    let start = now(rt);
    let mut wrong: u64 = 0;
    'turns: for turn in 0..turns {
        if !replace(rt, publisher, text) {
            wrong = wrong.saturating_add(1);
        }
        sleep_until(rt, start, Duration::from_millis(u64::from(turn) + 1));
    }
    done.store(true, SeqCst);
    (wrong, since(rt, start))
}

/// Times one reader that enters and leaves.
pub fn time_reader<R: Print + Eprint + Clock>(rt: &R, reader: &mut Lookups) -> io::Result<()> {
    let start = now(rt);
    let wrong = enter_many(reader, ENTRIES, 0);
    let taken = since(rt, start);
    print_time(rt, "entries, one reader", taken, u64::from(ENTRIES), wrong)
}

/// What readers and a publisher did beside one another.
#[derive(Clone, Copy)]
struct Done {
    entries: u64,
    wrong: u64,
    publishing: Option<Duration>,
    taken: Option<Duration>,
}

/// What was done, of what each reader counted.
fn done_by(
    found: &[(u64, u64)],
    unpublished: u64,
    publishing: Option<Duration>,
    taken: Option<Duration>,
) -> Done {
    let (mut entries, mut wrong) = (0_u64, unpublished);
    'readers: for (entered, fallen) in found {
        entries = entries.saturating_add(*entered);
        wrong = wrong.saturating_add(*fallen);
    }
    Done {
        entries,
        wrong,
        publishing,
        taken,
    }
}

/// Times readers that enter and leave, while a publisher publishes or does nothing.
pub fn time_beside<R: Print + Eprint + Clock + Threads + Wait + AllocGlobal + Sync>(
    rt: &R,
    publisher: &mut Publisher,
    readers: Vec<Lookups>,
    beside: Beside,
) -> io::Result<()> {
    match po_text(rt.alloc(), 0, 100) {
        Ok(text) => run_beside(rt, publisher, readers, beside, &text),
        Err(_) => println!(rt; "out of memory"),
    }
}

fn run_beside<R: Print + Eprint + Clock + Threads + Wait + AllocGlobal + Sync>(
    rt: &R,
    publisher: &mut Publisher,
    readers: Vec<Lookups>,
    beside: Beside,
    text: &str,
) -> io::Result<()> {
    let text = if beside.publishing { Some(text) } else { None };
    let done = AtomicBool::new(false);
    let start = now(rt);
    let (found, (unpublished, publishing)) = join(
        rt,
        || map_vec(
            rt,
            readers,
            &|mut reader: Lookups| enter_until(&mut reader, &done, beside.work),
        ),
        || publish_many(rt, publisher, text, beside.turns, &done),
    );
    let taken = since(rt, start);
    match found {
        Ok(found) => print_beside(rt, beside, done_by(&found, unpublished, publishing, taken)),
        Err(_) => println!(rt; "out of memory"),
    }
}

/// Prints how many entries went wrong, and how many each reader made in a millisecond.
fn print_beside<R: Print + Eprint>(rt: &R, beside: Beside, done: Done) -> io::Result<()> {
    let (Some(spent), Some(taken)) = (done.publishing, done.taken) else {
        return println!(rt; "entries: no clock");
    };
    let count = beside.readers;
    let busy = if beside.work == 0 { "" } else { " busy" };
    let publishes = if beside.publishing { beside.turns } else { 0 };
    let (wrong, spent, taken) = (done.wrong, spent.as_millis(), taken.as_millis());
    let each = u128::from(done.entries) / taken.max(1) / u128::from(count.max(1));
    println!(rt; "entries, {count}{busy} readers: {wrong} wrong")?;
    eprintln!(rt;
        "entries, {count}{busy} readers beside {publishes} publishes in {spent} ms: {each} each in a ms, for {taken} ms"
    )
}
