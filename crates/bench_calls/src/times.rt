//! Reading the clock, and what is printed of something that was timed.
//!
//! A time is `None` if the clock couldn't be read. So a function that times something has no exit for that.
use std::io;
use std::rt::Clock;
use std::time::{Duration, Instant};

/// Reads the clock.
pub fn now<R: Clock>(rt: &R) -> Option<Instant> {
    Instant::now(rt).ok()
}

/// The time since a reading of the clock.
pub fn since<R: Clock>(rt: &R, start: Option<Instant>) -> Option<Duration> {
    start?.elapsed(rt).ok()
}

/// Whether fewer than `seconds` have passed since a reading of the clock.
pub fn is_within<R: Clock>(rt: &R, start: Option<Instant>, seconds: u64) -> bool {
    match since(rt, start) {
        Some(taken) => taken.as_secs() < seconds,
        None => false,
    }
}

/// The sum of two times.
pub fn sum_of(one: Option<Duration>, other: Option<Duration>) -> Option<Duration> {
    Some(one?.saturating_add(other?))
}

/// Prints how long each of `turns` turns took, and how many went wrong.
pub fn print_time<R: Print + Eprint>(
    rt: &R,
    what: &str,
    taken: Option<Duration>,
    turns: u64,
    wrong: u64,
) -> io::Result<()> {
    let Some(taken) = taken else {
        return println!(rt; "{what}: no clock");
    };
    let nanos = taken.as_nanos() / u128::from(turns.max(1));
    println!(rt; "{what}: {wrong} wrong")?;
    eprintln!(rt; "{what}: {nanos} ns each, {turns} times")
}
