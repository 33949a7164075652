//! Times plural rules; `bench/plural/run` compares them with the same rules in C.
use po_header::read_rule;
use std::alloc::{AllocError, Global};
use std::fs::Files;
use std::rt::Clock;
use std::time::Instant;
use std::{fs, io};

/// The numbers whose forms are summed: those below this one.
const TOP: u64 = 1001;

/// How often a rule is read.
const READS: u64 = 1000;

/// The sum of the forms of the numbers below `top`, `rounds` times, by the rule of a header's text with its table.
#[inline(never)]
fn sum_forms(alloc: Global, text: &str, top: u64, rounds: u64) -> Result<u64, AllocError> {
    let mut rule = read_rule(alloc, text)?;
    rule.tabulate(alloc)?;
    let mut sum: u64 = 0;
    for _ in 0..rounds {
        for n in 0..top {
            sum = sum.wrapping_add(rule.form_index(n));
        }
    }
    Ok(sum)
}

/// Reads the rule of a header's text `READS` times, each time with its table, and gives the sum of the forms of 2.
#[inline(never)]
fn read_often(alloc: Global, text: &str) -> Result<u64, AllocError> {
    let mut sum: u64 = 0;
    for _ in 0..READS {
        let mut rule = read_rule(alloc, text)?;
        rule.tabulate(alloc)?;
        sum = sum.wrapping_add(rule.form_index(2));
    }
    Ok(sum)
}

/// Sums the forms of the numbers below `TOP`. Returns the sum, and the picoseconds of a number.
fn time_sum<R: Clock + AllocGlobal>(rt: &R, text: &str, rounds: u64) -> io::Result<(u64, u128)> {
    let start = Instant::now(rt)?;
    let sum = sum_forms(rt.alloc(), text, TOP, rounds)?;
    let taken = start.elapsed(rt)?.as_nanos().saturating_mul(1000);
    Ok((sum, taken / u128::from(TOP.saturating_mul(rounds).max(1))))
}

/// Reads a rule often. Returns the sum of the forms of 2, and the picoseconds of a reading.
fn time_reads<R: Clock + AllocGlobal>(rt: &R, text: &str) -> io::Result<(u64, u128)> {
    let start = Instant::now(rt)?;
    let sum = read_often(rt.alloc(), text)?;
    let taken = start.elapsed(rt)?.as_nanos().saturating_mul(1000);
    Ok((sum, taken / u128::from(READS)))
}

/// Times one rule, after a first time that isn't timed. Prints the sum of its forms, the picoseconds of a number and of
/// a reading, and whether both times gave the same.
fn time_rule<R: Print + Clock + AllocGlobal>(rt: &R, text: &str, rounds: u64) -> io::Result<()> {
    let first_sum = sum_forms(rt.alloc(), text, TOP, rounds)?;
    let first_read = read_often(rt.alloc(), text)?;
    let (sum, number) = time_sum(rt, text, rounds)?;
    let (read, reading) = time_reads(rt, text)?;
    let steady = sum == first_sum && read == first_read;
    println!(rt; "{sum} {number} {reading} {steady}")
}

/// Times the rule of each line of a text.
fn time_lines<R: Print + Clock + AllocGlobal>(
    rt: &R,
    headers: &str,
    rounds: u64,
) -> io::Result<()> {
    for header in headers.lines() {
        time_rule(rt, header, rounds)?;
    }
    Ok(())
}

/// Times the rule of each header in a file, one header a line, over the numbers below `TOP`, `rounds` times.
pub fn time_rules<R: Print + Clock + Files + AllocGlobal>(
    rt: &R,
    headers: &str,
    rounds: u32,
) -> io::Result<()> {
    let headers = fs::read_to_string(rt, headers)?;
    time_lines(rt, &headers, u64::from(rounds))
}
