//! Times the look-ups of msgids in a catalogue; `bench/lookups/run` compares them with look-ups from C. Standard error
//! has the time of one look-up; standard output has a number made of the translations, which a caller may compare.
use catalogue::Catalogue;
use mo_file::read_mo;
use std::fs::Files;
use std::rt::Clock;
use std::time::Instant;
use std::{fs, io};

/// Looks up all msgids, and sums the first bytes of their translations, from a number on. It is a call of its own, so
/// that no round is taken for another one.
#[inline(never)]
fn look_all(catalogue: &Catalogue, ids: &[&str], from: u64) -> u64 {
    let mut sum = from;
    for id in ids {
        let text = catalogue.gettext(id);
        if let Some(first) = text.as_bytes().first() {
            sum = sum.wrapping_add(u64::from(*first)).rotate_left(1);
        }
    }
    sum
}

/// Looks up all msgids several times, after a first time that isn't timed.
fn time_all<R: Print + Eprint + Clock>(
    rt: &R,
    catalogue: &Catalogue,
    ids: &[&str],
    rounds: u32,
) -> io::Result<()> {
    let mut sum = look_all(catalogue, ids, 0);
    let start = Instant::now(rt)?;
    for _ in 0..rounds {
        sum = look_all(catalogue, ids, sum);
    }
    let taken = start.elapsed(rt)?.as_nanos();
    let turns = u128::from(rounds) * ids.len() as u128;
    println!(rt; "{sum}")?;
    eprintln!(rt; "{} ps", taken.saturating_mul(1000) / turns.max(1))
}

/// Times the look-ups of each line of a text.
fn time_lines<R: Print + Eprint + Clock + AllocGlobal>(
    rt: &R,
    catalogue: &Catalogue,
    ids: &str,
    rounds: u32,
) -> io::Result<()> {
    let mut list = Vec::new(rt.alloc());
    for id in ids.lines() {
        list.push(id)?;
    }
    time_all(rt, catalogue, &list, rounds)
}

/// Opens the bytes of an MO file, makes its index, and times the look-ups.
fn time_file<R: Print + Eprint + Clock + AllocGlobal>(
    rt: &R,
    file: &[u8],
    ids: &str,
    rounds: u32,
) -> io::Result<()> {
    let Ok(mut catalogue) = read_mo(rt.alloc(), file) else {
        return eprintln!(rt; "no MO file");
    };
    catalogue.index(rt.alloc())?;
    time_lines(rt, &catalogue, ids, rounds)
}

/// Times `rounds` look-ups in an MO file, of each line of a file of msgids.
pub fn time_lookups<R: Print + Eprint + Clock + Files + AllocGlobal>(
    rt: &R,
    file: &str,
    ids: &str,
    rounds: u32,
) -> io::Result<()> {
    let file = fs::read(rt, file)?;
    let ids = fs::read_to_string(rt, ids)?;
    time_file(rt, &file, &ids, rounds)
}
