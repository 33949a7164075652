//! Eight desks and 100 jobs are served, over and over in one store. Each job's text is the number of its load, so that
//! an answer shows whether it is of the version that it names.
ghost use Rattle.std.specs.Prelude.{◌≡◌, ◌≤◌, All, vec_len};

use crate::messages::Asked;
use crate::serving::{desks_of, job_of};
use crate::soak::{Counts, text_of, version_in};
use crate::times::{is_within, now};
use desks::{Answer, Desk, Job, OpenGate, Served, serve};
use live_versions::{Lookups, Publisher, Version};
use std::alloc::{AllocError, Global};
use std::io;
use std::rt::Clock;
use std::sync::Wait;
use std::thread::Threads;

/// How many jobs a service has.
const JOBS: u32 = 100;

/// What a desk asks for: the one message, for about as long as the jobs take.
const ASKED: Asked = Asked {
    languages: 1,
    messages: 1,
    count: 10_000,
};

/// Jobs whose texts are the versions after this one.
fn jobs_of(alloc: Global, version: Version) -> Result<Vec<Job>, AllocError> {
    let mut jobs = Vec::new(alloc);
    'jobs: for job in 0..JOBS {
        let number = version.saturating_add(u64::from(job) + 1);
        let text = text_of(alloc, number)?;
        jobs.push(job_of(alloc, 0, text)?)?;
    }
    Ok(jobs)
}

/// Counts the answers of a desk.
fn count_answers(counts: &mut Counts, answers: &[Answer]) {
    let mut last = 0;
    'answers: for answer in answers {
        counts.add(answer.version, &[version_in(&answer.text)], last);
        last = answer.version;
    }
}

/// Counts what a service answered, which began at this version.
fn count_all(counts: &mut Counts, served: &Served, desks: &[Desk], version: Version) {
    let accepted = served
        .outcomes
        .iter()
        .filter(|outcome| outcome.is_ok())
        .count() as u64;
    let wanted = version.saturating_add(u64::from(JOBS));
    counts.lost = counts
        .lost
        .saturating_add(u64::from(JOBS).abs_diff(accepted))
        .saturating_add(wanted.abs_diff(served.version));
    'desks: for desk in desks {
        count_answers(counts, &desk.answers);
        let missing = desk.queries.len().abs_diff(desk.answers.len()) as u64;
        counts.lost = counts.lost.saturating_add(missing);
    }
}

/// Serves the desks once, and counts what was answered. Answers whether there was memory for the jobs.
fn serve_once<R: Threads + Wait + AllocGlobal + Sync>(
    rt: &R,
    publisher: &mut Publisher,
    desks: &mut Vec<Desk>,
    counts: &mut Counts,
) -> bool
    requires book { All (λ d. d.reader.book ≡ publisher.old.seen.book) desks.old.items }
    requires count { (1 ≤ vec_len desks.old) × (vec_len desks.old ≤ 16) }
    ensures book { publisher.new.seen.book ≡ publisher.old.seen.book }
    ensures kept { All (λ d. d.reader.book ≡ publisher.old.seen.book) desks.new.items }
    ensures count { vec_len desks.new ≡ vec_len desks.old }
{
    let version = publisher.version();
    let Ok(texts) = jobs_of(rt.alloc(), version) else {
        counts.lost = counts.lost.saturating_add(1);
        return false;
    };
    match serve(rt, rt.alloc(), publisher, desks, texts, &OpenGate) {
        Ok(served) => count_all(counts, &served, desks, version),
        Err(_) => counts.lost = counts.lost.saturating_add(1),
    }
    true
}

/// Serves the desks over and over for `seconds`. Answers how many services there were.
fn serve_long<R: Threads + Wait + Clock + AllocGlobal + Sync>(
    rt: &R,
    publisher: &mut Publisher,
    desks: &mut Vec<Desk>,
    seconds: u64,
    counts: &mut Counts,
) -> u64
    requires book { All (λ d. d.reader.book ≡ publisher.old.seen.book) desks.old.items }
    requires count { (1 ≤ vec_len desks.old) × (vec_len desks.old ≤ 16) }
{
    let start = now(rt);
    let mut services: u64 = 0;
    'services: for service in 0..1_000_000_u64 {
        if !serve_once(rt, publisher, desks, counts) {
            break;
        }
        services = service + 1;
        if !is_within(rt, start, seconds) {
            break;
        }
    }
    services
}

/// Prints what went wrong, and how much was done.
fn print_counts<R: Print + Eprint>(
    rt: &R,
    seconds: u64,
    services: u64,
    counts: &Counts,
) -> io::Result<()> {
    let Counts {
        answers,
        mixed,
        fallen,
        lost,
    } = *counts;
    println!(rt; "{mixed} mixed texts, {fallen} versions fell, {lost} lost")?;
    eprintln!(rt; "{seconds} s: {services} services of 8 desks and {JOBS} jobs, {answers} answers")
}

/// Serves eight desks for `seconds`, and prints what went wrong.
pub fn soak_serve<R: Print + Eprint + Threads + Wait + Clock + AllocGlobal + Sync>(
    rt: &R,
    publisher: &mut Publisher,
    readers: Vec<Lookups>,
    seconds: u64,
) -> io::Result<()>
    requires book { All (λ l. l.book ≡ publisher.old.seen.book) readers.items }
    requires count { (1 ≤ vec_len readers) × (vec_len readers ≤ 16) }
{
    let mut counts = Counts::default();
    let services = match desks_of(rt.alloc(), publisher, readers, ASKED) {
        Ok(mut desks) => serve_long(rt, publisher, &mut desks, seconds, &mut counts),
        Err(_) => 0,
    };
    print_counts(rt, seconds, services, &counts)
}
