//! Calls of `serve`.
ghost use Rattle.std.specs.Prelude.{◌≡◌, ◌≤◌, All, IfOk, vec_len};

use crate::store::{Words, load, print_short, print_state, publish, query};
use crate::texts::{PLAIN, SALUT, TWICE};
use desks::{Accepted, Answer, Desk, Job, OpenGate, ServeFault, Served, Source, serve};
use live_set::Query;
use live_versions::{Lookups, Publisher, StoreFault, Version};
use std::alloc::{AllocError, Global};
use std::io;
use std::sync::Wait;
use std::thread::Threads;

/// The jobs: the domain and the PO text of each French load.
const JOBS: &[(&str, &str)] = &[("app", SALUT), ("app", TWICE), ("a b", SALUT)];

/// A service of two desks.
pub struct Case {
    /// The label in the output.
    pub label: &'static str,
    /// How its results are printed.
    pub words: Words,
    /// Whether a load is pending when the service begins.
    pub pending: bool,
    /// The number of jobs that are done, from the front of `JOBS`.
    pub jobs: usize,
    /// The number of queries on each of the two desks.
    pub queries: usize,
    /// Whether the desks are served once more in the end, without jobs.
    pub again: bool,
}

/// `count` queries for `hi` in French.
fn queries_of(alloc: Global, count: usize) -> Result<Vec<Query>, AllocError> {
    let mut queries = Vec::new(alloc);
    'queries: for _ in 0..count {
        queries.push(query(alloc)?)?;
    }
    Ok(queries)
}

fn desk_of(alloc: Global, reader: Lookups, count: usize) -> Result<Desk, AllocError>
    ensures { IfOk result (λ d. d.reader ≡ reader) }
{
    Ok(Desk {
        reader,
        queries: queries_of(alloc, count)?,
        answers: Vec::new(alloc),
        fault: None,
    })
}

/// A desk for each reader.
fn desks_of(
    alloc: Global,
    publisher: &Publisher,
    mut readers: Vec<Lookups>,
    count: usize,
) -> Result<Vec<Desk>, AllocError>
    requires { All (λ l. l.book ≡ publisher.now.seen.book) readers.items }
    ensures { IfOk result (λ v.
        (vec_len v ≡ vec_len readers) × All (λ d. d.reader.book ≡ publisher.now.seen.book) v.items) }
{
    let mut desks = Vec::new(alloc);
    'readers: for _ in 0..readers.len() {
        let Some(reader) = readers.pop() else {
            break;
        };
        let desk = desk_of(alloc, reader, count)?;
        desks.push(desk)?;
    }
    Ok(desks)
}

/// A PO text as the source of a job.
fn source_of(alloc: Global, text: &str) -> Result<Source, AllocError> {
    let mut bytes = Vec::new(alloc);
    bytes.extend_from_slice(text.as_bytes())?;
    Ok(Source::Po {
        bytes,
        options: PLAIN,
    })
}

/// A French load of a PO text.
fn job_of(alloc: Global, domain: &str, text: &str) -> Result<Job, AllocError> {
    Ok(Job {
        domain: String::from_str(alloc, domain)?,
        locale: String::from_str(alloc, "fr")?,
        source: source_of(alloc, text)?,
    })
}

/// The first `count` jobs.
fn jobs_of(alloc: Global, count: usize) -> Result<Vec<Job>, AllocError> {
    let mut jobs = Vec::new(alloc);
    for (domain, text) in JOBS.iter().take(count) {
        jobs.push(job_of(alloc, domain, text)?)?;
    }
    Ok(jobs)
}

/// The number of right answers of a desk: those with the text of their version, which is from `first` to `last` and not
/// below the one before.
fn count_right(answers: &[Answer], first: Version, last: Version) -> u64 {
    let mut right: u64 = 0;
    let mut least = first;
    'answers: for answer in answers {
        let text = if answer.version == 0 { "hi" } else { "salut" };
        if answer.version >= least && answer.version <= last && answer.text.as_str() == text {
            right = right.saturating_add(1);
        }
        least = answer.version;
    }
    right
}

/// Prints for each desk how many of its answers are right, and what its reader has seen.
fn print_desks<R: Print>(rt: &R, desks: &[Desk], first: Version, last: Version) -> io::Result<()> {
    'desks: for desk in desks {
        let right = count_right(&desk.answers, first, last);
        let (all, seen) = (desk.answers.len(), desk.reader.seen());
        println!(rt; "  {right} of {all} answers are right, has seen {seen}")?;
    }
    Ok(())
}

/// Prints each outcome in short.
fn print_outcomes<R: Print>(rt: &R, outcomes: &[Result<Accepted, StoreFault>]) -> io::Result<()> {
    'outcomes: for outcome in outcomes {
        print!(rt; "  job: ")?;
        print_short(rt, *outcome)?;
    }
    Ok(())
}

/// The number of right answers of all desks.
fn count_all(desks: &[Desk], first: Version, last: Version) -> u64 {
    let mut right: u64 = 0;
    'desks: for desk in desks {
        right = right.saturating_add(count_right(&desk.answers, first, last));
    }
    right
}

/// Prints in short the outcomes of a service that began at a version, and how many answers are right.
fn print_in_short<R: Print>(
    rt: &R,
    served: &Served,
    desks: &[Desk],
    first: Version,
) -> io::Result<()> {
    println!(rt; "serve: {}", served.version)?;
    print_outcomes(rt, &served.outcomes)?;
    println!(rt;
        "  {} right answers",
        count_all(desks, first, served.version)
    )
}

/// Prints the outcomes of a service that began at a version, and what its desks have.
fn print_served<R: Print>(
    rt: &R,
    words: Words,
    served: &Served,
    desks: &[Desk],
    first: Version,
) -> io::Result<()> {
    if let Words::Whole = words {
        println!(rt; "gives Ok({:?}, {})", served.outcomes, served.version)?;
        return print_desks(rt, desks, first, served.version);
    }
    print_in_short(rt, served, desks, first)
}

/// Prints why desks weren't served.
fn print_unserved<R: Print>(rt: &R, words: Words, fault: ServeFault) -> io::Result<()> {
    match words {
        Words::Whole => println!(rt; "gives Err({fault:?})"),
        _ => println!(rt; "serve: {fault:?}"),
    }
}

/// Serves desks, and prints the result and what the publisher has then.
fn serve_desks<R: Threads + Wait + Print + AllocGlobal + Sync>(
    rt: &R,
    words: Words,
    publisher: &mut Publisher,
    desks: &mut Vec<Desk>,
    jobs: Vec<Job>,
) -> io::Result<()>
    requires book { All (λ d. d.reader.book ≡ publisher.old.seen.book) desks.old.items }
    requires count { (1 ≤ vec_len desks.old) × (vec_len desks.old ≤ 16) }
    ensures book { publisher.new.seen.book ≡ publisher.old.seen.book }
    ensures kept { All (λ d. d.reader.book ≡ publisher.old.seen.book) desks.new.items }
    ensures count { vec_len desks.new ≡ vec_len desks.old }
{
    let first = publisher.version();
    let printed = match serve(rt, rt.alloc(), publisher, desks, jobs, &OpenGate) {
        Ok(served) => print_served(rt, words, &served, desks, first),
        Err(fault) => print_unserved(rt, words, fault),
    };
    printed?;
    print_state(rt, publisher)
}

/// Prints that memory ran out for what is served.
fn print_unmade<R: Print>(rt: &R, words: Words, what: &str) -> io::Result<()> {
    match words {
        Words::Whole => println!(rt; "isn't called: out of memory"),
        _ => println!(rt; "{what}: out of memory"),
    }
}

/// Serves the desks of a case, publishes, and serves them again if the case says so.
fn serve_case<R: Threads + Wait + Print + AllocGlobal + Sync>(
    rt: &R,
    case: &Case,
    publisher: &mut Publisher,
    desks: &mut Vec<Desk>,
) -> io::Result<()>
    requires book { All (λ d. d.reader.book ≡ publisher.old.seen.book) desks.old.items }
    requires count { (1 ≤ vec_len desks.old) × (vec_len desks.old ≤ 16) }
{
    let Ok(jobs) = jobs_of(rt.alloc(), case.jobs) else {
        return print_unmade(rt, case.words, "jobs");
    };
    serve_desks(rt, case.words, publisher, desks, jobs)?;
    publish(rt, case.words, publisher)?;
    if case.again {
        return serve_desks(rt, case.words, publisher, desks, Vec::new(rt.alloc()));
    }
    Ok(())
}

/// Makes the load that is pending, if there is one, and prints the label of a case.
fn begin_case<R: Print + AllocGlobal>(
    rt: &R,
    case: &Case,
    publisher: &mut Publisher,
) -> io::Result<()>
    ensures { publisher.new.seen.book ≡ publisher.old.seen.book }
{
    if case.pending {
        load(rt, case.words, publisher, "app", "fr", SALUT)?;
    }
    print!(rt; "{}", case.label)
}

/// Serves the readers of a new store.
pub fn serve_readers<R: Threads + Wait + Print + AllocGlobal + Sync>(
    rt: &R,
    case: &Case,
    publisher: &mut Publisher,
    readers: Vec<Lookups>,
) -> io::Result<()>
    requires book { All (λ l. l.book ≡ publisher.old.seen.book) readers.items }
    requires count { (1 ≤ vec_len readers) × (vec_len readers ≤ 16) }
{
    begin_case(rt, case, publisher)?;
    match desks_of(rt.alloc(), publisher, readers, case.queries) {
        Ok(mut desks) => serve_case(rt, case, publisher, &mut desks),
        Err(_) => print_unmade(rt, case.words, "desks"),
    }
}
