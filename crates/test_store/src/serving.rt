//! Services, the calls of gates, and threads that overlap. The expected values were written by hand, not copied from a
//! run.
ghost use Rattle.std.specs.Prelude.{◌≡◌, ◌≤◌, All, IfOk, vec_len};

use crate::tests::{BOUNDS, DUPLICATE, ONE, PLAIN, SALUT, TURNS, TWICE, loads_hi, query};
use desks::{Accepted, Answer, Desk, Gate, Job, Place, Source, serve};
use live_set::Query;
use live_versions::{Lookups, Publisher, StoreFault, Version, open_store};
use std::alloc::{AllocError, Global};
use std::sync::Wait;
use std::sync::atomic::{AtomicU64, Ordering};
use std::thread::{Threads, yield_now};

/// Three queries on each desk.
pub(crate) const THREE: &[usize] = &[3; 16];

/// Queries on some of sixteen desks, on the sixth alone, and on none.
const SOME: &[usize] = &[0, 3, 1, 0, 7, 2, 0, 0, 1, 5, 0, 4, 1, 2, 9, 0];

const SIXTH: &[usize] = &[0, 0, 0, 0, 0, 6];

const NONE: &[usize] = &[];

/// The index of the publishing thread among the counts: after all workers.
const PUBLISHING: u32 = 16;

/// An MO file that translates `hi` to `salut` and `yes` to `oui`.
const FILE: &[u8] = b"\xde\x12\x04\x95\0\0\0\0\x02\0\0\0\x1c\0\0\0\x2c\0\0\0\0\0\0\0\x3c\0\0\0\
    \x02\0\0\0\x3c\0\0\0\x03\0\0\0\x3f\0\0\0\x05\0\0\0\x43\0\0\0\x03\0\0\0\x49\0\0\0\
    hi\0yes\0salut\0oui\0";

/// `FILE` without its last byte.
const SHORT: &[u8] = b"\xde\x12\x04\x95\0\0\0\0\x02\0\0\0\x1c\0\0\0\x2c\0\0\0\0\0\0\0\x3c\0\0\0\
    \x02\0\0\0\x3c\0\0\0\x03\0\0\0\x3f\0\0\0\x05\0\0\0\x43\0\0\0\x03\0\0\0\x49\0\0\0\
    hi\0yes\0salut\0oui";

type Outcome = Result<Accepted, StoreFault>;

const DONE: Outcome = Ok(Accepted::Po(ONE));

/// A job in French: its domain, whether it loads an MO file and not a PO text, the bytes, and what becomes of it.
type JobRow = (&'static str, bool, &'static [u8], Outcome);

/// One job, many times.
const SAME: &[JobRow] = &[("app", false, SALUT, DONE); 129];

/// Waits until the word is at least `least`, for at most `TURNS` turns, and returns whether it was.
pub(crate) fn wait_for(word: &AtomicU64, least: u64) -> bool {
    for _ in 0..TURNS {
        if word.load(Ordering::SeqCst) >= least {
            return true;
        }
        yield_now();
    }
    false
}

/// A gate that holds nobody, and counts the calls at each place.
#[derive(Drop)]
struct Counting {
    /// One count for each worker, and one for the publishing thread.
    passed: Vec<AtomicU64>,
    /// The calls whose index isn't the number of earlier calls at their place, and the calls of workers that don't
    /// exist.
    wrong: AtomicU64,
}

impl Counting {
    fn new(alloc: Global) -> Result<Counting, AllocError> {
        let mut passed = Vec::new(alloc);
        for _ in 0..PUBLISHING + 1 {
            passed.push(AtomicU64::new(0))?;
        }
        Ok(Counting {
            passed,
            wrong: AtomicU64::new(0),
        })
    }

    /// Whether each worker passed before each of its queries, and the publishing thread before each of `jobs` jobs.
    fn passed_all(&self, queries: &[usize], jobs: usize) -> bool {
        for place in 0..PUBLISHING {
            if self.passed_at(place) != queries.get(place as usize).copied().unwrap_or(0) as u64 {
                return false;
            }
        }
        self.passed_at(PUBLISHING) == jobs as u64 && self.wrong.load(Ordering::SeqCst) == 0
    }

    fn passed_at(&self, place: u32) -> u64 {
        match self.passed.get(place as usize) {
            Some(passed) => passed.load(Ordering::SeqCst),
            None => 0,
        }
    }
}

impl Gate for Counting {
    fn pass(&self, place: Place, index: u64) {
        let place = match place {
            Place::Worker(number) if number < PUBLISHING => number,
            Place::Worker(_) => PUBLISHING + 1,
            Place::Publishing => PUBLISHING,
        };
        let right = match self.passed.get(place as usize) {
            Some(passed) => passed.fetch_add(1, Ordering::SeqCst) == index,
            None => false,
        };
        if !right {
            self.wrong.fetch_add(1, Ordering::SeqCst);
        }
    }
}

/// Holds each worker before its first query, and the publishing thread before its first job, until all of them are
/// there.
#[derive(Drop)]
struct AllStand {
    workers: u64,
    stood: AtomicU64,
    gave_up: AtomicU64,
}

impl Gate for AllStand {
    fn pass(&self, place: Place, index: u64) {
        if index == 0 {
            let _ = place;
            self.stood.fetch_add(1, Ordering::SeqCst);
            // Once one thread has given up, those that come later don't wait.
            if self.gave_up.load(Ordering::SeqCst) == 0 && !wait_for(&self.stood, self.workers) {
                self.gave_up.fetch_add(1, Ordering::SeqCst);
            }
        }
    }
}

/// Holds a worker before its first query until the publishing thread is at its first job, holds that thread until the
/// worker has one answer, and then holds the worker until the job is done.
#[derive(Drop)]
struct Overlap {
    held: u32,
    worker: AtomicU64,
    publishing: AtomicU64,
    gave_up: AtomicU64,
}

impl Gate for Overlap {
    fn pass(&self, place: Place, index: u64) {
        let held = match (place, index) {
            (Place::Publishing, 0) => {
                self.publishing.store(1, Ordering::SeqCst);
                wait_for(&self.worker, 1)
            }
            (Place::Publishing, 1) => {
                self.publishing.store(2, Ordering::SeqCst);
                true
            }
            (Place::Worker(number), 0) if number == self.held => wait_for(&self.publishing, 1),
            (Place::Worker(number), 1) if number == self.held => {
                self.worker.store(1, Ordering::SeqCst);
                wait_for(&self.publishing, 2)
            }
            _ => true,
        };
        if !held {
            self.gave_up.fetch_add(1, Ordering::SeqCst);
        }
    }
}

fn queries_of(alloc: Global, count: usize) -> Result<Vec<Query>, AllocError> {
    let mut queries = Vec::new(alloc);
    for _ in 0..count {
        queries.push(query(alloc, "fr")?)?;
    }
    Ok(queries)
}

fn desk_of(alloc: Global, reader: Lookups, queries: usize) -> Result<Desk, AllocError>
    ensures { IfOk result (λ d. d.reader ≡ reader) }
{
    Ok(Desk {
        reader,
        queries: queries_of(alloc, queries)?,
        answers: Vec::new(alloc),
        fault: None,
    })
}

/// A desk for each reader, with as many queries as `queries` has at its index.
pub(crate) fn desks_of(
    alloc: Global,
    publisher: &Publisher,
    mut readers: Vec<Lookups>,
    queries: &[usize],
) -> Result<Vec<Desk>, AllocError>
    requires { All (λ l. l.book ≡ publisher.now.seen.book) readers.items }
    ensures { IfOk result (λ v.
        (vec_len v ≡ vec_len readers) × All (λ d. d.reader.book ≡ publisher.now.seen.book) v.items) }
{
    let mut desks = Vec::new(alloc);
    'readers: for index in 0..readers.len() {
        let Some(reader) = readers.pop() else {
            break;
        };
        let desk = desk_of(alloc, reader, queries.get(index).copied().unwrap_or(0))?;
        desks.push(desk)?;
    }
    Ok(desks)
}

fn job_of(alloc: Global, domain: &str, is_file: bool, text: &[u8]) -> Result<Job, AllocError> {
    let mut bytes = Vec::new(alloc);
    bytes.extend_from_slice(text)?;
    Ok(Job {
        domain: String::from_str(alloc, domain)?,
        locale: String::from_str(alloc, "fr")?,
        source: if is_file {
            Source::Mo { bytes }
        } else {
            Source::Po {
                bytes,
                options: PLAIN,
            }
        },
    })
}

fn jobs_of(alloc: Global, rows: &[JobRow]) -> Result<Vec<Job>, AllocError> {
    let mut jobs = Vec::new(alloc);
    for (domain, is_file, bytes, _) in rows {
        jobs.push(job_of(alloc, domain, *is_file, bytes)?)?;
    }
    Ok(jobs)
}

/// A new store, what is served on it, and what is wanted of that.
#[derive(Clone, Copy)]
pub(crate) struct Service<'a> {
    readers: u32,
    /// The number of loads that the store takes.
    most: u64,
    /// Whether a load is pending when the service begins.
    waiting: bool,
    /// The number of queries on each desk. The desks beyond the end have none.
    queries: &'a [usize],
    jobs: &'a [JobRow],
    /// The version at the end.
    version: Version,
    /// The desk, if one is named, whose first answer is of version 0 and whose second is of a later one.
    overlaps: Option<usize>,
}

/// A service with `count` equal jobs.
fn same_jobs<'a>(readers: u32, queries: &'a [usize], count: usize) -> Service<'a> {
    Service {
        readers,
        most: u64::MAX,
        waiting: false,
        queries,
        jobs: SAME.get(..count).unwrap_or(SAME),
        version: count as u64,
        overlaps: None,
    }
}

fn are_outcomes(outcomes: &[Outcome], jobs: &[JobRow]) -> bool {
    for (outcome, (_, _, _, wanted)) in outcomes.iter().zip(jobs) {
        if outcome != wanted {
            return false;
        }
    }
    outcomes.len() == jobs.len()
}

/// Whether each answer is `hi` at version 0 or `salut` at one up to this version, and no version is below the one
/// before it.
fn are_in_order(answers: &[Answer], version: Version) -> bool {
    let mut last = 0;
    for answer in answers {
        let text = if answer.version == 0 { "hi" } else { "salut" };
        if answer.version < last || answer.version > version || answer.text.as_str() != text {
            return false;
        }
        last = answer.version;
    }
    true
}

/// Whether there is a desk for each reader, each with the answers to its queries, no fault, and the last version seen.
fn are_right(desks: &[Desk], service: &Service<'_>) -> bool {
    for (index, desk) in desks.iter().enumerate() {
        if desk.answers.len() != service.queries.get(index).copied().unwrap_or(0)
            || desk.fault.is_some()
            || desk.reader.seen() != service.version
            || !are_in_order(desk.answers.as_slice(), service.version)
        {
            return false;
        }
    }
    desks.len() == service.readers as usize
}

/// Whether the desk's first answer is of version 0, and its second of a later one. True if no desk is named.
fn is_overlapped(desks: &[Desk], desk: Option<usize>) -> bool {
    let Some(desk) = desk else {
        return true;
    };
    match desks.get(desk) {
        Some(desk) => match (desk.answers.get(0), desk.answers.get(1)) {
            (Some(first), Some(second)) => first.version == 0 && second.version >= 1,
            _ => false,
        },
        None => false,
    }
}

/// Whether the outcomes, the version and the desks are as wanted.
fn came_out(
    outcomes: &[Outcome],
    version: Version,
    publisher: &Publisher,
    desks: &[Desk],
    service: &Service<'_>,
) -> bool {
    version == service.version
        && (publisher.version(), publisher.pending()) == (service.version, 0)
        && are_outcomes(outcomes, service.jobs)
        && are_right(desks, service)
        && is_overlapped(desks, service.overlaps)
}

/// Serves desks, and returns whether the outcomes, the version and the desks are as wanted.
fn is_served<R: Threads + Wait + Sync, G: Gate + Sync>(
    rt: &R,
    alloc: Global,
    service: &Service<'_>,
    publisher: &mut Publisher,
    desks: &mut Vec<Desk>,
    gate: &G,
) -> bool
    requires book { All (λ d. d.reader.book ≡ publisher.old.seen.book) desks.old.items }
    requires count { (1 ≤ vec_len desks.old) × (vec_len desks.old ≤ 16) }
{
    if service.waiting {
        let _ = loads_hi(alloc, publisher);
    }
    let Ok(jobs) = jobs_of(alloc, service.jobs) else {
        return false;
    };
    match serve(rt, alloc, publisher, desks, jobs, gate) {
        Ok(served) => came_out(
            served.outcomes.as_slice(),
            served.version,
            publisher,
            desks.as_slice(),
            service,
        ),
        Err(_) => false,
    }
}

/// Serves on a new store, and returns whether all is as wanted.
fn serves<R: Threads + Wait + Sync, G: Gate + Sync>(
    rt: &R,
    alloc: Global,
    service: &Service<'_>,
    gate: &G,
) -> bool {
    let Ok((mut publisher, lookups)) = open_store(rt, alloc, service.readers, service.most) else {
        return false;
    };
    let right = match desks_of(alloc, &publisher, lookups, service.queries) {
        Ok(mut desks) => is_served(rt, alloc, service, &mut publisher, &mut desks, gate),
        Err(_) => false,
    };
    publisher.end(rt);
    right
}

/// Serves, and returns whether all is as wanted, and the gate was called before each query and each job, in order and
/// with the right place and index.
fn serves_counted<R: Threads + Wait + Sync>(rt: &R, alloc: Global, service: &Service<'_>) -> bool {
    match Counting::new(alloc) {
        Ok(gate) => {
            let queries = service.queries.get(..service.readers as usize);
            serves(rt, alloc, service, &gate)
                && gate.passed_all(queries.unwrap_or(service.queries), service.jobs.len())
        }
        Err(_) => false,
    }
}

/// Serves `count` equal jobs beside these queries, as `serves_counted` does.
pub(crate) fn serves_same<R: Threads + Wait + Sync>(
    rt: &R,
    alloc: Global,
    readers: u32,
    queries: &[usize],
    count: usize,
) -> bool {
    serves_counted(rt, alloc, &same_jobs(readers, queries, count))
}

/// Services whose jobs are refused, or that have none.
const SERVICES: &[(Service<'static>, &str)] = &[
    (
        Service {
            readers: 2,
            most: 9,
            waiting: false,
            queries: NONE,
            jobs: &[],
            version: 0,
            overlaps: None,
        },
        "nothing to do",
    ),
    (
        Service {
            readers: 2,
            most: 9,
            waiting: true,
            queries: NONE,
            jobs: &[],
            version: 1,
            overlaps: None,
        },
        "what was pending is published",
    ),
    (
        Service {
            readers: 2,
            most: 0,
            waiting: false,
            queries: NONE,
            jobs: &[("app", false, SALUT, Err(StoreFault::VersionsSpent))],
            version: 0,
            overlaps: None,
        },
        "no versions left",
    ),
    (
        Service {
            readers: 2,
            most: 9,
            waiting: false,
            queries: NONE,
            jobs: &[
                ("app", false, SALUT, DONE),
                ("app", false, TWICE, Err(DUPLICATE)),
                ("a b", false, SALUT, Err(StoreFault::BadName)),
            ],
            version: 1,
            overlaps: None,
        },
        "jobs have their outcomes",
    ),
    (
        Service {
            readers: 2,
            most: 9,
            waiting: false,
            queries: THREE,
            jobs: &[
                ("app", true, FILE, Ok(Accepted::Mo(2))),
                ("app", true, SHORT, Err(BOUNDS)),
                ("a b", true, FILE, Err(StoreFault::BadName)),
            ],
            version: 1,
            overlaps: None,
        },
        "files have their outcomes",
    ),
];

/// The name of the first service that isn't as wanted.
fn wrong_service<R: Threads + Wait + Sync>(rt: &R, alloc: Global) -> Option<&'static str> {
    for (service, name) in SERVICES {
        if !serves_counted(rt, alloc, service) {
            return Some(*name);
        }
    }
    None
}

/// The readers, the queries on each desk, and the number of equal jobs.
const EQUAL_JOBS: &[(u32, &[usize], usize, &str)] = &[
    (1, THREE, 1, "one desk"),
    (2, THREE, 1, "two desks"),
    (16, THREE, 1, "sixteen desks"),
    (16, SOME, 3, "some desks with queries"),
    (16, SOME, 0, "some, and no jobs"),
    (16, SIXTH, 3, "queries on one desk"),
    (16, SIXTH, 0, "one, and no jobs"),
    (16, NONE, 3, "no queries"),
];

/// The name of the first row that isn't served.
fn wrong_equal<R: Threads + Wait + Sync>(rt: &R, alloc: Global) -> Option<&'static str> {
    for (readers, queries, count, name) in EQUAL_JOBS {
        if !serves_same(rt, alloc, *readers, queries, *count) {
            return Some(*name);
        }
    }
    None
}

#[test]
fn services_end_as_wanted(rt: HostRuntime) {
    let service = wrong_service(&rt, rt.alloc());
    assert!(rt; service.is_none(), "{service:?}");
    let equal = wrong_equal(&rt, rt.alloc());
    assert!(rt; equal.is_none(), "{equal:?}");
}

/// Whether all workers, and the publishing thread if there are jobs, stand at the gate together.
fn stand_together<R: Threads + Wait + Sync>(
    rt: &R,
    alloc: Global,
    workers: u32,
    jobs: u32,
) -> bool {
    let gate = AllStand {
        workers: workers.saturating_add(jobs) as u64,
        stood: AtomicU64::new(0),
        gave_up: AtomicU64::new(0),
    };
    serves(rt, alloc, &same_jobs(workers, THREE, jobs as usize), &gate)
        && gate.gave_up.load(Ordering::SeqCst) == 0
}

/// The first number of workers that don't stand together, with this many jobs.
fn apart<R: Threads + Wait + Sync>(rt: &R, alloc: Global, jobs: u32) -> Option<u32> {
    for workers in 2..17 {
        if !stand_together(rt, alloc, workers, jobs) {
            return Some(workers);
        }
    }
    None
}

#[test]
fn all_workers_stand_together(rt: HostRuntime) {
    let alone = apart(&rt, rt.alloc(), 0);
    assert!(rt; alone.is_none(), "{alone:?}");
    let beside = apart(&rt, rt.alloc(), 1);
    assert!(rt; beside.is_none(), "{beside:?} with a job");
}

/// Whether a desk's queries are answered while two jobs are done.
fn overlaps_held<R: Threads + Wait + Sync>(rt: &R, alloc: Global, held: u32) -> bool {
    let gate = Overlap {
        held,
        worker: AtomicU64::new(0),
        publishing: AtomicU64::new(0),
        gave_up: AtomicU64::new(0),
    };
    let mut service = same_jobs(16, THREE, 2);
    service.overlaps = Some(held as usize);
    serves(rt, alloc, &service, &gate) && gate.gave_up.load(Ordering::SeqCst) == 0
}

/// The first desk whose queries aren't.
fn lost_overlap<R: Threads + Wait + Sync>(rt: &R, alloc: Global) -> Option<u32> {
    for held in 0..16u32 {
        if !overlaps_held(rt, alloc, held) {
            return Some(held);
        }
    }
    None
}

#[test]
fn publishing_overlaps_answering(rt: HostRuntime) {
    let lost = lost_overlap(&rt, rt.alloc());
    assert!(rt; lost.is_none(), "{lost:?}");
}
