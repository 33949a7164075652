//! The programs of docs/guide/rattle.md, which quotes them.
ghost use Rattle.std.specs.Prelude.{◌≡◌, ◌≤◌, All, IfOk, vec_len};

use catalogue::Options;
use desks::{Desk, Job, OpenGate, ServeFault, Source, serve};
use live_set::{Ask, Query};
use live_versions::{Lookups, OpenFault, Publisher, StoreFault, Version, open_store};
use std::alloc::{AllocError, Global};
use std::sync::Wait;
use std::thread::{Threads, join};

const PLAIN: Options = Options {
    checked: false,
    use_fuzzy: false,
};

const SHOP: &[u8] = b"msgid \"hi\"\nmsgstr \"salut\"\n";

const MAIL: &[u8] = b"msgid \"hi\"\nmsgstr \"salut\"\n";

/// Replaces both catalogues, in one step.
fn replace_both<R: Wait + AllocGlobal>(rt: &R, publisher: &mut Publisher) -> Option<Version>
    ensures { publisher.new.seen.book ≡ publisher.old.seen.book }
{
    publisher.load(rt.alloc(), "shop", "fr", SHOP, PLAIN).ok()?;
    publisher.load(rt.alloc(), "mail", "fr", MAIL, PLAIN).ok()?;
    publisher.publish(rt).ok()
}

/// Whether the word is the same in both domains, and the version that both are of.
fn greet(reader: &mut Lookups) -> Option<(bool, Version)> {
    let Ok(pinned) = reader.enter() else {
        return None;
    };
    let same = pinned.gettext("shop", "fr", "hi") == pinned.gettext("mail", "fr", "hi");
    let version = pinned.version();
    pinned.leave();
    Some((same, version))
}

/// Greets by the new catalogues.
fn greet_anew<R: Wait + AllocGlobal>(
    rt: &R,
    publisher: &mut Publisher,
    reader: &mut Lookups,
) -> Option<(bool, Version)>
    requires { reader.old.book ≡ publisher.old.seen.book }
{
    replace_both(rt, publisher)?;
    let notice = publisher.tell();
    reader.learn(&notice);
    greet(reader)
}

/// All of it, from the opening of a store to its end.
fn run_shop<R: Wait + AllocGlobal>(rt: &R) -> Result<Option<(bool, Version)>, OpenFault> {
    let (mut publisher, mut readers) = open_store(rt, rt.alloc(), 1, u64::MAX)?;
    let greeting = match readers.pop() {
        Some(mut reader) => greet_anew(rt, &mut publisher, &mut reader),
        None => None,
    };
    publisher.end(rt);
    Ok(greeting)
}

/// Loads a catalogue that was compiled before, and answers how many entries it has.
fn load_german(alloc: Global, publisher: &mut Publisher, file: &[u8]) -> Result<u64, StoreFault> {
    publisher.load_mo(alloc, "shop", "de", file)
}

/// Publishes in one thread, and looks up in two others meanwhile.
fn greet_twice<R: Threads + Wait + AllocGlobal + Sync>(
    rt: &R,
    publisher: &mut Publisher,
    one: &mut Lookups,
    other: &mut Lookups,
) -> (Option<Version>, bool) {
    let (version, (first, second)) = join(
        rt,
        || replace_both(rt, publisher),
        || join(rt, || greet(one), || greet(other)),
    );
    (version, first.is_some() && second.is_some())
}

/// Greets in threads on a new store, before and after a publish, and loads a file that is refused.
pub(crate) fn greets_in_threads<R: Threads + Wait + AllocGlobal + Sync>(
    rt: &R,
    publisher: &mut Publisher,
    one: &mut Lookups,
    other: &mut Lookups,
) -> bool {
    let empty = greet(one) == Some((true, 0));
    let found = greet_twice(rt, publisher, one, other) == (Some(2), true);
    let refused = load_german(rt.alloc(), publisher, b"").is_err();
    [empty, found, refused] == [true; 3]
}

/// The query for `hi` in the shop's French texts.
fn hi(alloc: Global) -> Result<Query, AllocError> {
    Ok(Query {
        domain: String::from_str(alloc, "shop")?,
        languages: String::from_str(alloc, "fr")?,
        ask: Ask::Plain {
            id: String::from_str(alloc, "hi")?,
        },
    })
}

/// A desk with that query.
fn desk_of(alloc: Global, reader: Lookups) -> Result<Desk, AllocError>
    ensures { IfOk result (λ desk. desk.reader ≡ reader) }
{
    let mut queries = Vec::new(alloc);
    queries.push(hi(alloc)?)?;
    Ok(Desk {
        reader,
        queries,
        answers: Vec::new(alloc),
        fault: None,
    })
}

/// A job that loads the shop's French texts.
fn job_of(alloc: Global) -> Result<Job, AllocError> {
    let mut bytes = Vec::new(alloc);
    bytes.extend_from_slice(SHOP)?;
    Ok(Job {
        domain: String::from_str(alloc, "shop")?,
        locale: String::from_str(alloc, "fr")?,
        source: Source::Po {
            bytes,
            options: PLAIN,
        },
    })
}

/// Answers the queries of all desks while the jobs are done, and returns the version at the end.
fn serve_desks<R: Threads + Wait + AllocGlobal + Sync>(
    rt: &R,
    publisher: &mut Publisher,
    desks: &mut Vec<Desk>,
    jobs: Vec<Job>,
) -> Result<Version, ServeFault>
    requires book { All (λ desk. desk.reader.book ≡ publisher.old.seen.book) desks.old.items }
    requires count { (1 ≤ vec_len desks.old) × (vec_len desks.old ≤ 16) }
    ensures book { publisher.new.seen.book ≡ publisher.old.seen.book }
    ensures again { All (λ desk. desk.reader.book ≡ publisher.new.seen.book) desks.new.items }
    ensures count { vec_len desks.new ≡ vec_len desks.old }
{
    let served = serve(rt, rt.alloc(), publisher, desks, jobs, &OpenGate)?;
    Ok(served.version)
}

/// Serves the desks with one job, and then without any. Returns the versions at the ends.
fn serve_twice<R: Threads + Wait + AllocGlobal + Sync>(
    rt: &R,
    publisher: &mut Publisher,
    desks: &mut Vec<Desk>,
    job: Job,
) -> Option<(Version, Version)>
    requires book { All (λ desk. desk.reader.book ≡ publisher.old.seen.book) desks.old.items }
    requires count { (1 ≤ vec_len desks.old) × (vec_len desks.old ≤ 16) }
{
    let mut jobs = Vec::new(rt.alloc());
    jobs.push(job).ok()?;
    let first = serve_desks(rt, publisher, desks, jobs).ok()?;
    let second = serve_desks(rt, publisher, desks, Vec::new(rt.alloc())).ok()?;
    Some((first, second))
}

/// Whether the first desk has one answer, the new text at version 1.
fn has_new_text(desks: &[Desk]) -> bool {
    let Some(desk) = desks.first() else {
        return false;
    };
    match desk.answers.first() {
        Some(answer) => answer.version == 1 && answer.text.as_str() == "salut",
        None => false,
    }
}

/// Serves one reader's desk in a new store.
fn serve_reader<R: Threads + Wait + AllocGlobal + Sync>(
    rt: &R,
    publisher: &mut Publisher,
    reader: Lookups,
) -> bool
    requires { reader.book ≡ publisher.old.seen.book }
{
    let (Ok(desk), Ok(job)) = (desk_of(rt.alloc(), reader), job_of(rt.alloc())) else {
        return false;
    };
    let mut desks = Vec::new(rt.alloc());
    if desks.push(desk).is_err() {
        return false;
    }
    serve_twice(rt, publisher, &mut desks, job) == Some((1, 1)) && has_new_text(&desks)
}

/// Whether a desk has the new text in the second of two services.
fn serve_shop<R: Threads + Wait + AllocGlobal + Sync>(rt: &R) -> Result<bool, OpenFault> {
    let (mut publisher, mut readers) = open_store(rt, rt.alloc(), 1, u64::MAX)?;
    let right = match readers.pop() {
        Some(reader) => serve_reader(rt, &mut publisher, reader),
        None => false,
    };
    publisher.end(rt);
    Ok(right)
}

#[test]
fn the_shop_serves(rt: HostRuntime) {
    assert!(rt; serve_shop(&rt) == Ok(true));
}

#[test]
fn the_shop_greets(rt: HostRuntime) {
    assert!(rt; run_shop(&rt) == Ok(Some((true, 2))));
}
