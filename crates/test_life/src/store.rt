//! Publishes, entries and what is freed of a snapshot store, one after another and at once.
ghost use Rattle.std.specs.Prelude.{◌≡◌, IfSome};

use crate::made::{BONJOUR, PLAIN, SALUT};
use snapshot_store::{Publisher, Reader, open_store};
use std::alloc::Global;
use std::thread::{self, Threads};

/// A store with a reader, or `None` if memory runs out.
fn opened(alloc: Global) -> Option<(Publisher, Reader)>
    ensures { IfSome result (λ opened. opened.1.book ≡ opened.0.seen.book) }
{
    let Ok(publisher) = open_store(alloc) else {
        return None;
    };
    match publisher.reader() {
        Ok(reader) => Some((publisher, reader)),
        Err(_) => None,
    }
}

/// Loads a text for `app` in `fr`. Returns whether it was accepted.
fn load(alloc: Global, publisher: &mut Publisher, text: &[u8]) -> bool
    ensures { publisher.new.seen.book ≡ publisher.old.seen.book }
{
    publisher.load(alloc, "app", "fr", text, PLAIN).is_ok()
}

/// Loads a text and publishes it. Returns the version, or 0 if either was refused.
fn publish(alloc: Global, publisher: &mut Publisher, text: &[u8]) -> u64 {
    if !load(alloc, publisher, text) {
        return 0;
    }
    match publisher.publish(alloc) {
        Ok(version) => version,
        Err(_) => 0,
    }
}

fn text_of(reader: &Reader) -> &str {
    reader.set().gettext("app", "fr", "hi")
}

/// Whether a reader has this text, and its version is still the newest one or not.
fn shows(reader: &Reader, text: &str, is_current: bool) -> bool {
    text_of(reader) == text && reader.is_current() == is_current
}

/// Whether a reader shows this text once it has entered.
fn enters(reader: &mut Reader, text: &str) -> bool {
    reader.enter();
    shows(reader, text, true)
}

/// Whether a publish has this version, while a reader still shows the text before.
fn publishes(
    alloc: Global,
    publisher: &mut Publisher,
    reader: &Reader,
    before: &str,
    text: &[u8],
    version: u64,
) -> bool {
    publish(alloc, publisher, text) == version && shows(reader, before, false)
}

/// Whether a reader sees each of two publishes when it enters, and not before.
fn sees_each(alloc: Global, publisher: &mut Publisher, reader: &mut Reader) -> bool {
    enters(reader, "hi")
        && publishes(alloc, publisher, reader, "hi", SALUT, 1)
        && enters(reader, "salut")
        && publishes(alloc, publisher, reader, "salut", BONJOUR, 2)
        && enters(reader, "bonjour")
        && reader.version() == 2
}

fn is_newest(alloc: Global) -> bool {
    match opened(alloc) {
        Some((mut publisher, mut reader)) => sees_each(alloc, &mut publisher, &mut reader),
        None => false,
    }
}

#[test]
fn an_entry_is_of_the_newest_version(rt: HostRuntime) {
    assert!(rt; is_newest(rt.alloc()));
}

/// Whether two loads are pending until they are published, and the publish has this version.
fn shows_both(alloc: Global, publisher: &mut Publisher, reader: &mut Reader) -> bool
    requires { reader.old.book ≡ publisher.old.seen.book }
{
    if !load(alloc, publisher, SALUT) {
        return false;
    }
    if !load(alloc, publisher, BONJOUR) || publisher.pending() != 2 {
        return false;
    }
    reader.enter();
    if reader.version() != 0 {
        return false;
    }
    let Ok(version) = publisher.publish(alloc) else {
        return false;
    };
    let notice = publisher.tell();
    version == 2
        && publisher.pending() == 0
        && notice.version() == 2
        && reader.enter_after(&notice)
        && text_of(reader) == "bonjour"
}

fn is_whole_batch(alloc: Global) -> bool {
    match opened(alloc) {
        Some((mut publisher, mut reader)) => shows_both(alloc, &mut publisher, &mut reader),
        None => false,
    }
}

#[test]
fn a_publish_shows_all_pending_loads(rt: HostRuntime) {
    assert!(rt; is_whole_batch(rt.alloc()));
}

/// Whether a publish has this version, and `retained` versions are retained after it.
fn retains(alloc: Global, publisher: &mut Publisher, version: u64, retained: usize) -> bool {
    publish(alloc, publisher, SALUT) == version && publisher.retained() == retained
}

/// Whether nothing is retained of 200 versions that nobody has.
fn retains_nothing(alloc: Global, publisher: &mut Publisher) -> bool {
    for version in 1..=200u64 {
        if !retains(alloc, publisher, version, 0) {
            return false;
        }
    }
    true
}

/// Whether the versions of two readers are retained, one of which enters in between. The other one is then dropped.
fn retains_two(alloc: Global, publisher: &mut Publisher, early: &mut Reader) -> bool {
    let Ok(_late) = publisher.reader() else {
        return false;
    };
    let first = retains(alloc, publisher, 202, 2);
    early.enter();
    first && retains(alloc, publisher, 203, 2)
}

/// Whether the version of the only reader is retained, and not the one that it had before.
fn retains_one(alloc: Global, publisher: &mut Publisher, early: &mut Reader) -> bool {
    early.enter();
    let first = retains(alloc, publisher, 204, 1);
    early.enter();
    first && retains(alloc, publisher, 205, 1)
}

/// Whether just the versions that readers have are retained, after 200 publishes.
fn retains_what_is_read(alloc: Global, publisher: &mut Publisher) -> bool {
    let Ok(mut early) = publisher.reader() else {
        return false;
    };
    publish(alloc, publisher, SALUT) == 201
        && retains_two(alloc, publisher, &mut early)
        && retains_one(alloc, publisher, &mut early)
}

/// Whether nothing is retained of what nobody has, at first and once both readers are dropped.
fn is_freed(alloc: Global) -> bool {
    match open_store(alloc) {
        Ok(mut publisher) => {
            retains_nothing(alloc, &mut publisher)
                && retains_what_is_read(alloc, &mut publisher)
                && retains(alloc, &mut publisher, 206, 0)
        }
        Err(_) => false,
    }
}

#[test]
fn what_nobody_has_is_freed(rt: HostRuntime) {
    assert!(rt; is_freed(rt.alloc()));
}

/// Whether a reader that left keeps no version, and enters the newest one afterwards.
fn leaves(alloc: Global, publisher: &mut Publisher, mut reader: Reader) -> bool {
    if publish(alloc, publisher, SALUT) != 1 {
        return false;
    }
    reader.enter();
    let away = reader.leave();
    if away.version() != 1 || !retains(alloc, publisher, 2, 0) {
        return false;
    }
    match away.enter() {
        Ok(reader) => reader.version() == 2 && shows(&reader, "salut", true),
        Err(_) => false,
    }
}

/// Whether what a reader left is freed without a publish.
fn reclaims(alloc: Global, publisher: &mut Publisher, reader: Reader) -> bool {
    if !retains(alloc, publisher, 1, 1) {
        return false;
    }
    let away = reader.leave();
    publisher.reclaim();
    publisher.retained() == 0 && away.version() == 0
}

fn is_left(alloc: Global) -> bool {
    let (Some((mut first, reader)), Some((mut second, other))) = (opened(alloc), opened(alloc))
    else {
        return false;
    };
    leaves(alloc, &mut first, reader) && reclaims(alloc, &mut second, other)
}

#[test]
fn a_reader_that_left_keeps_no_version(rt: HostRuntime) {
    assert!(rt; is_left(rt.alloc()));
}

/// Publishes each text in turn, so that odd versions say `salut` and even ones `bonjour`. Returns the version.
fn publish_all(alloc: Global, publisher: &mut Publisher) -> u64 {
    for _ in 0..500u64 {
        if publish(alloc, publisher, SALUT) == 0 || publish(alloc, publisher, BONJOUR) == 0 {
            break;
        }
    }
    publisher.version()
}

/// Whether a version isn't below the one before it, and its text is the one that was published with it.
fn is_whole(reader: &Reader, last: u64) -> bool {
    let version = reader.version();
    let is_odd = version % 2 == 1;
    version >= last && (version == 0 || (text_of(reader) == "salut") == is_odd)
}

/// Whether no entry fell, and each was of a whole version.
fn read_all(mut reader: Reader) -> bool {
    let mut last = 0;
    for _ in 0..20000u64 {
        reader.enter();
        if !is_whole(&reader, last) {
            return false;
        }
        last = reader.version();
    }
    true
}

/// Whether a reader in a thread of its own sees whole versions while 1000 are published, and another one the last of
/// them.
fn reads_while_published<R: Threads>(
    rt: &R,
    alloc: Global,
    publisher: &mut Publisher,
    reader: &mut Reader,
) -> bool {
    let Ok(again) = publisher.reader() else {
        return false;
    };
    let (read, published) = thread::join(
        rt,
        move || read_all(again),
        || publish_all(alloc, publisher),
    );
    reader.enter();
    read && published == 1000 && reader.version() == 1000
}

fn is_read<R: Threads>(rt: &R, alloc: Global) -> bool {
    match opened(alloc) {
        Some((mut publisher, mut reader)) => {
            reads_while_published(rt, alloc, &mut publisher, &mut reader)
        }
        None => false,
    }
}

#[test]
fn one_publishes_and_one_reads(rt: HostRuntime) {
    assert!(rt; is_read(&rt, rt.alloc()));
}
