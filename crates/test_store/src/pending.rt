//! Loads that are pending when `serve` begins are published while its desks are worked, even without jobs.
ghost use Rattle.std.specs.Prelude.{◌≡◌, ◌≤◌, All, vec_len};

use crate::serving::{THREE, desks_of, wait_for};
use crate::tests::loads_hi;
use desks::{Desk, Gate, Place, serve};
use live_versions::{Lookups, Publisher, open_store};
use std::alloc::Global;
use std::sync::atomic::{AtomicU64, Ordering};
use std::sync::{Arc, Wait};
use std::thread::{Threads, spawn};

/// A gate that holds nobody, and tells a reader once a worker has reached a query.
#[derive(Drop)]
struct Asking {
    /// 1 once the reader is in its entry.
    entered: AtomicU64,
    /// 1 once a worker has reached a query.
    asked: AtomicU64,
}

impl Gate for Asking {
    fn pass(&self, place: Place, _index: u64) {
        if matches!(place, Place::Worker(_)) {
            self.asked.store(1, Ordering::SeqCst);
        }
    }
}

/// Enters, and leaves once a worker has reached a query. Returns whether one did.
fn stay(reader: &mut Lookups, asking: &Asking) -> bool {
    let entry = reader.enter();
    asking.entered.store(1, Ordering::SeqCst);
    let Ok(pinned) = entry else {
        return false;
    };
    let came = wait_for(&asking.asked, 1);
    pinned.leave();
    came
}

/// Serves the desks with a load pending, while a reader in another thread stays in the copy that the publish has to
/// write. The reader leaves once a desk's query has begun. Returns whether one had, and the version at the end is 3.
fn serves_beside<R: Threads + Wait + Sync>(
    rt: &R,
    alloc: Global,
    publisher: &mut Publisher,
    mut held: Lookups,
    desks: &mut Vec<Desk>,
    asking: &Asking,
    there: Arc<Asking>,
) -> bool
    requires book { All (λ d. d.reader.book ≡ publisher.old.seen.book) desks.old.items }
    requires count { (1 ≤ vec_len desks.old) × (vec_len desks.old ≤ 16) }
{
    let Ok(stays) = spawn(rt, move || stay(&mut held, &there)) else {
        return false;
    };
    wait_for(&asking.entered, 1);
    let _ = loads_hi(alloc, publisher);
    let _ = publisher.publish(rt);
    let _ = loads_hi(alloc, publisher);
    let served = match serve(rt, alloc, publisher, desks, Vec::new(alloc), asking) {
        Ok(served) => served.version == 3,
        Err(_) => false,
    };
    stays.join(rt) && served
}

/// Holds one reader in its entry, and serves the others at desks with three queries each.
fn with_one_held<R: Threads + Wait + Sync>(
    rt: &R,
    alloc: Global,
    publisher: &mut Publisher,
    mut readers: Vec<Lookups>,
    asking: &Asking,
    there: Arc<Asking>,
) -> bool
    requires book { All (λ l. l.book ≡ publisher.old.seen.book) readers.items }
{
    let Some(held) = readers.pop() else {
        return false;
    };
    let Ok(mut desks) = desks_of(alloc, publisher, readers, THREE) else {
        return false;
    };
    if desks.is_empty() || desks.len() > 16 {
        return false;
    }
    let _ = loads_hi(alloc, publisher);
    let _ = publisher.publish(rt);
    serves_beside(rt, alloc, publisher, held, &mut desks, asking, there)
}

/// Does so in a new store.
fn opens_with_one_held<R: Threads + Wait + Sync>(
    rt: &R,
    alloc: Global,
    readers: u32,
    asking: &Asking,
    there: Arc<Asking>,
) -> bool {
    let Ok((mut publisher, lookups)) = open_store(rt, alloc, readers, 9) else {
        return false;
    };
    let right = with_one_held(rt, alloc, &mut publisher, lookups, asking, there);
    publisher.end(rt);
    right
}

/// Whether no query of this many readers waits for a publish.
fn waits_for_none<R: Threads + Wait + Sync>(rt: &R, alloc: Global, readers: u32) -> bool {
    let asking = Asking {
        entered: AtomicU64::new(0),
        asked: AtomicU64::new(0),
    };
    let Ok(here) = Arc::new(alloc, asking) else {
        return false;
    };
    match Arc::try_clone(&here) {
        Ok(there) => opens_with_one_held(rt, alloc, readers, &here, there),
        Err(_) => false,
    }
}

#[test]
fn no_query_waits_for_a_publish(rt: HostRuntime) {
    assert!(rt; waits_for_none(&rt, rt.alloc(), 2), "2");
    assert!(rt; waits_for_none(&rt, rt.alloc(), 3), "3");
}
