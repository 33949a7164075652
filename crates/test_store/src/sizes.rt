//! Publishes and services of many sizes. Every call may run out of memory; here there is enough for all of them.
use crate::serving::serves_same;
use crate::tests::{loads_hi, publishes};
use live_versions::{Publisher, open_store};
use std::alloc::Global;
use std::sync::Wait;
use std::thread::Threads;

/// Powers of two and their neighbours, tried in addition to all numbers up to 40.
const SIZES: &[u64] = &[
    63, 64, 65, 127, 128, 129, 255, 256, 257, 511, 512, 513, 1023, 1024, 1025,
];

/// The numbers of jobs and of queries that are tried.
const COUNTS: &[usize] = &[63, 64, 65, 127, 128, 129];

/// Loads this many times, and publishes all of it in one step. Returns whether the version rises by it.
fn publishes_loads<R: Wait>(rt: &R, alloc: Global, publisher: &mut Publisher, loads: u64) -> bool {
    let wanted = publisher.version().saturating_add(loads);
    for _ in 0..loads {
        if !loads_hi(alloc, publisher) {
            return false;
        }
    }
    publisher.pending() == loads && publishes(rt, publisher, wanted)
}

/// The first number of loads whose publish doesn't raise the version by it.
fn first_unpublished<R: Wait>(rt: &R, alloc: Global, publisher: &mut Publisher) -> Option<u64> {
    for loads in 0..41 {
        if !publishes_loads(rt, alloc, publisher, loads) {
            return Some(loads);
        }
    }
    for loads in SIZES {
        if !publishes_loads(rt, alloc, publisher, *loads) {
            return Some(*loads);
        }
    }
    None
}

/// That number in a new store.
fn find_unpublished<R: Wait>(rt: &R, alloc: Global) -> Option<u64> {
    let Ok((mut publisher, _readers)) = open_store(rt, alloc, 1, u64::MAX) else {
        return Some(0);
    };
    let unpublished = first_unpublished(rt, alloc, &mut publisher);
    publisher.end(rt);
    unpublished
}

/// The first number of jobs that aren't served beside as many queries on each of two desks.
fn find_unserved<R: Threads + Wait + Sync>(rt: &R, alloc: Global) -> Option<usize> {
    for count in 0..41 {
        if !serves_same(rt, alloc, 2, &[count, count], count) {
            return Some(count);
        }
    }
    for count in COUNTS {
        if !serves_same(rt, alloc, 2, &[*count, *count], *count) {
            return Some(*count);
        }
    }
    None
}

#[test]
fn any_number_of_loads_jobs_and_queries(rt: HostRuntime) {
    let unpublished = find_unpublished(&rt, rt.alloc());
    assert!(rt; unpublished.is_none(), "{unpublished:?} loads");
    let unserved = find_unserved(&rt, rt.alloc());
    assert!(rt; unserved.is_none(), "{unserved:?} jobs");
}
