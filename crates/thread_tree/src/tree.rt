//! The tree of threads.
ghost use Rattle.std.specs.List.{AllZip, AllByRecursion};
ghost use Rattle.std.specs.Thread.{IsSync, IsSend};
ghost use Rattle.std.specs.Prelude.{◌≡◌, ◌+◌, ◌<◌, ◌^◌, length, OnOk};

use crate::work::Work;
use std::thread::{Threads, join_mut};

/// Whether no item is worth a thread.
fn are_idle<T, E, W: Work<T, E>>(work: &W, items: &[T]) -> bool {
    items.iter().all(|item| work.is_idle(item))
}

/// Works on the only item, if there is one.
fn work_last<T, E: Drop, W: Work<T, E>>(work: &W, worker: u32, items: &mut [T]) -> Result<(), E>
    requires count { length items.old < 2 }
    requires fits { AllByRecursion (W.fits work.now) items.old }
    ensures keeps { AllZip W.keeps items.old items.new }
    ensures does { OnOk result (AllZip W.does items.old items.new) }
{
    match items.split_first_mut() {
        Some((item, _rest)) => work.work(worker, item),
        None => Ok(()),
    }
}

/// Works on all items, which are counted from `first`, and returns the first fault in their order. Each item takes a
/// thread of its own, but one of them takes this thread, and so do idle ones. The items are halved at each step, so the
/// stack grows as the logarithm of their number.
#[cycle(halves)]
#[tactic(auto, using(crate::proofs::Halves::halves_of))]
pub fn work_all<R: Threads + Sync, T: Send, E: Send + Drop, W: Work<T, E> + Sync>(
    rt: &R,
    work: &W,
    first: u32,
    items: &mut [T],
) -> Result<(), E>
    requires count { first + length items.old < 2 ^ 32 }
    requires fits { AllByRecursion (W.fits work.now) items.old }
    ensures keeps { AllZip W.keeps items.old items.new }
    ensures does { OnOk result (AllZip W.does items.old items.new) }
{
    if items.len() < 2 {
        return work_last(work, first, items);
    }
    let middle = items.len() / 2;
    let second = first + middle as u32;
    let (front, back) = items.split_at_mut(middle);
    let (mine, theirs) = work_both(rt, work, first, front, second, back);
    mine?;
    theirs
}

/// Works on two slices, at the same time unless one of them is idle.
#[cycle(halves)]
fn work_both<R: Threads + Sync, T: Send, E: Send + Drop, W: Work<T, E> + Sync>(
    rt: &R,
    work: &W,
    first: u32,
    front: &mut [T],
    second: u32,
    back: &mut [T],
) -> (Result<(), E>, Result<(), E>)
    requires some { (0 < length front.old) × (0 < length back.old) }
    requires count { (first + length front.old < 2 ^ 32) × (second + length back.old < 2 ^ 32) }
    requires fits { AllByRecursion (W.fits work.now) front.old × AllByRecursion (W.fits work.now) back.old }
    ensures keeps { AllZip W.keeps front.old front.new × AllZip W.keeps back.old back.new }
    ensures does { OnOk result.0 (AllZip W.does front.old front.new) × OnOk result.1 (AllZip W.does back.old back.new) }
{
    if are_idle(work, front) || are_idle(work, back) {
        return (
            work_all(rt, work, first, front),
            work_all(rt, work, second, back),
        );
    }
    let mut mine = ||
        requires { IsSync R.row × IsSync W.row × IsSend T.row × IsSend E.row × (first + length front.now < 2 ^ 32)
            × AllByRecursion (W.fits work.now) front.now }
        ensures keeps { AllZip W.keeps front.entry.now front.exit.now }
        ensures does { OnOk result (AllZip W.does front.entry.now front.exit.now) }
    { work_all(rt, work, first, front) };
    let mut theirs = ||
        requires { IsSync R.row × IsSync W.row × IsSend T.row × IsSend E.row × (second + length back.now < 2 ^ 32)
            × AllByRecursion (W.fits work.now) back.now }
        ensures keeps { AllZip W.keeps back.entry.now back.exit.now }
        ensures does { OnOk result (AllZip W.does back.entry.now back.exit.now) }
    { work_all(rt, work, second, back) };
    join_mut(rt, &mut mine, &mut theirs)
}
