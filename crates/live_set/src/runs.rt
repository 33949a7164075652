//! Loads in ascending order, kept in runs of bounded length that copies share, and those in lists of runs.
ghost use Rattle.std.specs.Prelude.{◌≡◌, ◌<◌, true, false, [], ◌++◌, length, find, flat_map, option_map, MatchResult};
ghost use Rattle.std.specs.Prelude.{MatchOption, None, IfOk, IfSome, min, slice_get};
ghost use Rattle.std.specs.List.Sorted.{IsPartitionedBy, IsPartitionPoint};
ghost use Rattle.live_set.specs.Loads.{is_for};
ghost use Rattle.live_set.specs.Slots.{with_slot, Rises};
ghost use Rattle.live_set.specs.LoadRuns.{begins_by, begun_count, loads_in, IsLoadAt, IsCut};
ghost use Rattle.live_set.specs.Placing.{IsPlaceFor};

use crate::Load;
use crate::run::Run;
use byte_text::TextKey;
use std::alloc::{AllocError, Global};
use std::cmp::Ordering;
use std::marker::Model;
use std::mem;
use std::sync::Arc;

/// A list of runs is full once it has this many after the first one.
// A copy of a set goes through its first list of runs and its list of such lists, and an insertion goes through one
// more list of runs. There are about 10 lists at 20,000 loads, and 500 at a million.
const RUN_LIMIT: usize = 64;

/// The loads of a set: a list of lists of runs. A copy shares the lists but the first one, and of that one the runs but
/// the first.
pub(crate) type LoadRuns = Runs<Runs<Vec<Load>>>;

/// Loads in ascending order of locale and domain, in consecutive runs. Contracts see it as the list of loads.
#[derive(Drop)]
pub(crate) struct Runs<R: Run> {
    /// The first run. It isn't shared, so a set of few loads is looked up without following an `Arc`. Once it is full,
    /// it becomes one of the later runs, and no loads are left here. So a copy of a large set copies few loads.
    first: R,
    /// The runs after the first one; none of them is empty. Copies share them.
    later: Vec<Arc<R>>,
    /// How many loads there are in all of them, or 2^64 - 1 if there are more.
    count: usize,
}

impl<R: Run> Model for Runs<R> {
    ghost use Rattle.std.specs.Prelude.{List, ◌++◌, flat_map};
    ghost use Rattle.live_set.specs.Loads.{LoadValue};
    ghost use Rattle.live_set.specs.LoadRuns.{loads_in, IsInRuns};

    ghost Value = { List LoadValue };

    ghost view = { λ runs. R.loads runs.first ++ flat_map (loads_in R.loads) runs.later.items };

    ghost invariant = { λ runs. IsInRuns (loads_in R.loads) (R.loads runs.first) runs.later.items runs.count };
}

/// Whether the run begins at or before the place of a load for this domain and locale.
fn begins_by<R: Run>(run: &R, domain: &TextKey<'_>, locale: &TextKey<'_>) -> bool
    ensures { result ≡ begins_by domain.now locale.now (R.loads run.now) }
{
    match run.at(0) {
        Ok(load) => load.compare(domain, locale).is_le(),
        Err(_) => false,
    }
}

/// The index in `later` of the run where a load for this domain and locale belongs, or `None` if that is the first run.
#[inline(always)]
fn run_for<R: Run>(later: &[Arc<R>], domain: &TextKey<'_>, locale: &TextKey<'_>) -> Option<usize>
    ensures bound { IfSome result (λ at. at < length later.now) }
    ensures parted { IsPartitionedBy (λ run. begins_by domain.now locale.now (loads_in R.loads run)) later.now
        → IsPartitionPoint (λ run. begins_by domain.now locale.now (loads_in R.loads run) ≡ true)
        (λ run. begins_by domain.now locale.now (loads_in R.loads run) ≡ false) later.now (begun_count result) }
{
    // A search in an empty list would take a few nanoseconds, which a look-up in a small set would notice.
    if later.is_empty() {
        return None;
    }
    later
        .partition_point(|run| begins_by::<R>(run, domain, locale))
        .checked_sub(1)
}

/// How many loads there are in these runs, or 2^64 - 1 if there are more.
fn count_in<R: Run>(first: &R, later: &[Arc<R>]) -> usize
    ensures { result ≡ min (length (R.loads first.now ++ flat_map (loads_in R.loads) later.now))
        18446744073709551615 }
{
    let mut count = first.count();
    'runs: for run in later {
        count = count.saturating_add(run.count());
    }
    count
}

/// Like `Run::at`, for the loads of consecutive runs.
fn load_in<R: Run>(runs: &[Arc<R>], index: usize) -> Result<&Load, usize>
    ensures { IsLoadAt (flat_map (loads_in R.loads) runs.now) index result }
{
    let mut left = index;
    'runs: for run in runs {
        match run.at(left) {
            Ok(load) => return Ok(load),
            Err(rest) => left = rest,
        }
    }
    Err(left)
}

/// Copies the run if anybody else has it, so that it can be written to.
fn unshare<R: Run>(alloc: Global, run: &mut Arc<R>) -> Result<(), AllocError>
    ensures { loads_in R.loads run.new ≡ loads_in R.loads run.old }
{
    if Arc::strong_count(run) > 1 {
        let copy = run.try_clone(alloc)?;
        *run = Arc::new(alloc, copy)?;
    }
    Ok(())
}

/// Like `Run::put`, for a run that others may have: they keep it as it is.
fn put_shared<R: Run>(alloc: Global, run: &mut Arc<R>, load: &Load) -> Result<(), AllocError>
    requires { Rises (loads_in R.loads run.old) }
    ensures { MatchResult result
        (λ _. loads_in R.loads run.new ≡ with_slot (loads_in R.loads run.old) load.now)
        (λ _. loads_in R.loads run.new ≡ loads_in R.loads run.old) }
{
    unshare(alloc, run)?;
    match Arc::get_mut(run) {
        Some(run) => run.put(load),
        None => Err(AllocError),
    }
}

/// Moves the loads of a run to where copies can share them.
fn share<R: Run>(alloc: Global, run: &mut R) -> Result<Arc<R>, AllocError>
    ensures { MatchResult result
        (λ shared. (R.loads run.new ≡ []) × (loads_in R.loads shared ≡ R.loads run.old))
        (λ _. R.loads run.new ≡ R.loads run.old) }
{
    let mut shared = Arc::new(alloc, R::empty(alloc))?;
    match Arc::get_mut(&mut shared) {
        Some(place) => {
            mem::swap(place, run);
            Ok(shared)
        }
        None => Err(AllocError),
    }
}

/// Like `Run::halve`, with the upper half where copies can share it.
fn halve<R: Run>(alloc: Global, run: &mut R) -> Result<Arc<R>, AllocError>
    ensures { MatchResult result (λ upper. IsCut (R.loads run.old) (R.loads run.new) (loads_in R.loads upper))
        (λ _. R.loads run.new ≡ R.loads run.old) }
{
    let mut upper = Arc::new(alloc, R::empty(alloc))?;
    match Arc::get_mut(&mut upper) {
        Some(place) => {
            *place = run.halve()?;
            Ok(upper)
        }
        None => Err(AllocError),
    }
}

/// Like `halve`, for a run that others may have: they keep it as it is.
fn halve_shared<R: Run>(alloc: Global, run: &mut Arc<R>) -> Result<Arc<R>, AllocError>
    ensures { MatchResult result
        (λ upper. IsCut (loads_in R.loads run.old) (loads_in R.loads run.new) (loads_in R.loads upper))
        (λ _. loads_in R.loads run.new ≡ loads_in R.loads run.old) }
{
    unshare(alloc, run)?;
    match Arc::get_mut(run) {
        Some(run) => halve(alloc, run),
        None => Err(AllocError),
    }
}

impl<R: Run> Runs<R> {
    /// The load at a place, if there is one.
    #[inline(always)]
    pub(crate) fn load_at(&self, place: usize) -> Option<&Load>
        ensures { option_map (λ load. load.now) result ≡ slice_get self.now place }
    {
        self.at(place).ok()
    }

    /// If the run where the load belongs is full, makes another one: it halves a later run, and shares the first one.
    fn make_room(&mut self, load: &Load) -> Result<(), AllocError>
        ensures { self.new ≡ self.old }
    {
        match run_for(&self.later, &load.domain(), &load.locale()) {
            None => {
                if self.first.is_full() {
                    self.later.reserve(1)?;
                    let alloc = *self.later.allocator();
                    let full = share(alloc, &mut self.first)?;
                    self.later.insert(0, full)?;
                }
            }
            Some(at) => {
                if self.later[at].is_full() {
                    self.later.reserve(1)?;
                    let alloc = *self.later.allocator();
                    let upper = halve_shared(alloc, &mut self.later[at])?;
                    self.later.insert(at + 1, upper)?;
                }
            }
        }
        Ok(())
    }
}

impl<R: Run> Run for Runs<R> {
    ghost loads = { λ runs. runs };

    fn empty(alloc: Global) -> Runs<R>
        ensures { result ≡ [] }
    {
        Runs {
            first: R::empty(alloc),
            later: Vec::new(alloc),
            count: 0,
        }
    }

    fn count(&self) -> usize {
        self.count
    }

    #[inline(always)]
    fn at(&self, index: usize) -> Result<&Load, usize>
        ensures { IsLoadAt self.now index result }
    {
        match self.first.at(index) {
            Ok(load) => Ok(load),
            // None of the other runs is looked at if none has the load. A count of 2^64 - 1 doesn't tell.
            Err(_) if self.count <= index && self.count < usize::MAX => Err(index - self.count),
            Err(left) => load_in(&self.later, left),
        }
    }

    #[inline(always)]
    fn get(&self, domain: &TextKey<'_>, locale: &TextKey<'_>) -> Option<&Load>
        ensures { option_map (λ load. load.now) result ≡ find (is_for domain.now locale.now) self.now }
    {
        match run_for(&self.later, domain, locale) {
            None => self.first.get(domain, locale),
            Some(at) => self.later[at].get(domain, locale),
        }
    }

    #[inline(always)]
    fn place(&self, domain: &TextKey<'_>, locale: &TextKey<'_>) -> Option<usize>
        ensures { MatchOption result (find (is_for domain.now locale.now) self.now ≡ None)
            (IsPlaceFor self.now domain.now locale.now) }
    {
        match run_for(&self.later, domain, locale) {
            None => self.first.place(domain, locale),
            Some(at) => {
                let inside = self.later[at].place(domain, locale)?;
                let before = count_in(&self.first, &self.later[..at]);
                Some(before.saturating_add(inside))
            }
        }
    }

    fn is_full(&self) -> bool
        ensures { result ≡ true → 0 < length self.now }
    {
        self.later.len() >= RUN_LIMIT
    }

    fn halve(&mut self) -> Result<Runs<R>, AllocError>
        ensures { MatchResult result (λ upper. IsCut self.old self.new upper) (λ _. self.new ≡ self.old) }
    {
        let middle = self.later.len() / 2;
        if middle == 0 {
            return Err(AllocError);
        }
        let first = R::empty(*self.later.allocator());
        let later = self.later.split_off(middle)?;
        self.count = count_in(&self.first, &self.later);
        let count = count_in(&first, &later);
        Ok(Runs {
            first,
            later,
            count,
        })
    }

    fn put(&mut self, load: &Load) -> Result<(), AllocError>
        ensures { MatchResult result (λ _. self.new ≡ with_slot self.old load.now) (λ _. self.new ≡ self.old) }
    {
        self.make_room(load)?;
        match run_for(&self.later, &load.domain(), &load.locale()) {
            None => {
                let before = self.first.count();
                let put = self.first.put(load);
                self.count = self.count.saturating_add(self.first.count() - before);
                put
            }
            Some(at) => {
                let alloc = *self.later.allocator();
                let run = &mut self.later[at];
                let before = run.count();
                let put = put_shared(alloc, run, load);
                self.count = self.count.saturating_add(run.count() - before);
                put
            }
        }
    }

    fn try_clone(&self, alloc: Global) -> Result<Runs<R>, AllocError>
        ensures { IfOk result (λ runs. runs ≡ self.now) }
    {
        let mut later = Vec::with_capacity(alloc, self.later.len())?;
        'runs: for run in &self.later {
            later.push(Arc::try_clone(run)?)?;
        }
        Ok(Runs {
            first: self.first.try_clone(alloc)?,
            later,
            count: self.count,
        })
    }
}
