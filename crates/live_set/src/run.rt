//! What a set asks of a run of loads in ascending order, whether it is a list of loads or a list of runs.
ghost use Rattle.std.specs.Prelude.{◌≡◌, ◌<◌, true, List, [], length, find, option_map, min, MatchResult, MatchOption};
ghost use Rattle.std.specs.Prelude.{None, IfOk};
ghost use Rattle.live_set.specs.Loads.{LoadValue, is_for};
ghost use Rattle.live_set.specs.LoadRuns.{IsLoadAt, IsCut};
ghost use Rattle.live_set.specs.Slots.{with_slot, Rises};
ghost use Rattle.live_set.specs.Placing.{IsPlaceFor};

use crate::Load;
use byte_text::TextKey;
use std::alloc::{AllocError, Global};

/// A run of loads in ascending order of locale and domain.
pub(crate) trait Run: Drop {
    /// The loads.
    ghost loads: { Self → List LoadValue };

    /// A run of no loads. It doesn't allocate.
    fn empty(alloc: Global) -> Self
        ensures { loads result ≡ [] };

    /// How many loads there are, or 2^64 - 1 if there are more.
    fn count(&self) -> usize
        ensures { result ≡ min (length (loads self.now)) 18446744073709551615 };

    /// The load with this index, or else by how much the index exceeds the number of loads.
    fn at(&self, index: usize) -> Result<&Load, usize>
        ensures { IsLoadAt (loads self.now) index result };

    /// The load for this domain and locale, if there is one.
    fn get(&self, domain: &TextKey<'_>, locale: &TextKey<'_>) -> Option<&Load>
        requires { Rises (loads self.now) }
        ensures { option_map (λ load. load.now) result ≡ find (is_for domain.now locale.now) (loads self.now) };

    /// The place of the load for this domain and locale, if there is one: its index, or 2^64 - 1 if that is larger.
    fn place(&self, domain: &TextKey<'_>, locale: &TextKey<'_>) -> Option<usize>
        requires { Rises (loads self.now) }
        ensures { MatchOption result (find (is_for domain.now locale.now) (loads self.now) ≡ None)
            (IsPlaceFor (loads self.now) domain.now locale.now) };

    /// Whether there has to be another run before a load is put there.
    fn is_full(&self) -> bool
        ensures { result ≡ true → 0 < length (loads self.now) };

    /// Moves the upper half to a run of its own. Fails if memory runs out or there is too little to halve, and the run
    /// is unchanged.
    fn halve(&mut self) -> Result<Self, AllocError>
        ensures { MatchResult result (λ upper. IsCut (loads self.old) (loads self.new) (loads upper))
            (λ _. loads self.new ≡ loads self.old) };

    /// Inserts a copy of a load, replacing the one for its domain and locale if there is one. If memory runs out, it
    /// fails and the loads are unchanged.
    fn put(&mut self, load: &Load) -> Result<(), AllocError>
        requires { Rises (loads self.old) }
        ensures { MatchResult result (λ _. loads self.new ≡ with_slot (loads self.old) load.now)
            (λ _. loads self.new ≡ loads self.old) };

    /// A copy that shares what it can. Fails if memory runs out.
    fn try_clone(&self, alloc: Global) -> Result<Self, AllocError>
        ensures { IfOk result (λ copy. loads copy ≡ loads self.now) };
}
