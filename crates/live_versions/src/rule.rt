//! The rule that binds publisher and readers, over the two copies of `left_right`.
ghost use Rattle.std.specs.Prelude.{◌≡◌, MatchResult};
ghost use Rattle.live_versions.specs.StoreRule.{Keeps, Sees, applied_to};
ghost use Rattle.live_versions.specs.SeatViews.{fresh_view};

use crate::seal::{Cover, Seal};
use crate::seen::Seen;
use crossbeam_utils::rule::{Outcome, Protocol};
use left_right::Absorb;
use live_set::{CatalogueSet, Load};
use std::alloc::AllocError;
use std::marker::Model;

/// A change that the publisher logs for both copies.
#[derive(Drop)]
pub(crate) enum Change {
    /// One more load.
    Load(Load),
    /// The end of a batch: the loads up to here are these batches.
    Seal(Seal),
}

/// One copy: the set that readers look up in, and the batches that it was built from.
#[derive(Drop)]
pub(crate) struct Shown {
    pub(crate) set: CatalogueSet,
    pub(crate) seen: Cover,
}

/// The state that both copies have to agree on. No value of this type is ever made.
pub(crate) struct Common {
    pub(crate) set: CatalogueSet,
    pub(crate) seen: Seen,
}

impl Absorb<Change> for Shown {
    type State = Common;

    ghost state = { λ s. record { set = s.set; seen = s.seen } };

    ghost applied = { applied_to };

    fn absorb_first(&mut self, operation: &Change, _other: &Shown) -> Result<(), AllocError> {
        match operation {
            Change::Load(load) => self.set.absorb(load),
            // All loads before the seal are in by now, so what follows doesn't allocate.
            Change::Seal(seal) => {
                self.seen = seal.cover();
                Ok(())
            }
        }
    }
}

/// What a reader or the publisher knows: the book, and batches that were published. No value of this type is ever made.
pub(crate) struct View {
    nothing: (),
}

impl Model for View {
    ghost use Rattle.live_versions.specs.SeatViews.{ViewValue, fresh_view};

    ghost Value = { ViewValue };

    ghost view = { λ _. fresh_view };
}

/// The invariant over the shown copy and all views.
pub(crate) struct Versions;

impl Protocol<Shown, View> for Versions {
    ghost holds = { λ x views. Keeps x.set x.seen views };

    ghost first = { fresh_view };
}

/// Entering: the reader's view becomes what is published.
pub(crate) struct Entered;

impl Outcome<Shown, View> for Entered {
    ghost then = { λ v x y w. Sees v y.set y.seen w };
}
