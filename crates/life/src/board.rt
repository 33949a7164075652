//! The board on which a publisher leaves notices for the readers of its store.
ghost use Rattle.std.specs.Prelude.{◌≡◌, IfOk};

use boxcar::slot::{OnceSlot, SlotRule};
use boxcar::tag::{Names, Tag};
use std::alloc::{AllocError, Global};
use std::marker::Model;

/// A notice on a board is of the board's store.
pub(crate) struct OfStore;

impl Names<live_versions::Notice> for OfStore {
    ghost use Rattle.life.specs.Boards.{numbers_of};

    ghost numbers = { λ notice. numbers_of notice.book };
}

impl SlotRule<live_versions::Notice> for OfStore {
    ghost use Rattle.life.specs.Boards.{IsOfStore};

    ghost holds = { IsOfStore };
}

impl Names<snapshot_store::Notice> for OfStore {
    ghost use Rattle.life.specs.Boards.{numbers_of};

    ghost numbers = { λ notice. numbers_of notice.book };
}

impl SlotRule<snapshot_store::Notice> for OfStore {
    ghost use Rattle.life.specs.Boards.{IsOfStore};

    ghost holds = { IsOfStore };
}

/// The notice that there was at first, and a slot for each further one. Threads share a board: one of them fills the
/// slots in order, and the others read. Contracts see it as its tag.
#[derive(Drop)]
pub(crate) struct Board<N: Drop, P: SlotRule<N>> {
    first: N,
    slots: Vec<OnceSlot<N, P>>,
    tag: Tag,
}

impl<N: Drop, P: SlotRule<N>> Model for Board<N, P> {
    ghost use Rattle.std.specs.Prelude.{◌≡◌, ℕ, List};
    ghost use Rattle.std.specs.List.{All};
    ghost use base.Stored.{coded_list, coded_ℕ};

    ghost Value = { List ℕ };

    ghost coded = { coded_list coded_ℕ };

    ghost view = { λ b. b.tag.numbers };

    ghost invariant = { λ b. P.holds b.tag.numbers b.first × All (λ slot. slot.tag ≡ b.tag.numbers) b.slots.items };
}

impl<N: Drop, P: SlotRule<N> + Names<N>> Board<N, P> {
    /// A board with this notice, and `room` slots for further ones.
    pub(crate) fn new(alloc: Global, room: usize, first: N) -> Result<Board<N, P>, AllocError>
        requires { P.holds (P.numbers first) first }
        ensures { IfOk result (λ board. board ≡ P.numbers first) }
    {
        let tag = Tag::of::<N, P>(&first);
        let mut slots = Vec::new(alloc);
        for _ in 0..room {
            slots.push(OnceSlot::new(&tag))?;
        }
        Ok(Board { first, slots, tag })
    }

    /// Leaves a notice in the slot with this index.
    pub(crate) fn post(&self, index: usize, notice: N)
        requires { P.holds self.now notice }
    {
        if let Some(slot) = self.slots.get(index) {
            let _ = slot.set_written(notice);
        }
    }

    /// The notice that there was at first.
    pub(crate) fn first(&self) -> &N
        ensures { P.holds self.now result.now }
    {
        &self.first
    }

    /// The notice that was left last: a slot is free only if all that follow it are. That it is the last one no
    /// contract says, since a board doesn't know what other threads have done.
    pub(crate) fn newest(&self) -> &N
        ensures { P.holds self.now result.now }
    {
        let mut newest = &self.first;
        'slots: for slot in self.slots.iter() {
            let Some(notice) = slot.get() else {
                break 'slots;
            };
            newest = notice;
        }
        newest
    }
}
