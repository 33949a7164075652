//! Where readers of a store are made, whatever its publisher is doing.
ghost use Rattle.std.specs.Prelude.{◌≡◌, IfOk};
ghost use Rattle.std.specs.Arc.{arc_value};
ghost use Rattle.live_loads.specs.Batches.{StartsWith};

use crate::book::{Known, tie};
use crate::reader::Reader;
use crate::shared::Shared;
use std::alloc::AllocError;
use std::marker::Model;
use std::sync::Arc;

/// Makes readers of a store. It keeps no version alive, and any number of threads may use it at once, also while the
/// publisher publishes. Contracts see it as the batches that were published when it was made.
#[derive(Drop)]
pub struct Entrance {
    shared: Arc<Shared>,
    known: Known,
}

impl Model for Entrance {
    ghost use Rattle.std.specs.Prelude.{◌≡◌};
    ghost use Rattle.std.specs.Arc.{arc_value};
    ghost use Rattle.live_loads.specs.Seen.{SeenValue};

    ghost Value = { SeenValue };

    ghost view = { λ e. e.known };

    ghost invariant = { λ e. (arc_value e.shared).shown.word.book ≡ e.known.book };
}

impl Entrance {
    pub(crate) fn new(shared: Arc<Shared>, known: Known) -> Entrance
        requires { (arc_value shared).shown.word.book ≡ known.book }
        ensures { result ≡ known }
    {
        Entrance { shared, known }
    }

    /// A reader of the store, in the newest version. It waits for nothing, and allocates nothing. Fails if there are
    /// 2^31 readers already.
    pub fn reader(&self) -> Result<Reader, AllocError>
        ensures later { IfOk result (λ reader. StartsWith reader.batches self.now.batches) }
        ensures book { IfOk result (λ reader. reader.book ≡ self.now.book) }
    {
        let Some((snapshot, found)) = self.shared.newest(&self.known) else {
            return Err(AllocError);
        };
        tie(snapshot.seen(), &self.known);
        let shared = Arc::try_clone(&self.shared)?;
        Ok(Reader::new(shared, snapshot, found))
    }
}
