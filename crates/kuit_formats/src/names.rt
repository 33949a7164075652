//! Names that came before, each found in logarithmic time.
ghost use Rattle.std.specs.Prelude.{◌≡◌, [], not, IfOk, OnOk};
ghost use Rattle.kuit_formats.specs.KuitReading.{Adds, IsSetOf, knows};

use std::alloc::{AllocError, Global};
use std::collections::BTreeMap;

/// A set of names.
#[derive(Drop)]
pub(crate) struct Names<'a> {
    pub(crate) known: BTreeMap<&'a [u8], ()>,
}

impl<'a> Names<'a> {
    pub(crate) fn new(alloc: Global) -> Names<'a>
        ensures { IsSetOf result [] }
    {
        Names {
            known: BTreeMap::new(alloc),
        }
    }

    /// Adds a name, and returns whether it is new. The only error is a failed allocation.
    pub(crate) fn add(&mut self, name: &'a [u8]) -> Result<bool, AllocError>
        ensures is_new { IfOk result (λ is_new. is_new ≡ not (knows self.old name.now)) }
        ensures added { OnOk result (Adds self.old self.new name.now) }
    {
        let known = self.known.insert(name, ())?;
        Ok(known.is_none())
    }
}
