//! The kinds of arguments by number, so that each is found in logarithmic time.
ghost use Rattle.std.specs.Prelude.{◌≡◌, IfOk};
ghost use Rattle.numbered_arguments.specs.NumberedIndex.{IsIndexOf, fits_by, has_in};

use crate::kinds::{kinds_fit, same_kind};
use crate::{Kind, Numbered};
use std::alloc::{AllocError, Global};
use std::collections::BTreeMap;

/// The kind of the last argument of each number.
#[derive(Drop)]
pub struct Index {
    pub(crate) kinds: BTreeMap<u32, Kind>,
}

impl Index {
    pub fn of(alloc: Global, asked: &[Numbered]) -> Result<Index, AllocError>
        ensures { IfOk result (λ index. IsIndexOf index asked.now) }
    {
        let mut kinds = BTreeMap::new(alloc);
        'asked: for argument in asked {
            kinds.insert(argument.number, argument.kind)?;
        }
        Ok(Index { kinds })
    }

    /// Whether the kind by the argument's number is the argument's.
    pub fn has(&self, argument: Numbered) -> bool
        ensures { result ≡ has_in self.now argument }
    {
        match self.kinds.get(&argument.number) {
            Some(kind) => same_kind(*kind, argument.kind),
            None => false,
        }
    }

    /// Whether one object can be of the kind by the argument's number, and of the argument's.
    pub(crate) fn fits(&self, argument: Numbered) -> bool
        ensures { result ≡ fits_by self.now argument }
    {
        match self.kinds.get(&argument.number) {
            Some(kind) => kinds_fit(*kind, argument.kind),
            None => false,
        }
    }
}
