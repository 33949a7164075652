//! The kinds of the arguments by name, so that each name is found in logarithmic time.
ghost use Rattle.std.specs.Prelude.{◌≡◌, IfOk, OnOk, map};
ghost use Rattle.format_arguments.specs.Indexing.{Adds, IsIndexOf, kinds_in};
ghost use Rattle.format_arguments.specs.ArgumentViews.{argument_view};

use crate::Argument;
use crate::kinds::Kinds;
use std::alloc::{AllocError, Global};
use std::collections::BTreeMap;

/// The kinds that a list of arguments asks for by each name.
#[derive(Drop)]
pub(crate) struct Index<'a> {
    pub(crate) kinds: BTreeMap<&'a [u8], Kinds>,
}

impl<'a> Index<'a> {
    pub(crate) fn of(alloc: Global, asked: &[Argument<'a>]) -> Result<Index<'a>, AllocError>
        ensures { IfOk result (λ index. IsIndexOf index (map argument_view asked.now)) }
    {
        let mut index = Index {
            kinds: BTreeMap::new(alloc),
        };
        'asked: for argument in asked {
            index.add(*argument)?;
        }
        Ok(index)
    }

    fn add(&mut self, argument: Argument<'a>) -> Result<(), AllocError>
        ensures { OnOk result (Adds self.old self.new (argument_view argument.entry)) }
    {
        let Some(name) = argument.name else {
            return Ok(())
        };
        let before = self.kinds_by(name).unwrap_or(Kinds::none());
        self.kinds.insert(name, before.with(argument.kind))?;
        Ok(())
    }

    /// The kinds that are asked for by a name, if any are.
    pub(crate) fn kinds_by(&self, name: &'a [u8]) -> Option<Kinds>
        ensures { result ≡ kinds_in self.now name.now }
    {
        self.kinds.get(&name).copied()
    }
}
