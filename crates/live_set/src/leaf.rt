//! The runs that hold the loads themselves.
ghost use Rattle.std.specs.Prelude.{◌≡◌, IfOk, IfErr, MatchResult};
ghost use Rattle.live_set.specs.Slots.{with_slot, Rises, IsAt, IsGapFor};

use crate::Load;
use crate::run::Run;
use byte_text::TextKey;
use std::alloc::{AllocError, Global};
use std::sync::Arc;

/// A run of loads is full once it has this many.
// An insertion into a copy of a set copies one run load by load. Up to this many loads a set has no other run.
const LOAD_LIMIT: usize = 128;

/// The index of the load for this domain and locale in a run, or the index at which it would be inserted.
fn slot(run: &[Load], domain: &TextKey<'_>, locale: &TextKey<'_>) -> Result<usize, usize>
    requires { Rises run.now }
    ensures found { IfOk result (IsAt run.now domain.now locale.now) }
    ensures absent { IfErr result (IsGapFor run.now domain.now locale.now) }
{
    run.binary_search_by(|load| load.compare(domain, locale))
}

/// Inserts a copy of a load into a run. If the run has a load for its domain and locale, that one gets its catalogue,
/// and keeps its own two names: whoever reads them in another set has their cache lines.
fn put_in(run: &mut Vec<Load>, load: &Load) -> Result<(), AllocError>
    requires { Rises run.old.items }
    ensures { MatchResult result (λ _. run.new.items ≡ with_slot run.old.items load.now)
        (λ _. run.new.items ≡ run.old.items) }
{
    match slot(run, &load.domain(), &load.locale()) {
        Ok(at) => {
            let catalogue = Arc::try_clone(&load.catalogue)?;
            run[at].replace_catalogue(catalogue);
            Ok(())
        }
        Err(at) => Ok(run.insert(at, load.try_clone()?)?),
    }
}

/// A copy of a run that shares its catalogues.
fn copied(alloc: Global, run: &[Load]) -> Result<Vec<Load>, AllocError>
    ensures { IfOk result (λ copy. copy.items ≡ run.now) }
{
    let mut copy = Vec::with_capacity(alloc, run.len())?;
    'loads: for load in run {
        copy.push(load.try_clone()?)?;
    }
    Ok(copy)
}

impl Run for Vec<Load> {
    ghost loads = { λ run. run.items };

    fn empty(alloc: Global) -> Vec<Load> {
        Vec::new(alloc)
    }

    fn count(&self) -> usize {
        self.len()
    }

    fn at(&self, index: usize) -> Result<&Load, usize> {
        match index.checked_sub(self.len()) {
            None => Ok(&self[index]),
            Some(left) => Err(left),
        }
    }

    fn get(&self, domain: &TextKey<'_>, locale: &TextKey<'_>) -> Option<&Load> {
        match slot(self, domain, locale) {
            Ok(at) => Some(&self[at]),
            Err(_) => None,
        }
    }

    fn place(&self, domain: &TextKey<'_>, locale: &TextKey<'_>) -> Option<usize> {
        match slot(self, domain, locale) {
            Ok(at) => Some(at),
            Err(_) => None,
        }
    }

    fn is_full(&self) -> bool {
        self.len() >= LOAD_LIMIT
    }

    fn halve(&mut self) -> Result<Vec<Load>, AllocError> {
        match self.len() / 2 {
            0 => Err(AllocError),
            half => self.split_off(half),
        }
    }

    fn put(&mut self, load: &Load) -> Result<(), AllocError> {
        put_in(self, load)
    }

    fn try_clone(&self, alloc: Global) -> Result<Vec<Load>, AllocError> {
        copied(alloc, self)
    }
}
