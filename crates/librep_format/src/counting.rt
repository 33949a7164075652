//! What the directives ask for, with numbers: each goes to an argument of its own, and on from there.
ghost use Rattle.std.specs.Prelude.{◌≡◌, [], OnOk};
ghost use Rattle.librep_format.specs.LibrepCounting as spec;

use crate::parts::Directive;
use numbered_arguments::{Kind, Numbered};
use std::alloc::{AllocError, Global};

/// The arguments asked for so far.
#[derive(Drop)]
pub struct Counted {
    pub asked: Vec<Numbered>,
    /// The number of the argument that is next.
    pub next: u32,
}

impl Counted {
    pub(crate) fn new(alloc: Global) -> Counted
        ensures { spec.HasCounted [] result }
    {
        Counted {
            asked: Vec::new(alloc),
            next: 1,
        }
    }

    /// Asks for the argument of this number.
    fn take(&mut self, number: u32, kind: Kind) -> Result<(), AllocError>
        ensures { OnOk result (spec.Takes self.old self.new number kind) }
    {
        self.asked.push(Numbered { number, kind })?;
        self.next = number.wrapping_add(1);
        Ok(())
    }

    /// Adds what a directive asks for.
    pub(crate) fn add(&mut self, directive: Directive) -> Result<(), AllocError>
        ensures { OnOk result (spec.Adds self.old self.new directive) }
    {
        let number = directive.number.unwrap_or(self.next);
        let Some(kind) = directive.kind else {
            self.next = number;
            return Ok(());
        };
        self.take(number, kind)?;
        Ok(())
    }
}
