//! What the directives ask for, with numbers: each goes to an argument of its own, and on from there.
ghost use Rattle.std.specs.Prelude.{◌≡◌, [], OnOk};
ghost use Rattle.numbered_arguments.specs.NumberedArguments.{list_of};
ghost use Rattle.gfc_internal_format.specs.GfcNumbers as spec;

use numbered_arguments::{Numbered, Request};
use std::alloc::{AllocError, Global};

/// What was asked for so far.
#[derive(Drop)]
pub struct Counted {
    pub asked: Vec<Numbered>,
    /// The number that is next.
    pub next: u32,
}

impl Counted {
    pub(crate) fn new(alloc: Global) -> Counted
        ensures { spec.HasCounted [] result }
    {
        Counted {
            asked: Vec::new(alloc),
            next: 1,
        }
    }

    /// Adds what a directive asks for.
    pub(crate) fn add(&mut self, request: Option<Request>) -> Result<(), AllocError>
        ensures { OnOk result (spec.Adds self.old self.new (list_of request)) }
    {
        let Some(request) = request else {
            return Ok(())
        };
        let number = request.number.unwrap_or(self.next);
        self.asked.push(Numbered {
            number,
            kind: request.kind,
        })?;
        self.next = number.wrapping_add(1);
        Ok(())
    }
}
