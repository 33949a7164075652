//! Numbers for the arguments of directives that have none of their own.
ghost use Rattle.std.specs.Prelude.{◌≡◌, [], OnOk};
ghost use Rattle.numbered_arguments.specs.NumberedArguments.{list_of};
ghost use Rattle.numbered_arguments.specs.NumberedArguments as spec;
ghost use Rattle.numbered_arguments.specs.NumberingStates.{AddsRequests, HasNumbered};

use crate::{Numbered, Request};
use std::alloc::{AllocError, Global};

/// The arguments asked for so far, each with its number.
#[derive(Drop)]
pub struct Numbering {
    pub asked: Vec<Numbered>,
    /// The number of the next argument that has none of its own.
    pub next: u32,
}

impl Numbering {
    pub fn new(alloc: Global) -> Numbering
        ensures { HasNumbered [] result }
    {
        Numbering {
            asked: Vec::new(alloc),
            next: 1,
        }
    }

    /// The number of an argument; the next one, if it has none of its own.
    fn number(&mut self, own: Option<u32>) -> u32
        ensures number { result ≡ spec.number_or own self.old.next }
        ensures next { self.new.next ≡ spec.next_after own self.old.next }
        ensures asked { self.new.asked ≡ self.old.asked }
    {
        match own {
            Some(number) => number,
            None => {
                let number = self.next;
                self.next = number.wrapping_add(1);
                number
            }
        }
    }

    /// Adds what a directive asks for.
    pub fn add(&mut self, request: Option<Request>) -> Result<(), AllocError>
        ensures { OnOk result (AddsRequests self.old self.new (list_of request)) }
    {
        let Some(request) = request else {
            return Ok(())
        };
        let number = self.number(request.number);
        self.asked.push(Numbered {
            number,
            kind: request.kind,
        })?;
        Ok(())
    }
}
