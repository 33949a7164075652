//! What the directives ask for, with numbers, and whether some have numbers of their own and others don't.
ghost use Rattle.std.specs.Prelude.{◌≡◌, [], OnOk};
ghost use Rattle.numbered_arguments.specs.NumberedArguments.{list_of};
ghost use Rattle.gcc_internal_format.specs.GccCollecting as spec;

use crate::directive::Directive;
use numbered_arguments::{Numbering, Request};
use std::alloc::{AllocError, Global};

/// The arguments asked for so far.
#[derive(Drop)]
pub struct Collected {
    pub numbering: Numbering,
    /// Whether one of them has a number of its own.
    pub own: bool,
    /// Whether one of them is the next one.
    pub next: bool,
}

/// Whether a request has a number of its own; the error number's isn't one.
fn is_own(request: Request) -> bool
    ensures { result ≡ spec.is_own request }
{
    match request.number {
        Some(number) => number != 0,
        None => false,
    }
}

impl Collected {
    pub(crate) fn new(alloc: Global) -> Collected
        ensures { spec.HasCollected [] result }
    {
        Collected {
            numbering: Numbering::new(alloc),
            own: false,
            next: false,
        }
    }

    fn add(&mut self, request: Option<Request>) -> Result<(), AllocError>
        ensures { OnOk result (spec.Adds self.old self.new (list_of request)) }
    {
        if let Some(request) = request {
            self.own = self.own || is_own(request);
            self.next = self.next || request.number.is_none();
        }
        self.numbering.add(request)
    }

    /// Adds what a directive asks for.
    pub(crate) fn add_all(&mut self, directive: Directive) -> Result<(), AllocError>
        ensures { OnOk result (spec.Adds self.old self.new (spec.asks directive)) }
    {
        self.add(directive.precision)?;
        self.add(directive.argument)?;
        Ok(())
    }
}
