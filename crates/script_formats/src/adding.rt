//! What the directives ask for, with numbers, and whether some have numbers of their own and others don't.
ghost use Rattle.std.specs.Prelude.{◌≡◌, [], OnOk};
ghost use Rattle.numbered_arguments.specs.NumberedArguments.{list_of};
ghost use Rattle.script_formats.specs.Collecting as spec;

use crate::Notation;
use crate::directive::Directive;
use numbered_arguments::{Numbering, Request};
use std::alloc::{AllocError, Global};

/// Which requests there were: with numbers of their own, and without.
#[derive(Clone, Copy)]
pub struct Used {
    pub own: bool,
    pub next: bool,
}

impl Used {
    fn with(self, request: Option<Request>) -> Used
        ensures { spec.AddsUses self result (list_of request) }
    {
        match request {
            Some(request) => Used {
                own: self.own || request.number.is_some(),
                next: self.next || request.number.is_none(),
            },
            None => self,
        }
    }

    /// Whether the language lets one format ask so.
    pub(crate) fn is_allowed(self, notation: Notation) -> bool
        ensures { result ≡ spec.allows notation self.own self.next }
    {
        match notation {
            Notation::Perl | Notation::Lua | Notation::ObjectPascal => true,
            _ => !(self.own && self.next),
        }
    }
}

/// The arguments asked for so far.
#[derive(Drop)]
pub struct Collected {
    pub numbering: Numbering,
    pub used: Used,
}

impl Collected {
    pub(crate) fn new(alloc: Global) -> Collected
        ensures { spec.HasCollected [] result }
    {
        Collected {
            numbering: Numbering::new(alloc),
            used: Used {
                own: false,
                next: false,
            },
        }
    }

    fn add(&mut self, request: Option<Request>) -> Result<(), AllocError>
        ensures { OnOk result (spec.Adds self.old self.new (list_of request)) }
    {
        self.used = self.used.with(request);
        self.numbering.add(request)
    }

    /// Adds what a directive asks for.
    pub(crate) fn add_all(&mut self, directive: Directive) -> Result<(), AllocError>
        ensures { OnOk result (spec.Adds self.old self.new (spec.asks directive)) }
    {
        self.add(directive.index)?;
        self.add(directive.separator)?;
        self.add(directive.vector)?;
        self.add(directive.width)?;
        self.add(directive.precision)?;
        self.add(directive.argument)?;
        Ok(())
    }
}
