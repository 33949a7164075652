//! The arguments that directives take, one after another.
ghost use Rattle.std.specs.Prelude.{◌≡◌, Some, OnOk, IfErr};
ghost use Rattle.java_printf_format.specs.PrintfPlaces as spec;

use crate::directive::{Directive, Which};
use format_arguments::FormatFault;
use numbered_arguments::{Kind, Numbered};
use std::alloc::{AllocError, Global};

/// The arguments taken so far.
#[derive(Drop)]
pub(crate) struct Collected {
    pub(crate) asked: Vec<Numbered>,
    /// The number of the next argument that is taken without a number.
    pub(crate) next: u32,
    /// The number of the last argument.
    pub(crate) last: Option<u32>,
}

/// The next number, behind an argument at this which.
fn next_behind(which: Which, next: u32) -> u32
    ensures { result ≡ spec.next_behind which next }
{
    match which {
        Which::Next => next.wrapping_add(1),
        Which::Own(_) | Which::Previous => next,
    }
}

impl Collected {
    pub(crate) fn new(alloc: Global) -> Collected
        ensures { spec.taken_view result ≡ spec.nothing }
    {
        Collected {
            asked: Vec::new(alloc),
            next: 1,
            last: None,
        }
    }

    /// The number of the argument at a which. None: there is no argument before.
    fn number_at(&self, which: Which) -> Option<u32>
        ensures { result ≡ spec.number_at which (spec.taken_view self.now) }
    {
        match which {
            Which::Own(number) => Some(number),
            Which::Previous => self.last,
            Which::Next => Some(self.next),
        }
    }

    /// Takes an argument of this number, if there is a kind.
    fn take(&mut self, which: Which, kind: Option<Kind>, number: u32) -> Result<(), AllocError>
        ensures { OnOk result (spec.with_number (spec.taken_view self.old) which kind (Some number)
            ≡ Some (spec.taken_view self.new)) }
    {
        let Some(kind) = kind else { return Ok(()) };
        self.asked.push(Numbered { number, kind })?;
        self.next = next_behind(which, self.next);
        self.last = Some(number);
        Ok(())
    }

    /// Adds what a directive takes. `Invalid` means that it refers to the argument before, and that there is none.
    pub(crate) fn add(&mut self, directive: Directive) -> Result<(), FormatFault>
        ensures ok { OnOk result (spec.with_one (spec.taken_view self.old) directive
            ≡ Some (spec.taken_view self.new)) }
        ensures err { IfErr result (λ fault. spec.Blocks (spec.taken_view self.old) directive fault) }
    {
        let Some(number) = self.number_at(directive.which) else {
            return Err(FormatFault::Invalid)
        };
        self.take(directive.which, directive.kind, number)?;
        Ok(())
    }
}
