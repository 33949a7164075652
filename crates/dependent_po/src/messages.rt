//! The messages of entries, in two parts.
ghost use Rattle.std.specs.Prelude.{◌≡◌, [], OnOk};
ghost use Rattle.dependent_po.specs.EntryGathering.{AddsMessage, AreGathered};

use crate::dependent::{has_split, into_strings, message_of};
use mo_dependent::Dependent;
use mo_segments::Strings;
use po_text::EntryBuffer;
use std::alloc::{AllocError, Global};

/// The messages of entries, in their order: those without a split, and those with one.
#[derive(Drop)]
pub(crate) struct Messages {
    pub(crate) statics: Vec<Strings>,
    pub(crate) dependents: Vec<Dependent>,
}

impl Messages {
    /// Starts without a message.
    pub(crate) fn new(alloc: Global) -> Messages
        ensures { AreGathered [] result }
    {
        Messages {
            statics: Vec::new(alloc),
            dependents: Vec::new(alloc),
        }
    }

    /// Adds the message of an entry.
    pub(crate) fn add(&mut self, alloc: Global, entry: &EntryBuffer) -> Result<(), AllocError>
        ensures { OnOk result (AddsMessage entry.now self.old self.new) }
    {
        let message = message_of(alloc, entry)?;
        if has_split(&message) {
            self.dependents.push(message)?;
        } else {
            self.statics.push(into_strings(message))?;
        }
        Ok(())
    }
}
