//! The reader of entries, one after another.
ghost use Rattle.std.specs.Prelude.{◌≡◌, ℕ, ◌+◌, ◌<◌, ◌≤◌, ◌^◌, ◌⊎◌, [], List, Err, IfOk, IfErr, Some, None, length};
ghost use Rattle.std.specs.Prelude.{false};
ghost use Rattle.std.specs.Bool.{OnTrue};
ghost use Rattle.po_text.specs.Ends.{EndsText};
ghost use Rattle.po_text.specs.Entries.{Entry};
ghost use Rattle.po_text.specs.Parsing.{IsReady};
ghost use Rattle.po_text.specs.declared.fault.PoFault.{PoFault as Fault};

use crate::buffer::EntryBuffer;
use crate::fault::PoFault;
use crate::parser::Parser;
use std::alloc::Global;

/// Reads the entries of a PO text one after another; [`open_text`](crate::open_text) makes one.
#[derive(Drop)]
pub struct EntryReader<'a> {
    parser: Parser<'a>,
    fault: Option<PoFault>,
    ghost ready: { fault ≡ None → IsReady parser },
}

impl<'a> EntryReader<'a> {
    ghost use Rattle.po_text.specs.Progress.{GoesOn, HasRead, IsMemoryOrFaulty, fault_of, left_of};

    /// A reader at the start of a text without a byte order mark.
    pub(crate) fn new(alloc: Global, text: &'a [u8]) -> EntryReader<'a>
        requires ends { EndsText text.now }
        requires short { length text.now + 1 < 2 ^ 32 }
        ensures read { HasRead text.now [] result }
        ensures fault { fault_of result ≡ None }
    {
        EntryReader {
            parser: Parser::new(alloc, text),
            fault: None,
        }
    }

    /// Reads the next entry into `into`, or returns false if there are no more. After a fault or at the end, the
    /// contents of `into` are unspecified.
    ///
    /// An entry is complete only when the next one begins, so a fault that ends the reading may be returned in place of
    /// the entry before it. After a fault, every later call returns that fault again.
    pub fn next_entry(&mut self, into: &mut EntryBuffer) -> Result<bool, PoFault>
        // If `entries` is what was read of a text so far, then one more entry was read, or these are all.
        ensures read { IfOk result (λ more. (text : List ℕ) (entries : List Entry) →
            HasRead text entries self.old → GoesOn more text entries into.new self.new) }

        // Each entry leaves less to read, so a loop over the entries ends.
        ensures falls { IfOk result (λ more. OnTrue more (left_of self.new < left_of self.old)) }

        // The fault is one of the text, or memory ran out.
        ensures fault { IfErr result (λ fault. (text : List ℕ) (entries : List Entry) →
            HasRead text entries self.old → IsMemoryOrFaulty text fault) }

        // A fault is kept and returned again.
        ensures unfailed { IfOk result (λ _. fault_of self.new ≡ None) }
        ensures failed { IfErr result (λ fault. fault_of self.new ≡ Some fault) }
        ensures again { (fault : Fault) → fault_of self.old ≡ Some fault → result ≡ Err fault }
    {
        if let Some(fault) = self.fault {
            return Err(fault);
        }
        let read = self.parser.next_entry(into);
        if let Err(fault) = read {
            self.fault = Some(fault);
        }
        read
    }
}
