//! Catalogues as C holds them: the outcome of opening bytes.
ghost use Rattle.std.specs.Prelude.{◌≡◌, ◌≤◌};
ghost use denote.Param.{layout};
ghost use prog.Memory.{align, size};
ghost use Rattle.c_answers.specs.contracts.opened.Opened.{the_row};

use catalogue::{Catalogue, Stats};
use std::sync::Arc;

/// The catalogue of the bytes that were opened, or why there is none.
#[derive(Drop)]
pub struct Opened {
    pub catalogue: Option<Arc<Catalogue>>,
    /// The MO file, where it isn't that of the catalogue's map: that of a PO text with system-dependent messages.
    /// Without a catalogue, the bytes that C has handed over so far.
    pub file: Option<Vec<u8>>,
    /// The number of the fault (`numbers`); `NO_FAULT` if there is a catalogue.
    pub fault: u32,
    /// The fault's line in a PO text; 0 if it has none.
    pub line: u32,
    /// The counts of the PO text's entries; all 0 for an MO file, and if there is no catalogue.
    pub stats: Stats,
}

/// The number of bytes that C allocates for a catalogue. `malloc` aligns them well enough.
pub fn opened_size() -> usize
    ensures size { result ≡ size (layout the_row) }
    ensures alignment { align (layout the_row) ≤ 16 }
{
    std::mem::size_of::<Opened>()
}

/// Drops what was opened.
pub fn close(opened: Opened) {
    drop(opened);
}
