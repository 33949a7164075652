//! How C opens the bytes of a catalogue: an MO file of any revision, or a PO text, in any charset that `charsets`
//! decodes.
#![tactic(auto)]

mod handing;
mod opening;

pub use handing::{add_piece, new_bytes, open_handed_mo, open_handed_po};
pub use opening::{copied, number_and_line, open_mo, open_owned_po, open_po, options_of};
