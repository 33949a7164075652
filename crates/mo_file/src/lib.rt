//! MO files (GNU gettext manual, "MO Files"): writing the one file of a catalogue, and reading any MO file.
#![tactic(auto)]

mod fault;
mod laws;
mod own;
mod read;
mod refusals;
mod write;

pub use fault::MoFault;
pub use laws::{one_map, written_is_read};
pub use read::{Unread, read_mo, read_owned_mo, reread};
pub use refusals::{check, is_low_first, passes_bounds, passes_closing, passes_size};
pub use write::write_mo;
