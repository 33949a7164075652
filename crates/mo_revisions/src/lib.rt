//! Reads MO files of the revisions 0.0, 0.1, 1.0 and 1.1, in either byte order (GNU gettext manual, "MO Files"). Those
//! of revision 0.0 are read as `mo_file` does, and the others by the one file of revision 0.0 with the same messages.
#![tactic(auto)]

mod dependent;
mod fault;
mod header;
mod reader;
mod statics;

pub use fault::AnyMoFault;
pub use reader::{catalogue_of, read_any_mo, read_messages, read_revised};
