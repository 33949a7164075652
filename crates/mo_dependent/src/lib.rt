//! Writes MO files of revision 0.1 and 1.1, which have system-dependent strings (GNU gettext manual, "MO Files"), as
//! GNU msgfmt writes them.
#![tactic(auto)]

mod descriptors;
mod fault;
mod hashing;
mod header;
mod names;
mod slots;
mod split;
mod statics;
mod words;
mod writer;

pub use c_macros::Split;
pub use fault::WriteFault;
pub use split::{Dependent, SplitText, are_split, name_at};
pub use writer::write_dependent;
