//! System-dependent strings in MO files (GNU gettext manual, "MO Files"): the segments that stand for macros such as
//! `PRIu64`, the descriptors that put texts together of pieces and segments, and the flat file: the MO file of revision
//! 0 that has the same messages.
#![tactic(auto)]

mod dependents;
mod descriptors;
mod fault;
mod flat;
mod machine;
mod messages;
mod order;
mod segments;
mod words;

pub use dependents::{
    DEPENDENT_COUNT_AT, DEPENDENT_ORIGINALS_AT, DEPENDENT_TRANSLATIONS_AT, add_dependent,
};
pub use descriptors::{Expanded, expand};
pub use fault::DependentFault;
pub use flat::write_flat;
pub use machine::{Value, value_of};
pub use messages::Strings;
pub use order::kept;
pub use segments::read_segments;
