//! Compiles PO texts whose C formats name macros of `<inttypes.h>`, such as `%<PRIu64>`, or have the flag `I` in a
//! translation (GNU gettext manual, "c-format"): the messages that are the same on every system, and those that are
//! system-dependent, with their splits.
#![tactic(auto)]

mod compiled;
mod compiler;
mod counts;
mod dependent;
mod formats;
mod front;
mod gathered;
mod messages;

pub use c_macros::Split;
pub use compiled::DependentCompiled;
pub use compiler::compile_dependent;
pub use mo_dependent::{Dependent, SplitText};
pub use mo_segments::Strings;
