//! The command `msgfmt`: it compiles a PO text to an MO file.
//!
//! `msgfmt [-c] [-f] [--statistics] [-o FILE] INPUT` reads a PO file and writes an MO file; the name `-` means
//! standard input and standard output.
#![tactic(auto)]

mod command;
mod compiling;
mod law;

pub use command::run;
pub use law::one_status;
pub use msgfmt_steps::{Cause, MOST_INPUT, Status};
