//! The steps of the command `msgfmt` that need no catalogue: INPUT is read, FILE is written, and errors are reported.
#![tactic(auto)]

mod answers;
mod outcome;
mod steps;
mod texts;

pub use answers::{answer_words, end};
pub use outcome::{Cause, Status};
pub use steps::{MOST_INPUT, read_input, report, warn, write_output};
