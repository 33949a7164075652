//! The command line of `msgfmt` (GNU gettext manual, "msgfmt Invocation"), read by `clap`.
#![tactic(auto)]

mod words;

pub use words::{Request, WordsFault, parse};
