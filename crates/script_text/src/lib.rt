//! Parses the text of a script: its number of workers, and its rounds of loads and questions; or its first bad line.
//!
//! `read_script` reads a whole script. `read_workers` and `read_line` read a single line, for callers whose lines
//! arrive one after another.
#![tactic(auto)]

mod command;
mod fault;
mod field;
mod fields;
mod line;
mod parse;

pub use command::{Line, Said, read_line, read_workers, says_nothing};
pub use fault::{LineFault, ScriptFault, ScriptKind};
pub use field::MOST_WORKERS;
pub use parse::{DEFAULT_WORKERS, MOST_SCRIPT, Script, read_script};
