//! Runs scripts of loads and look-ups. A script has rounds: a round's loads are made and published, and then the
//! workers look up what the round asks them.
//!
//! `run_script` reads a script whole before it does anything, and writes at the end. `run_session` answers each round
//! when its last line has arrived. The crate also exports `serve` and its types from `desks`, which answers a round's
//! questions.
#![tactic(auto)]

mod asking;
mod hearing;
mod law;
mod output;
mod player;
mod round;
mod run;
mod said;
mod session;
mod session_fault;

pub use desks::{
    Accepted, Answer, Desk, Gate, Job, Place, ServeFault, Served, Source, one_end, one_history,
    serve,
};
pub use law::{first_rounds, one_output};
pub use run::run_script;
pub use script_text::{MOST_SCRIPT, MOST_WORKERS, ScriptFault, ScriptKind};
pub use session::run_session;
pub use session_fault::SessionFault;
