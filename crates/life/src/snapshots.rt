//! The promise of a live store, for the store in which nobody waits.
//!
//! `run_snapshots` opens a snapshot store, does a list of commands while readers answer their requests in threads of
//! their own, and ends the store. Its contract is that of `run_life`, by the same definitions.
mod answer;
mod client;
mod publish;
mod run;
mod settle;

pub use client::Client;
pub use run::{Run, run_snapshots};
