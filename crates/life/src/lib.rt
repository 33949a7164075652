//! One history for the whole life of a store: whatever was loaded, published and looked up, from its opening on.
//!
//! `run_life` opens a store, does a list of commands while 1 to 16 readers answer their requests, and ends the store;
//! its contract is the promise of the store as one clause. `run_on` does so with a store and readers that were used
//! before. The laws say what each call of a store adds to its history, for programs that drive a store themselves.
//!
//! The module `snapshots` does the same with a store of `snapshot_store`, in which nobody waits.
#![tactic(auto)]

mod answer;
mod board;
mod client;
mod command;
mod law;
mod life;
mod publish;
mod service;
mod settle;
pub mod snapshots;

pub use client::{Client, Reply, Request};
pub use command::{Command, Outcome};
pub use law::{
    load_keeps, one_life, open_reaches, publish_keeps, read_keeps, serve_keeps, stop_keeps,
};
pub use life::{Life, LifeFault, run_life};
pub use service::run_on;
