//! Serving the queries of 1 to 16 readers while another thread loads and publishes.
//!
//! Each reader has a desk with its queries. The publisher has jobs; each loads a PO text or an MO file and publishes it
//! by itself. `serve` does all of this at once, and answers each query from one entry to the store.
#![tactic(auto)]

mod desk;
mod gate;
mod job;
mod law;
mod publish;
mod service;
mod settle;
mod worker;

pub use desk::{Answer, Desk, ServeFault};
pub use gate::{Gate, OpenGate, Place};
pub use job::{Accepted, Job, Source};
pub use law::{one_end, one_history};
pub use publish::load_job;
pub use service::{Served, serve};
pub use settle::{first_fault, learn_all, settle_all};
pub use worker::work_all;
