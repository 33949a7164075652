//! Desks: a reader with its queries and answers.
use live_set::Query;
use live_versions::{AskFault, Lookups, Version};
use thiserror::Error;

/// The answer to a query: the version of the entry that it comes from, and its text.
#[derive(Debug, Drop)]
pub struct Answer {
    pub version: Version,
    pub text: String,
}

/// Why a service ended early.
#[derive(Clone, Copy, Debug, PartialEq, Eq, Error)]
pub enum ServeFault {
    /// Out of memory for an answer, a load or a publish.
    #[error("out of memory")]
    Memory,
    /// At the end a reader had seen more than is published.
    #[error("a reader has seen more than is published")]
    Ahead,
    /// A thread couldn't be started. `serve` never returns this: it does the work of such a thread in turn.
    #[error("no thread")]
    Join,
    /// A reader found the store closed.
    #[error("the store is closed")]
    Closed,
}

impl From<AskFault> for ServeFault {
    ghost use Rattle.std.specs.Prelude.{◌≡◌};
    ghost use Rattle.desks.specs.AskFaults.{of_ask};

    ghost from_gives = { λ ask fault. fault ≡ of_ask ask };

    fn from(fault: AskFault) -> ServeFault {
        match fault {
            AskFault::Closed => ServeFault::Closed,
            AskFault::Memory => ServeFault::Memory,
        }
    }
}

/// A reader with its queries, and their answers once `serve` has run.
#[derive(Drop)]
pub struct Desk {
    pub reader: Lookups,
    pub queries: Vec<Query>,
    /// After `serve` returns `Ok`: one answer for each query, in order.
    pub answers: Vec<Answer>,
    /// After `serve` returns `Ok`: `None`.
    pub fault: Option<ServeFault>,
}
