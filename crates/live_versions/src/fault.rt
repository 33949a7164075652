//! The errors of the store. Loads are refused with `live_loads::StoreFault`.
use thiserror::Error;

/// Why a store couldn't be opened.
#[derive(Clone, Copy, Debug, PartialEq, Eq, Error)]
pub enum OpenFault {
    /// The number of readers isn't 1 to 16.
    #[error("not 1 to 16 readers")]
    BadCount,
    /// No seat was left for a reader.
    #[error("no place for a reader")]
    NoPlace,
    /// Out of memory.
    #[error("out of memory")]
    Memory,
}

/// A publish ran out of memory. The pending loads stay pending.
#[derive(Clone, Copy, Debug, PartialEq, Eq, Error)]
pub enum PublishFault {
    /// Out of memory.
    #[error("out of memory")]
    Memory,
}

/// The reader can't enter because the store is closed: its publisher has ended.
#[derive(Clone, Copy, Debug, PartialEq, Eq, Error)]
#[error("the store is closed")]
pub struct Closed;

/// Why a query got no answer.
#[derive(Clone, Copy, Debug, PartialEq, Eq, Error)]
pub enum AskFault {
    /// The store is closed. The reader is unchanged.
    #[error("the store is closed")]
    Closed,
    /// Out of memory for the answer's text.
    #[error("out of memory")]
    Memory,
}

/// The reader has seen a later version than the notice's.
#[derive(Clone, Copy, Debug, PartialEq, Eq, Error)]
#[error("version {seen} was seen")]
pub struct Ahead {
    /// The greatest version that the reader has entered or learnt of.
    pub seen: u64,
}
