//! A live store of catalogues in which nobody waits: neither the publisher for readers, nor a reader for anyone.
//!
//! A load is pending from when it is accepted until it is published. A publish makes a version of all pending loads,
//! which is the set of catalogues with them, and shows it in one step. A version's number is how many loads are
//! published in it. A reader enters the newest version and looks up in it for as long as it likes, while others are
//! published. A version is freed when neither a reader nor a slot has it.
//!
//! The contracts are in the words of `live_loads`, as those of `live_versions` are, whose publisher waits for readers.
//! No call here takes a handle, so that a static library may have a store.
#![tactic(auto)]

mod away;
mod book;
mod entrance;
mod fault;
mod load;
mod notice;
mod publisher;
mod reader;
mod shared;
mod snapshot;
mod snapshots;

pub use away::Away;
pub use entrance::Entrance;
pub use fault::{OpenFault, PublishFault};
pub use notice::Notice;
pub use publisher::{Publisher, open_store};
pub use reader::Reader;
