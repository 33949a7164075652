//! The live store of catalogues: one publisher, and readers that never wait for it.
//!
//! A load, of a PO text or an MO file, is pending from when it is accepted until it is published. A publish shows all
//! pending loads in one step, as one batch. A version is the number of published loads. A reader enters the store and
//! looks up in one published version for as long as it likes, while later ones are published. It never enters an older
//! version than one that it has entered or learnt of from a notice.
//!
//! # One publish, step by step
//!
//! `left_right` keeps two copies of the set. Readers enter the one that is shown; the publisher writes to the spare
//! one.
//!
//! 1. `load` and `load_mo` check the names and the room, build the catalogue and its index, and append a `Change::Load`
//!    to the writer's log. Readers see nothing of it.
//! 2. `publish` returns at once if nothing is pending. Otherwise it makes a `Seal` for the pending loads and appends it
//!    to the log as the last change. Seals that failed publishes left in the log are void from now on.
//! 3. It waits until no reader is in the spare copy. Only one that entered before the last publish can be there.
//! 4. It applies to the spare copy what that copy lacks: first the last publish's changes, then the new ones. Readers
//!    go on entering the shown copy. If memory runs out, readers still see what they saw, and the loads stay pending.
//! 5. The new seal comes last. Applying it binds the batch: a compare-and-exchange raises the version word from the old
//!    version to the new one, and the copy's `Cover` keeps the resulting `Seen`. It allocates nothing, so nothing can
//!    fail after it.
//! 6. The writer swaps the copies. A reader that enters from now on sees the whole batch; one that is already inside
//!    keeps its version until it leaves.
//! 7. `publish` takes its new `Seen` from the shown copy. The other copy gets the batch in step 4 of the next publish.
//!
//! A reader's `enter` takes the `Seen` of the copy that it entered. It compares versions only at its first entry and
//! after it has learnt a notice.
//!
//! # Which type carries which part of the proof
//!
//! These exist at run time:
//!
//! - `Change`: a logged change of the copies, a load or a seal; `Shown`: one copy, its set and the `Cover` that goes
//!   with it.
//! - `Seal`: a batch about to be shown; `Sealing`: the version word and the number of the one seal that may be bound.
//! - `Head`: the version word of the store's book; `Seen`: a version, and in proofs the batches that make it up.
//! - `Cover`: which batches a copy shows, with their `Seen` once they are in the book.
//!
//! These have no bytes, and are for proofs alone:
//!
//! - `BookBatch`, `BookRule`: a page of the book that records the batches, and the rule that its word is their version.
//! - `Bundle`: a batch's loads; `BundleLoad`, `BundleRule`: a page of the book that a bundle wraps, and its empty rule.
//! - `Common`: the state that both copies must agree on; `View`: what a reader or the publisher knows of the store.
//! - `Versions`: the invariant over the shown copy and all views (`StoreRule.Keeps`).
//! - `Entered`, `Publishing`: how entering and publishing change the view of who does it.
//! - `Adding`, `Offered`, `Nothing`, `Pages`, `Same`: what single calls of `logbook` and `left_right` prove.
#![tactic(auto)]

mod fault;
mod law;
mod load;
mod notice;
mod pinned;
mod publisher;
mod reader;
mod rule;
mod seal;
mod seen;
mod store;
mod writer;

pub use fault::{Ahead, AskFault, Closed, OpenFault, PublishFault};
pub use law::versions_never_fall;
pub use live_loads::{StoreFault, mo_number, one_answer, po_number};
pub use notice::Notice;
pub use pinned::{Pinned, Visit};
pub use publisher::Publisher;
pub use reader::Lookups;
pub use store::open_store;

/// The number of published loads.
pub type Version = u64;
