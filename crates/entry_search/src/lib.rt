//! The search for an entry by its key: by an index of the keys' hashes or by binary search, with its steps counted.
#![tactic(auto)]

mod asked;
mod entries;
mod find;
mod index;
mod index_slots;
mod keys;
mod slot_table;
mod step_count;

pub use asked::AskedKey;
pub use entries::{Entries, NO_HINT};
pub use keys::cmp_keys;
pub use step_count::Steps;
