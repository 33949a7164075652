//! What both live stores say of loads: what makes one, why one is refused, what is pending, and what is published.
//!
//! A load is a catalogue for a domain and a locale. A store accepts it, and it is pending until it is published. All
//! pending loads are published in one step, as one batch, and a version is the number of published loads.
//!
//! `live_versions` and `snapshot_store` load by the same steps: `admit` checks the names and the room, `compiled` or
//! `read` builds the catalogue, and `load_of` makes the load, which the store then keeps in its own way.
#![tactic(auto)]

mod answers;
mod fault;
mod load;
mod numbers;

pub use answers::one_answer;
pub use fault::StoreFault;
pub use load::{Room, admit, compiled, load_of, read};
pub use numbers::{mo_number, po_number};
