//! Writes a catalogue as a PO text, as GNU msgunfmt does (GNU gettext manual, "msgunfmt Invocation").
#![tactic(auto)]

mod entries;
mod law;
mod literals;
mod write;

pub use law::{written_is_accepted, written_is_compiled, written_is_read};
pub use write::write_po;
