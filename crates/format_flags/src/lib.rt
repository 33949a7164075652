//! The flags of a PO text that say which formats the texts of an entry are, beside `c-format` (GNU gettext manual, "PO
//! Files").
#![tactic(auto)]

mod flags;
mod languages;

pub use flags::Flags;
pub use languages::Language;
