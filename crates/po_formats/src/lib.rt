//! Lists what is wrong with the formats of a PO text, in the languages that `format_checks` checks (GNU gettext manual,
//! "PO Files"; "msgfmt Invocation": `--check-format`).
#![tactic(auto)]

mod any;
mod entries;
mod header;
mod often;
mod plain;

pub use any::{format_faults, one_list};
