//! The tables of an MO file (GNU gettext manual, "MO Files"), in either byte order: their rows, and the tests of the
//! strings that the rows name, wherever these lie and however they overlap.
#![tactic(auto)]

mod blocks;
mod claims;
mod gap;
mod lawful;
mod row_tests;
mod rows;
mod sound;
mod stretch;
mod strings;
mod tables;
mod texts;

pub use lawful::{have_lawful_forms, have_lawful_texts, overlapping_keys_rise};
pub use rows::{string, word};
pub use sound::are_sound;
pub use tables::{all_have_nul, fits, have_lawful_headers, keys_rise, table_lies};
