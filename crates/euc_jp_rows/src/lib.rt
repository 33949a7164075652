//! The characters of two bytes in EUC-JP, and of those behind the byte 8F.
#![tactic(auto)]

mod grids;
mod rows;

pub use grids::{euc_jp, euc_jp_8f};
