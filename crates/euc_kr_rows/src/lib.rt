//! The characters of two bytes in EUC-KR.
#![tactic(auto)]

mod grids;
mod rows;

pub use grids::euc_kr;
