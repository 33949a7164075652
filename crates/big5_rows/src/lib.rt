//! The characters of two bytes in BIG5.
#![tactic(auto)]

mod grids;
mod rows;

pub use grids::big5;
