//! The characters of two bytes in GB2312.
#![tactic(auto)]

mod grids;
mod rows;

pub use grids::gb2312;
