//! The characters of two bytes in GBK from D100 on.
#![tactic(auto)]

mod grids;
mod rows;

pub use grids::gbk_high;
