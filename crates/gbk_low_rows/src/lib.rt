//! The characters of two bytes in GBK below D100.
#![tactic(auto)]

mod grids;
mod rows;

pub use grids::gbk_low;
