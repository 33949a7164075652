//! Characters of two bytes: a row for each first byte, and a column for each second one.
#![tactic(auto)]

mod grid;

pub use grid::Grid;
