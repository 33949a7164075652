//! Work on each item of a slice, in threads that are started as a tree.
#![tactic(auto)]

mod tree;
mod work;

pub use tree::work_all;
pub use work::Work;
