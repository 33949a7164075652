//! Tests of `life`, and of the store that its module `snapshots` runs, through their public functions: what no clause
//! says.
//!
//! They are a crate of their own because a crate with tests is proved twice, with and without them.
#![tactic(auto)]

#[cfg(test)]
mod held;
#[cfg(test)]
mod made;
#[cfg(test)]
mod random;
#[cfg(test)]
mod scripts;
#[cfg(test)]
mod store;
#[cfg(test)]
mod worked;
