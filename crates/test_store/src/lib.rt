//! Tests of the live store and its desks through their public API.
//!
//! They are a crate of their own because a crate with tests is proved twice, with and without them.
#![tactic(auto)]

#[cfg(test)]
mod page;
#[cfg(test)]
mod pending;
#[cfg(test)]
mod serving;
#[cfg(test)]
mod sizes;
#[cfg(test)]
mod tests;
