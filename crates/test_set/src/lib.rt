//! Tests of `live_set` through its public API: names, sets of small catalogues, and lists of languages.
//!
//! They are a crate of their own because a crate with tests is proved twice, with and without them.
#![tactic(auto)]

#[cfg(test)]
mod languages;
#[cfg(test)]
mod names;
#[cfg(test)]
mod queries;
#[cfg(test)]
mod sets;
#[cfg(test)]
mod texts;
