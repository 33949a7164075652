//! Tests of `devices` and `msgfmt_tool` through their public API: streams that fail in the middle, lines
//! that come in parts, and whole runs of the compiler over such streams.
//!
//! They are a crate of their own because a crate with tests is proved twice, with and without them.
#![tactic(auto)]

#[cfg(test)]
mod commands;
#[cfg(test)]
mod fakes;
#[cfg(test)]
mod lines;
#[cfg(test)]
mod streams;
