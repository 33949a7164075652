//! Tests of `po_writing`, `dependent_po` and `dependent_files` through their public functions: a catalogue's text
//! beside what GNU msgunfmt writes of it, and texts with macros beside what GNU msgfmt makes of them.
//!
//! The tests have a crate of their own, since a crate with tests is proved twice, with them and without.
#![tactic(auto)]

#[cfg(test)]
mod dependent;
#[cfg(test)]
mod files;
#[cfg(test)]
mod texts;
