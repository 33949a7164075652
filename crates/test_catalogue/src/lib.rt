//! Tests of `catalogue` through its public functions: compiled PO texts, searches, and what `accepts` takes. PO texts
//! with the expected catalogues and look-ups are in tests/msgfmt/texts.txt, on which tests/msgfmt/texts.sh runs the
//! programs.
//!
//! The tests have a crate of their own, so that the mutations of `catalogue` don't wait for them.
#![tactic(auto)]

#[cfg(test)]
mod accepted;
#[cfg(test)]
mod callers;
#[cfg(test)]
mod search;
#[cfg(test)]
mod texts;
