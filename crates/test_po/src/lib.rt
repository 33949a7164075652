//! Public-API tests of `po_text`, `po_header`, `c_signature` and `c_macros`: each call once, inputs of many sizes, and
//! what can't be a case of crates/test_answers.
//!
//! They are a crate of their own because a crate with tests is proved twice, with them and without.
#![tactic(auto)]

#[cfg(test)]
mod formats;
#[cfg(test)]
mod headers;
#[cfg(test)]
mod macros;
#[cfg(test)]
mod sizes;
#[cfg(test)]
mod texts;
