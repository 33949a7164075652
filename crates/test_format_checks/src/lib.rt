//! Public-API tests of `format_checks` and `po_formats`.
//!
//! They are a crate of their own because a crate with tests is proved twice, with them and without.
#![tactic(auto)]

#[cfg(test)]
mod checks;
#[cfg(test)]
mod texts;
