//! Charsets of one, two and three bytes for a character, decoded to UTF-8.
#![tactic(auto)]

mod kinds;
mod names;
mod naming;
mod pairs;
mod reading;
mod tables;
#[cfg(test)]
mod tests;

pub use kinds::Charset;
pub use naming::charset_of;
pub use reading::{DecodeFault, decode, front};
