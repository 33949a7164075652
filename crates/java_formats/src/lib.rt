//! Argument lists of the formats of Java's MessageFormat (GNU gettext manual, "Java Format Strings").
#![tactic(auto)]

mod decimals;
mod elements;
mod format;
mod kinds;
mod quotes;
mod reading;
mod steps;

pub use format::{one_signature, signature};
pub use numbered_arguments::{FormatFault, Kind, Numbered, Strictness, agrees};

/// What a text is.
#[derive(Clone, Copy, Debug, PartialEq, Eq)]
pub(crate) enum Sort {
    /// plain text and elements
    Pattern,
    /// the choices of an element, each a number and a pattern
    Choices,
}
