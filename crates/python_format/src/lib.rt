//! Argument lists of Python's `%` formats: which arguments a format asks for (GNU gettext manual, "Python Format
//! Strings"; Python's library reference, "printf-style String Formatting").
#![tactic(auto)]

mod directives;
mod format;
mod parts;

pub use format::{one_signature, signature};
pub use format_arguments::{Argument, FormatFault, Kind, Strictness, agrees};
