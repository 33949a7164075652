//! Argument lists of Ruby's formats: which arguments a text for `sprintf` asks for (GNU gettext manual, "Ruby Format
//! Strings"; Ruby's documentation, Kernel#sprintf).
#![tactic(auto)]

mod arguments;
mod directives;
mod format;
mod parts;

pub use format::{one_signature, signature};
pub use format_arguments::{Argument, FormatFault, Kind, Strictness, agrees};
