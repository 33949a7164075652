//! Argument lists of PHP's formats: which arguments a text for `sprintf` asks for (GNU gettext manual, "PHP Format
//! Strings"; PHP's function reference, "sprintf").
#![tactic(auto)]

mod format;
mod parts;

pub use format::{one_signature, signature};
pub use numbered_arguments::{FormatFault, Kind, Numbered, Size, Strictness, agrees};
