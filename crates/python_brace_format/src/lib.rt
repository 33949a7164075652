//! Argument lists of Python's brace formats: which arguments a text for `str.format` asks for (GNU gettext manual,
//! "Python Format Strings"; PEP 3101, "Format Strings" and "Standard Format Specifiers").
#![tactic(auto)]

mod agreement;
mod fields;
mod format;
mod specifiers;

pub use agreement::agrees;
pub use format::{one_signature, signature};
pub use format_arguments::{Argument, FormatFault, Kind, Strictness};
