//! Argument lists of librep's formats: which arguments a text for `format` asks for (GNU gettext manual, "librep Format
//! Strings"; librep's manual: "Formatted Output").
#![tactic(auto)]

mod counting;
mod format;
mod parts;

pub use format::{one_signature, signature};
pub use numbered_arguments::{FormatFault, Kind, Numbered, Size, Strictness, agrees};
