//! Argument lists of the formats of java.util.Formatter, which `String.format` and `printf` of Java take (GNU gettext
//! manual, "Java Format Strings"; java.util.Formatter, "Format String Syntax").
#![tactic(auto)]

mod collecting;
mod conversions;
mod directive;
mod format;

pub use format::{one_signature, signature};
pub use numbered_arguments::{FormatFault, Kind, Numbered, Size, Strictness, agrees};
