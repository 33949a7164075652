//! Argument lists of .NET's composite formats, as C# has them (GNU gettext manual, "C# Format Strings"; Microsoft,
//! "Composite formatting").
#![tactic(auto)]

mod agreement;
mod format;
mod items;

pub use agreement::{agrees, each_is_passed};
pub use format::{one_signature, signature};
pub use numbered_arguments::{FormatFault, Kind, Numbered, Strictness};
