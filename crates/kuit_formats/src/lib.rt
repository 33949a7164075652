//! Argument lists of the formats of KDE with KUIT's markup: `kde-kuit-format` (GNU gettext manual, "KDE Format
//! Strings").
#![tactic(auto)]

mod attributes;
mod bytes;
mod characters;
mod content;
mod format;
mod names;
mod references;
mod tokens;

pub use format::{one_signature, signature};
pub use numbered_arguments::{FormatFault, Numbered};
