//! Argument lists of GCC's own formats: which arguments a text for GCC's diagnostics asks for (GNU gettext manual, "GCC
//! internal Format Strings"; GCC's sources: ABOUT-GCC-NLS, pretty-print.c, c/c-objc-common.c and cp/error.c).
#![tactic(auto)]

mod agreement;
mod collecting;
mod directive;
mod entities;
mod format;

pub use agreement::agrees;
pub use entities::{Entity, one_entity, stand_in};
pub use format::{one_signature, signature};
pub use numbered_arguments::{FormatFault, Kind, Numbered, Size, Strictness};
