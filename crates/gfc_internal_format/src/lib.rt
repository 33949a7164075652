//! Argument lists of GNU Fortran's own formats: which arguments a text for its diagnostics asks for (GNU gettext
//! manual, "GFC internal Format Strings"; GCC's source: the comment on the directives in fortran/error.c).
#![tactic(auto)]

mod agreement;
mod calls;
mod counting;
mod directive;
mod format;
mod operands;

pub use agreement::agrees;
pub use format::{one_signature, signature};
pub use numbered_arguments::{FormatFault, Kind, Numbered, Size, Strictness};
pub use operands::{Operand, one_kind, stand_in};
