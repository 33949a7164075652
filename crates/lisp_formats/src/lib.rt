//! Argument lists of formats of Scheme and of Lisp: which arguments a text for `format` asks for (GNU gettext manual,
//! "Scheme Format Strings" and "Lisp Format Strings"; GNU Guile, "Formatted Output"; Common Lisp HyperSpec,
//! section 22.3). Formats with jumps, groups, choices, loops or functions are not read.
#![tactic(auto)]

ghost use Rattle.std.specs.Prelude.{◌≡◌};
ghost use Rattle.lisp_formats.specs.declared.LispFault.TheVariants.{Memory};

use std::alloc::{AllocError, AllocFailed};
use thiserror::Error;

mod agreement;
mod conversions;
mod directives;
mod format;
mod parameters;

pub use agreement::{agrees, same_lists};
pub use format::{one_outcome, signature};
pub use format_arguments::Strictness;

/// A language of formats.
#[derive(Clone, Copy, Debug, PartialEq, Eq)]
pub enum Notation {
    /// Scheme's `format`, as GNU Guile has it: `scheme-format`
    Scheme,
    /// Common Lisp's `format`: `lisp-format`
    Lisp,
}

/// The kind of an argument, as GNU gettext tells them apart.
#[derive(Clone, Copy, Debug, PartialEq, Eq)]
pub enum Kind {
    /// any object
    Any,
    Character,
    /// a character, or nil
    OptionalCharacter,
    Integer,
    /// an integer, or nil
    OptionalInteger,
    Real,
    Complex,
    /// nil alone
    Nil,
}

/// Why a text has no list of arguments.
#[derive(Clone, Copy, Debug, PartialEq, Eq, Error)]
pub enum LispFault {
    /// The text isn't a format of its language.
    #[error("invalid format")]
    Invalid,
    /// A directive that isn't read here comes before anything that is invalid; this says nothing about the text behind
    /// it.
    #[error("format that is not read here")]
    Unread,
    /// An allocation failed; this says nothing about the text.
    #[error("out of memory")]
    Memory,
}

impl From<AllocError> for LispFault {
    ghost from_gives = { λ _ e. e ≡ Memory };

    fn from(_e: AllocError) -> LispFault {
        LispFault::Memory
    }
}

impl<T: Drop> From<AllocFailed<T>> for LispFault {
    ghost from_gives = { λ _ e. e ≡ Memory };

    fn from(_e: AllocFailed<T>) -> LispFault {
        LispFault::Memory
    }
}
