//! Argument lists of formats of Objective-C: which arguments a text for `NSString`'s `stringWithFormat:` asks for (GNU
//! gettext manual, "Objective C Format Strings"; C standard, 7.21.6.1; POSIX, fprintf). Formats with a macro, with the
//! flag `I`, or with a size before `n` are not read.
#![tactic(auto)]

ghost use Rattle.std.specs.Prelude.{◌≡◌};
ghost use Rattle.objc_format.specs.declared.ObjcFault.TheVariants.{Memory};

use std::alloc::{AllocError, AllocFailed};
use thiserror::Error;

mod conversions;
mod directive;
mod format;
mod kinds;
mod list;

pub use c_signature::{ArgKind, Size};
pub use format::{one_outcome, signature};
pub use kinds::{Taken, one_kind, stand_in};
pub use numbered_arguments::{Kind, Numbered, Strictness, agrees};

/// Why a text has no list of arguments.
#[derive(Clone, Copy, Debug, PartialEq, Eq, Error)]
pub enum ObjcFault {
    /// The text isn't a format of Objective-C, or the arguments that it asks for form no list.
    #[error("invalid format")]
    Invalid,
    /// A directive that isn't read here comes before anything that is invalid; this says nothing about the text behind
    /// it.
    #[error("format that is not read here")]
    Unread,
    /// An allocation failed; this says nothing about the text.
    #[error("out of memory")]
    Memory,
}

impl From<AllocError> for ObjcFault {
    ghost from_gives = { λ _ e. e ≡ Memory };

    fn from(_e: AllocError) -> ObjcFault {
        ObjcFault::Memory
    }
}

impl<T: Drop> From<AllocFailed<T>> for ObjcFault {
    ghost from_gives = { λ _ e. e ≡ Memory };

    fn from(_e: AllocFailed<T>) -> ObjcFault {
        ObjcFault::Memory
    }
}
