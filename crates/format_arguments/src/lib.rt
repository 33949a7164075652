//! What the formats of many languages share: the arguments that a format asks for, when those of a translation agree
//! with those of its original, and texts that directives stand in.
#![tactic(auto)]

ghost use Rattle.std.specs.Prelude.{◌≡◌};
ghost use Rattle.format_arguments.specs.declared.FormatFault.TheVariants.{Memory};

use std::alloc::{AllocError, AllocFailed};
use thiserror::Error;

mod agreement;
mod bytes;
mod index;
mod kinds;
mod text;

pub use agreement::{agrees, is_consistent, lenient_kinds, strict_kinds};
pub use bytes::after_byte;
pub use kinds::same_kind;
pub use text::next_directive;

/// The kind of an argument, as GNU gettext tells them apart.
#[derive(Clone, Copy, Debug, PartialEq, Eq)]
pub enum Kind {
    /// any object
    Any,
    /// an object that only a directive `%` with a name takes
    Percent,
    /// a character
    Character,
    /// a string
    Text,
    /// an integer
    Integer,
    /// a number with a fraction
    Float,
}

/// An argument that a format asks for: the one of this name, or the next one.
#[derive(Clone, Copy)]
pub struct Argument<'a> {
    pub name: Option<&'a [u8]>,
    pub kind: Kind,
}

/// How the arguments of a translation must agree with those of its original.
#[derive(Clone, Copy, Debug, PartialEq, Eq)]
pub enum Strictness {
    /// The names and kinds are the same.
    Same,
    /// Names may be left out, and `Any` stands for every kind.
    Lenient,
}

/// Why a text has no list of arguments.
#[derive(Clone, Copy, Debug, PartialEq, Eq, Error)]
pub enum FormatFault {
    /// The text isn't a format of its language, or its arguments are inconsistent.
    #[error("invalid format")]
    Invalid,
    /// An allocation failed; this says nothing about the text.
    #[error("out of memory")]
    Memory,
}

impl From<AllocError> for FormatFault {
    ghost from_gives = { λ _ e. e ≡ Memory };

    fn from(_e: AllocError) -> FormatFault {
        FormatFault::Memory
    }
}

impl<T: Drop> From<AllocFailed<T>> for FormatFault {
    ghost from_gives = { λ _ e. e ≡ Memory };

    fn from(_e: AllocFailed<T>) -> FormatFault {
        FormatFault::Memory
    }
}
