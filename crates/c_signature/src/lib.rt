//! Argument lists of C formats: which arguments `printf` takes for a format, in what order and of what kinds, and
//! whether the arguments of a translation agree with those of its original.
#![tactic(auto)]

ghost use Rattle.std.specs.Prelude.{◌≡◌};
ghost use Rattle.c_signature.specs.declared.FormatFault.TheVariants.{Memory};

use std::alloc::{AllocError, AllocFailed};
use thiserror::Error;

mod agreement;
mod conversions;
mod directives;
mod format;
mod pairs;
mod parts;
mod requests;

pub use agreement::agrees;
pub use conversions::{Argument, argument_of};
pub use directives::{has_macros, is_allowed, split_name};
pub use format::{one_outcome, signature};
pub use pairs::have_same_arguments;
pub use parts::{
    Amount, Modifier, read_modifier, read_number, read_precision, read_width, split_flags,
};

/// The size of an integer, by the length modifier before its conversion (C standard, 7.21.6.1, 7).
#[derive(Clone, Copy, Debug, PartialEq, Eq)]
pub enum Size {
    /// `hh`: `char`
    Byte,
    /// `h`: `short`
    Short,
    /// no modifier: `int`
    Plain,
    /// `l`: `long`
    Long,
    /// `ll`, and `q`: `long long`
    LongLong,
    /// `j`: `intmax_t`
    Max,
    /// `z`: `size_t`
    SizeT,
    /// `t`: `ptrdiff_t`
    PtrDiff,
}

/// The kind of an argument (C standard, 7.21.6.1, 8).
#[derive(Clone, Copy, Debug, PartialEq, Eq)]
pub enum ArgKind {
    /// `d`, `i`, and `int` for a `*`
    Signed(Size),
    /// `o`, `u`, `x`, `X`
    Unsigned(Size),
    /// `a`, `e`, `f`, `g` and their capitals
    Double,
    /// `a`, `e`, `f`, `g` and their capitals, with `L`
    LongDouble,
    /// `c`
    Char,
    /// `lc`, `C`
    WideChar,
    /// `s`
    Text,
    /// `ls`, `S`
    WideText,
    /// `p`
    Pointer,
    /// `n`: a pointer to an integer that receives the number of characters written
    Count(Size),
}

/// How the arguments of a translation must agree with those of its original.
#[derive(Clone, Copy, Debug, PartialEq, Eq)]
pub enum Strictness {
    /// They are equal.
    Same,
    /// They are the first ones of the original, or all of them.
    Prefix,
}

/// Why a text has no list of arguments.
#[derive(Clone, Copy, Debug, PartialEq, Eq, Error)]
pub enum FormatFault {
    /// The text isn't a C format, or the arguments that it asks for form no list.
    #[error("invalid format")]
    Invalid,
    /// The text names a macro of `<inttypes.h>`, whose size differs from system to system.
    #[error("system-dependent format")]
    SystemDependent,
    /// An allocation failed; this says nothing about the text.
    #[error("out of memory")]
    Memory,
}

impl From<AllocError> for FormatFault {
    ghost from_gives = { λ _ e. e ≡ Memory };

    fn from(_e: AllocError) -> FormatFault {
        FormatFault::Memory
    }
}

impl<T: Drop> From<AllocFailed<T>> for FormatFault {
    ghost from_gives = { λ _ e. e ≡ Memory };

    fn from(_e: AllocFailed<T>) -> FormatFault {
        FormatFault::Memory
    }
}
