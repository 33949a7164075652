//! C formats whose directives may name a macro of `<inttypes.h>`, such as `%<PRIu64>`: which arguments they take,
//! whether those of a translation agree with those of its original, and at which of its parts such a text differs from
//! system to system.
#![tactic(auto)]

ghost use Rattle.std.specs.Prelude.{◌≡◌};
ghost use Rattle.c_macros.specs.declared.MacroFault.TheVariants.{Memory};

use std::alloc::{AllocError, AllocFailed};
use thiserror::Error;

mod agreement;
mod directives;
mod format;
mod macros;
mod requests;
mod splitting;

pub use agreement::agrees;
pub use c_signature::{ArgKind, Size, Strictness};
pub use format::{one_outcome, signature};
pub use splitting::splits;

/// The size of an integer whose directives have a macro (C standard, 7.20.1 and 7.8.1).
#[derive(Clone, Copy, Debug, PartialEq, Eq)]
pub enum MacroSize {
    /// `8`: `int8_t`
    Exact8,
    /// `16`: `int16_t`
    Exact16,
    /// `32`: `int32_t`
    Exact32,
    /// `64`: `int64_t`
    Exact64,
    /// `LEAST8`: `int_least8_t`
    Least8,
    /// `LEAST16`: `int_least16_t`
    Least16,
    /// `LEAST32`: `int_least32_t`
    Least32,
    /// `LEAST64`: `int_least64_t`
    Least64,
    /// `FAST8`: `int_fast8_t`
    Fast8,
    /// `FAST16`: `int_fast16_t`
    Fast16,
    /// `FAST32`: `int_fast32_t`
    Fast32,
    /// `FAST64`: `int_fast64_t`
    Fast64,
    /// `PTR`: `intptr_t`
    Pointer,
}

/// An integer that a macro stands for.
#[derive(Clone, Copy, Debug, PartialEq, Eq)]
pub enum MacroKind {
    /// `d`, `i`
    Signed(MacroSize),
    /// `o`, `u`, `x`, `X`
    Unsigned(MacroSize),
}

/// The kind of an argument.
#[derive(Clone, Copy, Debug, PartialEq, Eq)]
pub enum Kind {
    /// One that a directive without a macro takes, or a macro of the name `MAX`, which is `j`.
    Plain(ArgKind),
    /// One that only a macro takes.
    Macro(MacroKind),
}

/// A part of a text that differs from system to system: a macro with its `<` and `>`, or a flag `I`.
#[derive(Clone, Copy, Debug, PartialEq, Eq)]
pub struct Split {
    /// The offset of its first byte.
    pub start: usize,
    /// 1: a flag `I`; else the length of a macro with its `<` and `>`.
    pub len: usize,
}

/// Which text of a message it is.
#[derive(Clone, Copy, Debug, PartialEq, Eq)]
pub enum Side {
    /// A msgid, in which no directive may have the flag `I`.
    Original,
    /// A msgstr.
    Translation,
}

/// Why a text has no list of arguments.
#[derive(Clone, Copy, Debug, PartialEq, Eq, Error)]
pub enum MacroFault {
    /// The text isn't a C format, even with macros, or the arguments that it asks for form no list.
    #[error("invalid format")]
    Invalid,
    /// An allocation failed; this says nothing about the text.
    #[error("out of memory")]
    Memory,
}

impl From<AllocError> for MacroFault {
    ghost from_gives = { λ _ e. e ≡ Memory };

    fn from(_e: AllocError) -> MacroFault {
        MacroFault::Memory
    }
}

impl<T: Drop> From<AllocFailed<T>> for MacroFault {
    ghost from_gives = { λ _ e. e ≡ Memory };

    fn from(_e: AllocFailed<T>) -> MacroFault {
        MacroFault::Memory
    }
}
