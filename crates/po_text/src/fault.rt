//! Why a text is refused.
ghost use Rattle.std.specs.Prelude.{◌≡◌};
ghost use Rattle.po_text.specs.Faults.{fault_on, out_of_memory};
ghost use Rattle.po_text.specs.declared.fault.PoKind.TheVariants.{Memory};

use std::alloc::{AllocError, AllocFailed};
use std::fmt;
use thiserror::Error;

/// What is wrong with a text.
#[derive(Clone, Copy, Debug, PartialEq, Eq)]
pub enum PoKind {
    /// The text has more than 67,108,864 bytes.
    TooLarge,
    /// The text isn't UTF-8.
    NotUtf8,
    /// A backslash in a string begins no escape, or an octal escape is above 255.
    BadEscape,
    /// A line or the text ends inside a string.
    OpenString,
    /// A word is neither a keyword nor a number, or a byte can't begin any token.
    BadWord,
    /// A string holds NUL or isn't UTF-8, or a context or msgid holds byte 4.
    BadText,
    /// A token isn't allowed where it is, or the text ends in the middle of an entry.
    BadOrder,
    /// The index of a plural form isn't the next one.
    BadIndex,
    /// An allocation failed; this says nothing about the text.
    Memory,
}

impl From<AllocError> for PoKind {
    ghost from_gives = { λ _ e. e ≡ Memory };

    fn from(_error: AllocError) -> PoKind {
        PoKind::Memory
    }
}

impl<T: Drop> From<AllocFailed<T>> for PoKind {
    ghost from_gives = { λ _ e. e ≡ Memory };

    fn from(_error: AllocFailed<T>) -> PoKind {
        PoKind::Memory
    }
}

impl PoKind {
    fn text(self) -> &'static str {
        match self {
            PoKind::TooLarge => "file too large",
            PoKind::NotUtf8 => "not UTF-8",
            PoKind::BadEscape => "bad escape",
            PoKind::OpenString => "string not closed",
            PoKind::BadWord => "unknown word",
            PoKind::BadText => "bad text",
            PoKind::BadOrder => "out of order",
            PoKind::BadIndex => "wrong plural index",
            PoKind::Memory => "out of memory",
        }
    }
}

impl fmt::Display for PoKind {
    fn fmt<W: fmt::Write>(&self, f: &mut fmt::Formatter<W>) -> fmt::Result {
        f.write_str(self.text())
    }
}

impl std::error::Error for PoKind {}

/// What is wrong with a text, and on which line, counted from 1. The line is 0 if the text is too large or memory runs
/// out.
#[derive(Clone, Copy, Debug, PartialEq, Eq, Error)]
#[error("line {line}: {kind}")]
pub struct PoFault {
    /// What is wrong.
    pub kind: PoKind,
    /// The line of the fault.
    pub line: u32,
}

impl PoFault {
    /// A fault on this line; `Memory` is always on line 0.
    pub(crate) fn new(kind: PoKind, line: u32) -> PoFault
        ensures { result ≡ fault_on kind line }
    {
        match kind {
            PoKind::Memory => PoFault { kind, line: 0 },
            _ => PoFault { kind, line },
        }
    }
}

impl From<AllocError> for PoFault {
    ghost from_gives = { λ _ e. e ≡ out_of_memory };

    fn from(_error: AllocError) -> PoFault {
        PoFault {
            kind: PoKind::Memory,
            line: 0,
        }
    }
}

impl<T: Drop> From<AllocFailed<T>> for PoFault {
    ghost from_gives = { λ _ e. e ≡ out_of_memory };

    fn from(_error: AllocFailed<T>) -> PoFault {
        PoFault {
            kind: PoKind::Memory,
            line: 0,
        }
    }
}
