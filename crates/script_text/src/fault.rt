//! The errors of a script.
ghost use Rattle.std.specs.Prelude.{◌≡◌};
ghost use Rattle.script_text.specs.declared.fault.LineFault.TheVariants.{Memory};

use std::alloc::AllocError;
use thiserror::Error;

/// Why a line, or a field of it, wasn't read.
#[derive(Clone, Copy, Debug, PartialEq, Eq)]
pub enum LineFault {
    /// It is malformed.
    Bad,
    /// Out of memory. This error can take the place of any other result.
    Memory,
}

impl From<AllocError> for LineFault {
    ghost from_gives = { λ _ fault. fault ≡ Memory };

    fn from(_: AllocError) -> LineFault {
        LineFault::Memory
    }
}

/// Which error stopped a script or a session.
#[derive(Clone, Copy, Debug, PartialEq, Eq, Error)]
pub enum ScriptKind {
    /// The script has more than 67,108,864 bytes.
    #[error("the script is too large")]
    TooLarge,
    /// The script isn't UTF-8.
    #[error("the script isn't UTF-8")]
    NotUtf8,
    /// A line is malformed, or a load counts more lines than are left.
    #[error("bad line")]
    BadLine,
    /// The reader failed, or the end of the script wasn't reached within the limit on reads.
    #[error("the script can't be read")]
    ReadFault,
    /// The writer failed.
    #[error("the output can't be written")]
    WriteFault,
    /// The store had no place for a reader.
    #[error("no place for a reader")]
    NoPlace,
    /// A reader found the store closed, or had seen more than was published.
    #[error("the store is closed")]
    Closed,
    /// A thread couldn't be started.
    #[error("no thread")]
    Join,
    /// Out of memory. This error can take the place of any other result.
    #[error("out of memory")]
    Memory,
}

/// Why a script wasn't run to its end: the kind, and the line of a `BadLine`, counted from 1. For other kinds the line
/// is 0.
#[derive(Clone, Copy, Debug, PartialEq, Eq, Error)]
#[error("{kind} (line {line})")]
pub struct ScriptFault {
    pub kind: ScriptKind,
    pub line: u32,
}

impl From<ScriptKind> for ScriptFault {
    ghost from_gives = { λ kind fault. fault ≡ record { kind = kind; line = 0 } };

    fn from(kind: ScriptKind) -> ScriptFault {
        ScriptFault { kind, line: 0 }
    }
}

impl From<AllocError> for ScriptFault {
    ghost use Rattle.script_text.specs.declared.fault.ScriptKind.TheVariants as kind;

    ghost from_gives = { λ _ fault. fault ≡ record { kind = kind.Memory; line = 0 } };

    fn from(_: AllocError) -> ScriptFault {
        ScriptFault::from(ScriptKind::Memory)
    }
}

impl From<AllocError> for ScriptKind {
    ghost use Rattle.script_text.specs.declared.fault.ScriptKind.TheVariants as kind;

    ghost from_gives = { λ _ fault. fault ≡ kind.Memory };

    fn from(_: AllocError) -> ScriptKind {
        ScriptKind::Memory
    }
}
