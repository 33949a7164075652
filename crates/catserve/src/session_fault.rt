//! Why a session ends early.
ghost use Rattle.std.specs.Prelude.{◌≡◌};

use script_text::ScriptKind;
use std::alloc::AllocError;
use thiserror::Error;

/// Why a session ended before its input did: the kind, and the line of a `BadLine`, `NotUtf8` or `TooLarge`, counted
/// from 1 through the whole session. For other kinds the line is 0.
#[derive(Clone, Copy, Debug, PartialEq, Eq, Error)]
#[error("{kind} (line {line})")]
pub struct SessionFault {
    pub kind: ScriptKind,
    pub line: u64,
}

impl From<ScriptKind> for SessionFault {
    ghost from_gives = { λ kind fault. fault ≡ record { kind = kind; line = 0 } };

    fn from(kind: ScriptKind) -> SessionFault {
        SessionFault { kind, line: 0 }
    }
}

impl From<AllocError> for SessionFault {
    ghost use Rattle.script_text.specs.declared.fault.ScriptKind.TheVariants as kind;

    ghost from_gives = { λ _ fault. fault ≡ record { kind = kind.Memory; line = 0 } };

    fn from(_: AllocError) -> SessionFault {
        SessionFault::from(ScriptKind::Memory)
    }
}
