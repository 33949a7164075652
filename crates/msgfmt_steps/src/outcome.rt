//! How a run ended.
ghost use Rattle.std.specs.Prelude.{◌≡◌};
ghost use Rattle.msgfmt_steps.specs.Causes.{cause_of_input, cause_of_load};
ghost use Rattle.msgfmt_steps.specs.declared.outcome.Cause.TheVariants.{CannotWrite, Memory};

use devices::{InputFault, WriteFault};
use po_checks::{LoadFault, LoadKind};
use std::alloc::AllocError;

/// Why a run failed.
#[derive(Clone, Copy, Debug, PartialEq, Eq)]
pub enum Cause {
    /// The arguments aren't those of `msgfmt`.
    Words,
    /// No INPUT is named.
    NoInput,
    /// INPUT can't be read.
    CannotRead,
    /// The text is refused.
    Refused(LoadFault),
    /// FILE or the help text can't be written.
    CannotWrite,
    /// A warning or the statistics can't be written.
    ErrorOutput,
    /// Memory ran out, which may come in place of any other answer.
    Memory,
}

/// How a run ended: with the exit status 0, or with 1.
#[derive(Clone, Copy, Debug, PartialEq, Eq)]
pub enum Status {
    Done,
    Failed(Cause),
}

impl From<AllocError> for Cause {
    ghost from_gives = { λ _ cause. cause ≡ Memory };

    fn from(_: AllocError) -> Cause {
        Cause::Memory
    }
}

impl From<WriteFault> for Cause {
    ghost from_gives = { λ _ cause. cause ≡ CannotWrite };

    fn from(_: WriteFault) -> Cause {
        Cause::CannotWrite
    }
}

impl From<InputFault> for Cause {
    ghost from_gives = { λ fault cause. cause ≡ cause_of_input fault };

    fn from(fault: InputFault) -> Cause {
        match fault {
            InputFault::Unreadable => Cause::CannotRead,
            InputFault::Memory => Cause::Memory,
        }
    }
}

impl From<LoadFault> for Cause {
    ghost from_gives = { λ fault cause. cause ≡ cause_of_load fault };

    fn from(fault: LoadFault) -> Cause {
        match fault.kind {
            LoadKind::Memory => Cause::Memory,
            _ => Cause::Refused(fault),
        }
    }
}
