//! Why a PO text in any charset is refused.
ghost use Rattle.std.specs.Prelude.{◌≡◌};
ghost use Rattle.po_checks.specs.Refusal.{out_of_memory};
ghost use Rattle.any_charset.specs.declared.fault.TextFault.TheVariants.{Load};

use catalogue::LoadFault;
use std::alloc::AllocError;
use thiserror::Error;

/// Why a PO text is refused.
#[derive(Clone, Copy, Debug, PartialEq, Eq, Error)]
pub enum TextFault {
    /// The text is refused as UTF-8, or it is in another charset and refused once it is recoded. The line is that of
    /// the text in both cases.
    #[error("{0}")]
    Load(LoadFault),
    /// The charset that the header names has no character for a byte in this line.
    #[error("line {0}: byte without a character")]
    NoCharacter(u32),
}

impl From<LoadFault> for TextFault {
    ghost from_gives = { λ fault result. result ≡ Load fault };

    fn from(fault: LoadFault) -> TextFault {
        TextFault::Load(fault)
    }
}

impl From<AllocError> for TextFault {
    ghost from_gives = { λ _ result. result ≡ Load out_of_memory };

    fn from(error: AllocError) -> TextFault {
        TextFault::Load(LoadFault::from(error))
    }
}
