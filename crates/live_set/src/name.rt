//! Names of text domains and of locales.
ghost use Rattle.std.specs.Prelude.{◌≡◌, ◌↔◌, IfOk, IfErr, IsTrue};
ghost use Rattle.live_set.specs.Names.{IsName, is_name_byte};
ghost use Rattle.live_set.specs.declared.name.NameFault.TheVariants.{BadName, Memory};

use byte_text::{TextKey, front_of};
use std::alloc::{AllocError, Global};
use std::marker::Model;
use std::sync::ArcStr;
use thiserror::Error;

/// The most bytes that a name may have.
const NAME_LIMIT: usize = 64;

/// Why a text isn't taken as a name.
#[derive(Clone, Copy, Debug, PartialEq, Eq, Error)]
pub enum NameFault {
    /// The text is empty, has more than 64 bytes, or has a byte that no name may have.
    #[error("not a name")]
    BadName,
    /// Out of memory.
    #[error("out of memory")]
    Memory,
}

impl From<AllocError> for NameFault {
    ghost from_gives = { λ _ fault. fault ≡ Memory };

    fn from(_: AllocError) -> NameFault {
        NameFault::Memory
    }
}

/// A name of a text domain or of a locale: 1 to 64 bytes, each an ASCII letter, a digit or one of
/// `_ - . @ +`. Contracts see it as its bytes.
#[derive(Debug, Drop)]
pub struct Name {
    /// All copies of a name share its text, so that a set is copied without an allocation for each name.
    text: ArcStr,
    /// The first bytes of the text as a number, for fast comparison.
    front: u64,
}

impl Model for Name {
    ghost use Rattle.std.specs.Prelude.{ℕ, List};

    ghost Value = { List ℕ };

    ghost use Rattle.std.specs.Arc.{arc_str_bytes};
    ghost use Rattle.live_set.specs.Names.{IsName};
    ghost use Rattle.byte_text.specs.Front.{IsFrontOf};

    ghost view = { λ name. arc_str_bytes name.text };

    ghost invariant = { λ name. IsName (arc_str_bytes name.text) × IsFrontOf (arc_str_bytes name.text) name.front };
}

/// Whether names may have this byte.
fn is_name_byte(byte: u8) -> bool
    ensures { result ≡ is_name_byte byte }
{
    byte.is_ascii_alphanumeric() || matches!(byte, b'_' | b'-' | b'.' | b'@' | b'+')
}

/// Whether the text is a name. It doesn't allocate.
pub fn is_name(text: &str) -> bool
    ensures { IsTrue result ↔ IsName text.now }
{
    0 < text.len() && text.len() <= NAME_LIMIT && text.bytes().all(is_name_byte)
}

impl Name {
    /// Copies a text into a name. Returns `BadName` exactly if the text isn't a name, and `Memory` if memory runs out.
    pub fn new(alloc: Global, text: &str) -> Result<Name, NameFault>
        ensures name { IfOk result (λ name. name ≡ text.now) }
        ensures good { IfOk result (λ _. IsName text.now) }
        ensures bad { IfErr result (λ fault. (fault ≡ BadName) ↔ (¬ IsName text.now)) }
    {
        if !is_name(text) {
            return Err(NameFault::BadName);
        }
        Ok(Name {
            text: ArcStr::from_str(alloc, text)?,
            front: front_of(text),
        })
    }

    /// The text of the name.
    pub fn as_str(&self) -> &str
        ensures text { result.now ≡ self.now }

        // Every value of this type is a name.
        ensures name { IsName self.now }
    {
        self.text.as_str()
    }

    /// The text with its first bytes as a number, for comparisons.
    pub(crate) fn key(&self) -> TextKey<'_>
        ensures { result ≡ self.now }
    {
        TextKey::with_front(self.text.as_str(), self.front)
    }

    /// A copy of the name. Fails if memory runs out.
    pub fn try_clone(&self) -> Result<Name, AllocError>
        ensures { IfOk result (λ name. name ≡ self.now) }
    {
        Ok(Name {
            text: self.text.clone()?,
            front: self.front,
        })
    }
}
