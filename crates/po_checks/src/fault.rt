//! Why a PO text is refused.
ghost use Rattle.std.specs.Prelude.{◌≡◌};
ghost use Rattle.po_checks.specs.Refusal.{kind_of, out_of_memory};

use po_text::{PoFault, PoKind};
use std::alloc::{AllocError, AllocFailed};
use std::{error, fmt};
use thiserror::Error;

/// The kinds of refusal. If several apply, the first in this order is reported; among `TooLarge` to `BadIndex`, the PO
/// reader decides which.
#[derive(Clone, Copy, Debug, PartialEq, Eq)]
pub enum LoadKind {
    /// The text has more than 67,108,864 bytes.
    TooLarge,
    /// The text isn't UTF-8.
    NotUtf8,
    /// A string holds a backslash that begins no escape, or an octal value above 255.
    BadEscape,
    /// A line or the text ends inside a string.
    OpenString,
    /// A word is neither a keyword nor a number, or a byte begins no token.
    BadWord,
    /// A string holds NUL or isn't UTF-8, or a context or msgid holds byte 4.
    BadText,
    /// A token isn't allowed at its place.
    BadOrder,
    /// The index of a form isn't the next one.
    BadIndex,
    /// An entry has the key of an earlier one.
    Duplicate,
    /// The header names a charset that isn't accepted.
    Charset,
    /// A c-format text has a directive whose width depends on the system.
    SystemDependent,
    /// There is a plural entry, and the header gives no rule.
    NoRule,
    /// There is a plural entry, and the header's rule can't be read.
    BadRule,
    /// A plural entry has another number of forms than the rule says.
    FormCount,
    /// The rule has no form for this number.
    PluralRange(u64),
    /// The arguments of a c-format text and of its translation differ.
    FormatMismatch,
    /// Some texts of an entry begin or end with a newline, and others don't.
    NewlineMismatch,
    /// An allocation failed. This may be reported instead of any other result.
    Memory,
}

/// A refusal: its kind and its line, or line 0 if it has none.
#[derive(Clone, Copy, Debug, PartialEq, Eq, Error)]
#[error("line {line}: {kind}")]
pub struct LoadFault {
    pub kind: LoadKind,
    pub line: u32,
}

impl LoadKind {
    /// The text of a kind, without the number of `PluralRange`.
    fn text(self) -> &'static str {
        match self {
            LoadKind::TooLarge => "file too large",
            LoadKind::NotUtf8 => "not UTF-8",
            LoadKind::BadEscape => "bad escape",
            LoadKind::OpenString => "string not closed",
            LoadKind::BadWord => "unknown word",
            LoadKind::BadText => "bad text",
            LoadKind::BadOrder => "out of order",
            LoadKind::BadIndex => "wrong plural index",
            LoadKind::Duplicate => "duplicate message",
            LoadKind::Charset => "unsupported charset",
            LoadKind::SystemDependent => "system-dependent format",
            LoadKind::NoRule => "plural message without a rule",
            LoadKind::BadRule => "unreadable plural rule",
            LoadKind::FormCount => "wrong number of plural forms",
            LoadKind::PluralRange(_) => "plural rule fails at",
            LoadKind::FormatMismatch => "format arguments differ",
            LoadKind::NewlineMismatch => "newlines differ",
            LoadKind::Memory => "out of memory",
        }
    }
}

impl fmt::Display for LoadKind {
    fn fmt<W: fmt::Write>(&self, f: &mut fmt::Formatter<W>) -> fmt::Result {
        f.write_str(self.text())?;
        match self {
            LoadKind::PluralRange(n) => write!(f, " {n}"),
            _ => Ok(()),
        }
    }
}

impl error::Error for LoadKind {}

impl From<AllocError> for LoadFault {
    ghost from_gives = { λ _ f. f ≡ out_of_memory };

    fn from(_: AllocError) -> LoadFault {
        LoadFault {
            kind: LoadKind::Memory,
            line: 0,
        }
    }
}

impl<T: Drop> From<AllocFailed<T>> for LoadFault {
    ghost from_gives = { λ _ f. f ≡ out_of_memory };

    fn from(_: AllocFailed<T>) -> LoadFault {
        LoadFault {
            kind: LoadKind::Memory,
            line: 0,
        }
    }
}

impl From<PoKind> for LoadKind {
    ghost from_gives = { λ kind result. result ≡ kind_of kind };

    fn from(kind: PoKind) -> LoadKind {
        match kind {
            PoKind::TooLarge => LoadKind::TooLarge,
            PoKind::NotUtf8 => LoadKind::NotUtf8,
            PoKind::BadEscape => LoadKind::BadEscape,
            PoKind::OpenString => LoadKind::OpenString,
            PoKind::BadWord => LoadKind::BadWord,
            PoKind::BadText => LoadKind::BadText,
            PoKind::BadOrder => LoadKind::BadOrder,
            PoKind::BadIndex => LoadKind::BadIndex,
            PoKind::Memory => LoadKind::Memory,
        }
    }
}

impl From<PoFault> for LoadFault {
    ghost from_gives = { λ fault result. result ≡ record { kind = kind_of fault.kind; line = fault.line } };

    fn from(fault: PoFault) -> LoadFault {
        LoadFault {
            kind: LoadKind::from(fault.kind),
            line: fault.line,
        }
    }
}
