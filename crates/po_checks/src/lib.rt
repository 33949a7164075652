//! The checks of `msgfmt`, run while the entries of a PO text are read (GNU gettext manual, "msgfmt Invocation"): which
//! entries are kept, C formats, plural forms and newlines; and the kinds of refusal.
#![tactic(auto)]

mod fault;
mod findings;
mod formats;
mod header;
mod kept;
mod newlines;
mod options;
mod plurals;

pub use fault::{LoadFault, LoadKind};
pub use findings::Findings;
pub use header::{Header, header_of};
pub use kept::{is_header, is_kept, is_untranslated};
pub use options::Options;
pub use plurals::{FirstPlural, Plurals};
