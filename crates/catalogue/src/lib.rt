//! Message catalogues: what a PO text compiles to, the entries of a catalogue, and the look-ups of gettext.
//!
//! A catalogue is a finite map from keys to entries. A key is a msgid, alone or in a context. An entry also has
//! translated forms and, if the message has a plural, its msgid_plural.
#![tactic(auto)]

mod compiler;
mod law;

pub use catalogue_drafts::Stats;
pub use catalogue_map::{Catalogue, Found, Message, counted, first_form, untranslated};
pub use compiler::{Compiled, compile, compile_owned};
pub use entry_search::{AskedKey, NO_HINT, Steps};
pub use law::one_meaning;
pub use mo_image::{EntryRef, EntryStrings, Forms};
pub use po_checks::{LoadFault, LoadKind, Options};
pub use po_text::MAX_TEXT;
