//! A catalogue as a map: its entries, and the look-ups of gettext.
//!
//! A catalogue is a finite map from keys to entries. A key is a msgid, alone or in a context. An entry also has
//! translated forms and, if the message has a plural, its msgid_plural.
#![tactic(auto)]

mod accepts;
mod lookup;
mod map;
mod sizes;
mod sorted;

pub use entry_search::{AskedKey, NO_HINT, Steps};
pub use lookup::{Found, counted, first_form, untranslated};
pub use map::Catalogue;
pub use mo_image::{EntryRef, EntryStrings, Forms};
pub use sorted::Message;
