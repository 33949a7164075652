//! The entries of a PO text on their way into a catalogue: read, sorted by their keys, checked for duplicates, and
//! filtered. Each is a small draft, whose texts are in an arena.
#![tactic(auto)]

mod collected;
mod draft;
mod drafts;
mod pool;
mod stats;
mod texts;

pub use collected::{Collected, collect};
pub use draft::Draft;
pub use drafts::{KeptDrafts, counts_as, first_repeat, header_line, header_text, keep, sort};
pub use stats::{Stats, stats_of};
pub use texts::{Share, Standing, Texts};
