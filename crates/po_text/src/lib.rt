//! Reads PO texts, the message catalogues of GNU gettext, into entries.
//!
//! [`read_po`] returns all entries of a text; [`open_text`] returns an [`EntryReader`], which reads them one at a time
//! into a reusable [`EntryBuffer`].
#![tactic(auto)]

mod buffer;
mod entry;
mod fault;
mod flags;
mod lexer;
mod open;
mod parser;
mod plain;
mod read;
mod reader;
mod scan;
mod stages;
mod strings;
mod units;
mod words;

pub use buffer::EntryBuffer;
pub use entry::PoEntry;
pub use fault::{PoFault, PoKind};
pub use open::{MAX_TEXT, open_text};
pub use read::{one_outcome, read_po};
pub use reader::EntryReader;
