//! The entries of a message catalogue and their one MO file (GNU gettext manual, "MO Files"): keys, originals and
//! translations, the layout of the file, its writer, and an image of the file that lends its entries.
#![tactic(auto)]

mod entry;
mod extent;
mod image;
mod joins;
mod layout;
mod messages;
mod writer;

pub use entry::{EntryRef, Forms, key_of, split_context, split_form};
pub use extent::EntryExtents;
pub use image::Image;
pub use joins::{joined_key, push_form, push_key};
pub use layout::{
    COUNT_AT, HASH_SIZE_AT, HASH_TABLE_AT, HEADER_LEN, MAGIC, MAX_LEN, ORIGINALS_AT, REVISION_AT,
    ROW_LEN, TRANSLATIONS_AT,
};
pub use messages::{EntryStrings, OwnedStrings};
pub use writer::EntryList;
