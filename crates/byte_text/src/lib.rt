//! Texts by their bytes: splitting a text at a byte, such as the NUL between the forms of a message or the end of a
//! line, and keys that carry the number that their first eight bytes spell, which tells most texts apart at once.
#![tactic(auto)]

mod cut;
mod key;
mod offset;

pub use cut::{lacks_byte, offset_of, split_at_byte, split_at_offset, split_byte};
pub use key::{TextKey, front_of, next_front_of};
pub use offset::first_set;
