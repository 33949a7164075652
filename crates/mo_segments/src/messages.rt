//! The strings of a message.

/// The two strings that an MO file has of a message, as bytes.
#[derive(Drop)]
pub struct Strings {
    pub original: Vec<u8>,
    pub translation: Vec<u8>,
}
