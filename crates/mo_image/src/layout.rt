//! The layout of an MO file: a header of seven words, and two tables of rows, each with the length and the offset of a
//! string (GNU gettext manual, "MO Files"). Offsets and lengths are in bytes.

/// The magic number, which is the first word of a file.
pub const MAGIC: u32 = 0x9504_12de;

/// The offset of the revision in the header.
pub const REVISION_AT: usize = 4;

/// The offset of the number of entries.
pub const COUNT_AT: usize = 8;

/// The offset of the word that says where the table of originals begins.
pub const ORIGINALS_AT: usize = 12;

/// The offset of the word that says where the table of translations begins.
pub const TRANSLATIONS_AT: usize = 16;

/// The offset of the size of the hash table, in slots.
pub const HASH_SIZE_AT: usize = 20;

/// The offset of the word that says where the hash table begins.
pub const HASH_TABLE_AT: usize = 24;

/// The length of the header.
pub const HEADER_LEN: usize = 28;

/// The length of a row of a table: a string's length and its offset.
pub const ROW_LEN: usize = 8;

/// The largest file that is accepted or written. The limit is our choice.
pub const MAX_LEN: usize = 268_435_456;
