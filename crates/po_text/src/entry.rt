//! An entry that owns its strings.

/// An entry of a PO text, with strings of its own.
#[derive(Debug, Drop, PartialEq, Eq)]
pub struct PoEntry {
    /// The line of its first keyword, counted from 1.
    pub line: u32,
    /// Whether it is flagged `fuzzy`.
    pub fuzzy: bool,
    /// Whether it is flagged `c-format`.
    pub c_format: bool,
    /// Its `msgctxt`, if it has one; an empty one is kept.
    pub context: Option<String>,
    /// Its `msgid`.
    pub id: String,
    /// Its `msgid_plural`, if it has one.
    pub plural: Option<String>,
    /// Its `msgstr` forms: at least one, and exactly one if it has no `msgid_plural`.
    pub forms: Vec<String>,
}
