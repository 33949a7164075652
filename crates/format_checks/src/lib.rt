//! The checks of the formats of other languages than C: what is wrong with the forms of an entry that is flagged
//! `python-format`, for example (GNU gettext manual, "PO Files").
#![tactic(auto)]

mod entry;
mod faults;
mod languages;

pub use entry::Entry;
pub use faults::{add_faults, one_list};
pub use format_flags::{Flags, Language};

/// What is wrong with a form whose original is a format, or may be one.
#[derive(Clone, Copy, Debug, PartialEq, Eq)]
pub enum Difference {
    /// The form is no format.
    Invalid,
    /// Its arguments don't agree with the original's.
    Arguments,
    /// Unknown: the form, or its original, is a format that is not read here.
    Unread,
}

/// A fault of one form.
#[derive(Clone, Copy, Debug, PartialEq, Eq)]
pub struct Fault {
    /// The line of the entry's `msgstr`.
    pub line: u32,
    pub language: Language,
    /// The index of the form, counted from 0.
    pub form: usize,
    pub difference: Difference,
}
