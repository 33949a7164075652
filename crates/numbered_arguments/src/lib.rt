//! Numbered arguments: what a format asks for by its place in the call, and when the arguments of a translation agree
//! with those of its original.
#![tactic(auto)]

mod agreement;
mod index;
mod kinds;
mod numbering;
mod numbers;

pub use agreement::{agrees, is_consistent, same_kinds};
pub use format_arguments::{FormatFault, Strictness};
pub use index::Index;
pub use kinds::same_kind;
pub use numbering::Numbering;
pub use numbers::{number_of, skip_digits, split_digits};

/// The size of a number, where a language tells sizes apart.
#[derive(Clone, Copy, Debug, PartialEq, Eq)]
pub enum Size {
    /// the usual one
    Plain,
    Short,
    Long,
    LongLong,
    /// that of the interpreter's own numbers
    Native,
}

/// The kind of an argument, as GNU gettext tells them apart.
#[derive(Clone, Copy, Debug, PartialEq, Eq)]
pub enum Kind {
    /// any object
    Any,
    /// a character
    Character,
    /// a string
    Text,
    /// an integer with a sign
    Integer(Size),
    /// an integer without a sign
    Unsigned(Size),
    /// a number with a fraction
    Float(Size),
    /// a list of numbers
    Vector,
    /// a pointer
    Pointer,
    /// a pointer to a number that is set
    Count(Size),
    /// an object, where that is a kind of its own and doesn't stand for every other
    Object,
    /// a number of whatever type
    Number,
    /// a date or a time
    Date,
}

/// An argument that a format asks for: the one at this place of the call, where the first has number 1.
#[derive(Clone, Copy, Debug, PartialEq, Eq)]
pub struct Numbered {
    pub number: u32,
    pub kind: Kind,
}

/// What a directive asks for: the argument of this number, or the next one, where it has none of its own.
#[derive(Clone, Copy)]
pub struct Request {
    pub number: Option<u32>,
    pub kind: Kind,
}
