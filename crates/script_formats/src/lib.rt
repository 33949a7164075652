//! Argument lists of formats whose directives are those of C's `printf` with changes of their own: Perl's,
//! JavaScript's, Tcl's, awk's, Lua's, Object Pascal's and Boost's (GNU gettext manual, "Perl Format Strings" and so
//! on).
#![tactic(auto)]

mod adding;
mod agreement;
mod awk;
mod boost;
mod directive;
mod format;
mod javascript;
mod kinds;
mod lua;
mod parts;
mod pascal;
mod perl;
mod tcl;

pub use agreement::agrees;
pub use format::{one_signature, signature};
pub use numbered_arguments::{FormatFault, Kind, Numbered, Size, Strictness};
pub use parts::{read_index, skip_precision};

/// A language of formats.
#[derive(Clone, Copy, Debug, PartialEq, Eq)]
pub enum Notation {
    /// Perl's `sprintf`: `perl-format`
    Perl,
    /// JavaScript's `String.prototype.format` in GNOME: `javascript-format`
    JavaScript,
    /// Tcl's `format`: `tcl-format`
    Tcl,
    /// awk's `printf`: `awk-format`
    Awk,
    /// Lua's `string.format`: `lua-format`
    Lua,
    /// Object Pascal's `Format`: `object-pascal-format`
    ObjectPascal,
    /// Boost's `format`: `boost-format`
    Boost,
}
