//! Argument lists of formats whose directives name their arguments, all of one kind: `perl-brace-format` and
//! `sh-format`
//! (GNU gettext manual, "Perl Format Strings", "Shell Format Strings").
#![tactic(auto)]

mod agreement;
mod directives;
mod format;

pub use agreement::agrees;
pub use format::{one_signature, signature};
pub use format_arguments::{Argument, FormatFault, Kind, Strictness};

/// Whose directives a text has.
#[derive(Clone, Copy, Debug, PartialEq, Eq)]
pub enum Notation {
    /// `{name}`, as Perl's Locale::TextDomain has them
    PerlBrace,
    /// `$name` and `${name}`, as the shell has them
    Shell,
}
