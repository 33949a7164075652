//! Argument lists of formats whose directives name their arguments by number alone: `kde-format`, `qt-format`,
//! `qt-plural-format`, `ycp-format` and `smalltalk-format` (GNU gettext manual, "Qt Format Strings", "KDE Format
//! Strings", "YCP Format Strings", "Smalltalk Format Strings").
#![tactic(auto)]

mod agreement;
mod directives;
mod format;
mod gaps;

pub use agreement::agrees;
pub use format::{one_signature, signature};
pub use numbered_arguments::{FormatFault, Kind, Numbered, Size, Strictness};

/// Whose directives a text has.
#[derive(Clone, Copy, Debug, PartialEq, Eq)]
pub enum Notation {
    /// `%1` and `%L1`, of one or two digits, as Qt's `QString::arg` has them
    Qt,
    /// `%n` and `%Ln`, as Qt's `tr` has them
    QtPlural,
    /// `%1`, of any number of digits, as KDE's `i18n` has them
    Kde,
    /// `%1` to `%9`, as YCP's `sformat` has them
    Ycp,
    /// `%1` to `%9`, as Smalltalk's `bindWith:` has them
    Smalltalk,
}
