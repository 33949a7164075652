//! The texts of the error output.

use crate::outcome::Cause;
use catalogue_drafts::Stats;
use po_checks::LoadFault;
use std::fmt;
use std::fmt::{Display, Formatter};

/// The line that says why a run failed, with the names of INPUT and FILE. None for a failing error output.
#[derive(Drop)]
pub(crate) struct Failure<'a> {
    pub(crate) cause: Cause,
    pub(crate) input: &'a str,
    pub(crate) output: &'a str,
}

impl Display for Failure<'_> {
    fn fmt<W: fmt::Write>(&self, f: &mut Formatter<W>) -> fmt::Result {
        let input = self.input;
        let output = self.output;
        match self.cause {
            Cause::Words => f.write_str("msgfmt: bad command line"),
            Cause::NoInput => f.write_str("msgfmt: no input file given"),
            Cause::CannotRead => write!(f, "msgfmt: cannot read {input}"),
            Cause::Refused(LoadFault { kind, line }) => write!(f, "{input}:{line}: {kind}"),
            Cause::CannotWrite => write!(f, "msgfmt: cannot write {output}"),
            Cause::ErrorOutput => Ok(()),
            Cause::Memory => f.write_str("msgfmt: out of memory"),
        }
    }
}

/// The line of the statistics.
#[derive(Clone, Copy)]
pub(crate) struct StatisticsText(pub(crate) Stats);

impl Display for StatisticsText {
    fn fmt<W: fmt::Write>(&self, f: &mut Formatter<W>) -> fmt::Result {
        let Stats {
            translated,
            fuzzy,
            untranslated,
        } = self.0;
        write!(
            f,
            "{translated} translated {}",
            noun(translated, "message", "messages")
        )?;
        if fuzzy > 0 {
            write!(
                f,
                ", {fuzzy} fuzzy {}",
                noun(fuzzy, "translation", "translations")
            )?;
        }
        if untranslated > 0 {
            write!(
                f,
                ", {untranslated} untranslated {}",
                noun(untranslated, "message", "messages")
            )?;
        }
        f.write_str(".")
    }
}

/// The noun for `count` messages, in the singular or the plural.
fn noun<'a>(count: u32, one: &'a str, more: &'a str) -> &'a str {
    if count == 1 { one } else { more }
}
