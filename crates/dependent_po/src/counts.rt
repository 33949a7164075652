//! The statistics of a text.
ghost use Rattle.std.specs.Prelude.{◌≡◌, ◌<◌, ◌^◌, length};
ghost use Rattle.std.specs.List.{count_by};
ghost use Rattle.dependent_po.specs.Counts as spec;

use catalogue::Stats;
use po_checks::{is_header, is_untranslated};
use po_text::EntryBuffer;

/// How an entry counts in the statistics.
#[derive(Clone, Copy, PartialEq, Eq)]
pub(crate) enum Standing {
    /// The header, which isn't counted.
    Header,
    Untranslated,
    Fuzzy,
    Translated,
}

/// How an entry counts in the statistics.
pub(crate) fn standing_of(entry: &EntryBuffer) -> Standing
    ensures { result ≡ spec.standing_of entry.now }
{
    if is_header(entry) {
        Standing::Header
    } else if is_untranslated(entry) {
        Standing::Untranslated
    } else if entry.is_fuzzy() {
        Standing::Fuzzy
    } else {
        Standing::Translated
    }
}

/// Counts the entries of this standing.
fn count(standings: &[Standing], standing: Standing) -> usize
    ensures { result ≡ count_by (spec.same_standing standing) standings.now }
{
    standings.iter().filter(|other| **other == standing).count()
}

/// The statistics of entries that count so.
pub(crate) fn stats_of(standings: &[Standing]) -> Stats
    requires { length standings.now < 2 ^ 32 }
    ensures { result ≡ spec.stats_by standings.now }
{
    Stats {
        translated: count(standings, Standing::Translated) as u32,
        fuzzy: count(standings, Standing::Fuzzy) as u32,
        untranslated: count(standings, Standing::Untranslated) as u32,
    }
}
