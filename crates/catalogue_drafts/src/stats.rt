//! Counts of entries.
ghost use Rattle.std.specs.Prelude.{◌≡◌, ◌<◌, ◌^◌, length};
ghost use Rattle.std.specs.List.{count_by};
ghost use Rattle.catalogue_drafts.specs.Drafts.{counts_as, outline};

use crate::draft::Draft;
use crate::drafts::counts_as;
use crate::texts::Standing;

/// Counts of the entries of a PO text other than its header, kept or not.
#[derive(Clone, Copy, Debug, PartialEq, Eq)]
pub struct Stats {
    pub translated: u32,
    /// Fuzzy entries that have a translation.
    pub fuzzy: u32,
    /// Entries whose first form is empty.
    pub untranslated: u32,
}

/// Counts the drafts by their standing.
pub fn stats_of(drafts: &[Draft<'_>]) -> Stats
    requires { length drafts.now < 2 ^ 32 }
    ensures translated { result.translated ≡ count_by (λ d. counts_as Standing.Translated (outline d)) drafts.now }
    ensures fuzzy { result.fuzzy ≡ count_by (λ d. counts_as Standing.Fuzzy (outline d)) drafts.now }
    ensures untranslated { result.untranslated
        ≡ count_by (λ d. counts_as Standing.Untranslated (outline d)) drafts.now }
{
    let mut stats = Stats {
        translated: 0,
        fuzzy: 0,
        untranslated: 0,
    };
    'drafts: for draft in drafts {
        stats.translated += u32::from(counts_as(draft, Standing::Translated));
        stats.fuzzy += u32::from(counts_as(draft, Standing::Fuzzy));
        stats.untranslated += u32::from(counts_as(draft, Standing::Untranslated));
    }
    stats
}
