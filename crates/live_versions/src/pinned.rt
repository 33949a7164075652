//! Entries of readers, and the look-ups in one.
ghost use Rattle.std.specs.Prelude.{◌≡◌, [], ◌∷◌, IfOk};
ghost use Rattle.left_right.specs.Sides.{view};
ghost use Rattle.live_set.specs.Asks.{AreAnswers, IsAnswer, maps_named, query_of};
ghost use Rattle.live_set.specs.Asks.{Plain, Context, Number, ContextNumber};
ghost use Rattle.live_set.specs.Loads.{map_of};
ghost use Rattle.live_set.specs.Sets.{fold};
ghost use Rattle.live_loads.specs.Batches.{joined_loads, version_of};
ghost use Rattle.live_versions.specs.Entering.{visit_of};

use crate::Version;
use crate::reader::{Lookups, StoreReader};
use crate::rule::{Shown, Versions, View};
use crate::seen::Seen;
use left_right::reader::Reading;
use live_set::{CatalogueSet, Languages, Query};
use std::alloc::{AllocError, Global};
use std::marker::Model;

pub(crate) type StoreReading = Reading<Shown, View, Versions>;

/// The copy that a reader has entered. Contracts see it as the batches that were published when it entered.
pub struct Visit {
    reading: StoreReading,
    seen: Seen,
}

impl Model for Visit {
    ghost use Rattle.std.specs.Prelude.{◌≡◌, [], ◌∷◌};
    ghost use Rattle.left_right.specs.Sides.{view as known};
    ghost use Rattle.live_set.specs.Sets.{fold};
    ghost use Rattle.live_loads.specs.Batches.{joined_loads};
    ghost use Rattle.live_loads.specs.Seen.{SeenValue};

    ghost Value = { SeenValue };

    ghost view = { λ e. e.seen };

    ghost invariant = { λ e. (e.reading.part.value.set ≡ fold (joined_loads e.seen.batches))
        × ((known e.reading.place).books ≡ e.seen.book ∷ []) × ((known e.reading.place).batches ≡ e.seen.batches) };
}

impl Visit {
    pub(crate) fn new(reading: StoreReading, seen: Seen) -> Visit
        requires { (reading.part.value.set ≡ fold (joined_loads seen.batches))
            × ((view reading.place).books ≡ seen.book ∷ []) × ((view reading.place).batches ≡ seen.batches) }
        ensures { result ≡ seen }
    {
        Visit { reading, seen }
    }

    fn leave(self) -> (StoreReader, Seen)
        ensures { ((view result.0.place).books ≡ self.book ∷ []) × ((view result.0.place).batches ≡ self.batches)
            × (result.1 ≡ self) }
    {
        let Visit { reading, seen } = self;
        (reading.leave(), seen)
    }
}

/// A visit of a reader: it shows what was published when the reader entered, whatever is published meanwhile. It
/// borrows its reader. It isn't `Drop`: end it with `leave`. None of its methods waits, and only `look_all` allocates.
pub struct Pinned<'a, G = Visit> {
    pub(crate) home: &'a mut Lookups,
    pub(crate) visit: G,
}

impl Pinned<'_> {
    /// The number of loads published when the reader entered.
    pub fn version(&self) -> Version
        ensures { result ≡ version_of (visit_of self.now).batches }
    {
        let visit = &self.visit;
        visit.seen.version()
    }

    /// The answer to a query (`live_set::CatalogueSet::look`).
    #[tactic(auto, using(live_loads::proofs::Looking::searched))]
    pub fn look<'a>(&'a self, query: &'a Query) -> &'a str
        ensures { IsAnswer (joined_loads (visit_of self.now).batches) query.now result.now }
    {
        self.set().look(query)
    }

    /// The answers to queries, in their order, all of the visit's version (`live_set::CatalogueSet::look_all`). The
    /// only error is a failed allocation.
    pub fn look_all<'a>(
        &'a self,
        alloc: Global,
        queries: &'a [Query],
    ) -> Result<Vec<&'a str>, AllocError>
        ensures { IfOk result (λ answers. AreAnswers (joined_loads (visit_of self.now).batches) queries.now
            answers.items) }
    {
        self.set().look_all(alloc, queries)
    }

    /// The translation of a msgid in a domain, from the first catalogue named by the list of languages that has it
    /// (`live_set::Query`), or the msgid if none has it.
    #[tactic(auto, using(live_loads::proofs::Looking::searched))]
    pub fn gettext<'a>(&'a self, domain: &str, languages: &str, id: &'a str) -> &'a str
        ensures { IsAnswer (joined_loads (visit_of self.now).batches) (query_of domain.now languages.now (Plain id.now))
            result.now }
    {
        self.set().gettext(domain, languages, id)
    }

    /// Like `gettext`, for a msgid in a context (`pgettext`).
    #[tactic(auto, using(live_loads::proofs::Looking::searched))]
    pub fn pgettext<'a>(
        &'a self,
        domain: &str,
        languages: &str,
        context: &str,
        id: &'a str,
    ) -> &'a str
        ensures { IsAnswer (joined_loads (visit_of self.now).batches)
            (query_of domain.now languages.now (Context context.now id.now)) result.now }
    {
        self.set().pgettext(domain, languages, context, id)
    }

    /// The plural form for a number, from the first catalogue named by the list of languages that has the message. If
    /// none has it, the msgid for 1 and the plural for other numbers (`ngettext`).
    #[tactic(auto, using(live_loads::proofs::Looking::searched))]
    pub fn ngettext<'a>(
        &'a self,
        domain: &str,
        languages: &str,
        id: &'a str,
        plural: &'a str,
        n: u64,
    ) -> &'a str
        ensures { IsAnswer (joined_loads (visit_of self.now).batches)
            (query_of domain.now languages.now (Number id.now plural.now n)) result.now }
    {
        self.set().ngettext(domain, languages, id, plural, n)
    }

    /// Like `ngettext`, for a message in a context (`npgettext`).
    #[tactic(auto, using(live_loads::proofs::Looking::searched))]
    pub fn npgettext<'a>(
        &'a self,
        domain: &str,
        languages: &str,
        context: &str,
        id: &'a str,
        plural: &'a str,
        n: u64,
    ) -> &'a str
        ensures { IsAnswer (joined_loads (visit_of self.now).batches)
            (query_of domain.now languages.now (ContextNumber context.now id.now plural.now n)) result.now }
    {
        self.set()
            .npgettext(domain, languages, context, id, plural, n)
    }

    /// The catalogues that a list of languages names in a domain, in order (`live_set::Languages`), for more than one
    /// look-up in the same languages. All of them are answered in the visit's version.
    pub fn languages<'a>(&'a self, domain: &'a str, languages: &'a str) -> Languages<'a>
        ensures { result ≡ maps_named (map_of (joined_loads (visit_of self.now).batches)) domain.now languages.now }
    {
        self.set().languages(domain, languages)
    }

    /// The set that the visit looks up in.
    fn set(&self) -> &CatalogueSet
        ensures { result.now ≡ fold (joined_loads (visit_of self.now).batches) }
    {
        let visit = &self.visit;
        &visit.reading.get().set
    }

    /// Ends the visit and gives its reader back. The reader has then seen the visit's batches.
    pub fn leave(self)
        ensures { self.exit.0.now ≡ visit_of self.entry }
    {
        let Pinned { home, visit } = self;
        let (reader, seen) = visit.leave();
        home.come_home(reader, seen);
    }
}
