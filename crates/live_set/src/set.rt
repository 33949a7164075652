//! Sets of catalogues.
ghost use Rattle.std.specs.Prelude.{◌≡◌, IfOk, IfSome, OnOk, OnErr, find, option_map, None, MatchOption, slice_get};
ghost use Rattle.live_set.specs.Loads.{is_for};
ghost use Rattle.live_set.specs.Names.{IsName};
ghost use Rattle.live_set.specs.Placing.{IsPlaceFor};
ghost use Rattle.live_set.specs.Sets.{no_loads, map_in, HasAbsorbed, with_load};
ghost use Rattle.catalogue.specs.Entry.{key_bytes};
ghost use Rattle.catalogue.specs.Map.{entry_at};
ghost use Rattle.catalogue.specs.Value.{IsTranslatedWithNul};
ghost use Rattle.live_set.specs.Asks.{HasAnswer, map_with, query_of, Plain, Context, Number, ContextNumber};

use crate::run::Run;
use crate::runs::LoadRuns;
use crate::{Ask, Load, Query};
use byte_text::TextKey;
use catalogue::{AskedKey, Catalogue, counted, first_form};
use std::alloc::{AllocError, Global};
use std::marker::Model;

/// For each text domain and locale, the catalogue that was loaded last, and the number of loads so far. Contracts see
/// it as this number and the loads that are still in use.
#[derive(Drop)]
pub struct CatalogueSet {
    version: u64,
    /// The last load for each domain and locale, in ascending order of locale and domain.
    held: LoadRuns,
}

impl Model for CatalogueSet {
    ghost use Rattle.live_set.specs.Sets.{SetValue};

    ghost Value = { SetValue };

    ghost view = { λ set. record { version = set.version; held = set.held } };
}

impl CatalogueSet {
    /// The set of no loads.
    pub fn new(alloc: Global) -> CatalogueSet
        ensures { result ≡ no_loads }
    {
        CatalogueSet {
            version: 0,
            held: LoadRuns::empty(alloc),
        }
    }

    /// The number of loads absorbed, or 2^64 - 1 if there were more.
    pub fn version(&self) -> u64
        ensures { result ≡ self.now.version }
    {
        self.version
    }

    /// The catalogue for this domain and locale, if there is one.
    pub(crate) fn catalogue(&self, domain: &TextKey<'_>, locale: &str) -> Option<&Catalogue>
        ensures map { option_map (λ c. c.now) result ≡ option_map (λ l. l.map)
            (find (is_for domain.now locale.now) self.now.held) }
        ensures name { IfSome result (λ _. IsName locale.now) }
    {
        let load = self.held.get(domain, &TextKey::new(locale))?;
        Some(load.catalogue())
    }

    /// The place of the catalogue for this domain and locale, if there is one.
    pub(crate) fn place(&self, domain: &TextKey<'_>, locale: &str) -> Option<usize>
        ensures { MatchOption result (find (is_for domain.now locale.now) self.now.held ≡ None)
            (IsPlaceFor self.now.held domain.now locale.now) }
    {
        self.held.place(domain, &TextKey::new(locale))
    }

    /// The catalogue at a place, if there is one.
    #[inline(always)]
    pub(crate) fn catalogue_at(&self, place: usize) -> Option<&Catalogue>
        ensures { option_map (λ c. c.now) result ≡ option_map (λ l. l.map) (slice_get self.now.held place) }
    {
        let load = self.held.load_at(place)?;
        Some(load.catalogue())
    }

    /// Takes in a load: its catalogue replaces the one for its domain and locale, and the version rises by one. If
    /// memory runs out, it fails and the set is unchanged.
    pub fn absorb(&mut self, load: &Load) -> Result<(), AllocError>
        ensures ok { OnOk result (HasAbsorbed load.now self.old self.new) }
        ensures err { OnErr result (self.new ≡ self.old) }

        // The result depends only on the old value and the load, so two copies stay equal.
        ensures value { OnOk result (self.new ≡ with_load self.old load.now) }
    {
        self.held.put(load)?;
        self.version = self.version.saturating_add(1);
        Ok(())
    }

    /// A copy of the set that shares its catalogues. Fails if memory runs out.
    pub fn try_clone(&self, alloc: Global) -> Result<CatalogueSet, AllocError>
        ensures { IfOk result (λ set. set ≡ self.now) }
    {
        Ok(CatalogueSet {
            version: self.version,
            held: self.held.try_clone(alloc)?,
        })
    }

    /// The translation of a msgid in a domain, from the first of the listed locales whose catalogue has the msgid, or
    /// the msgid itself if none has it. A locale's catalogue is the one that was loaded last for it.
    pub fn gettext<'a>(&'a self, domain: &str, languages: &str, id: &'a str) -> &'a str
        ensures { HasAnswer (map_in self.now.held) (query_of domain.now languages.now (Plain id.now)) result.now }
    {
        first_form(self.find_by_list(domain, languages, None, id), id)
    }

    /// Like `gettext`, for a msgid in a context.
    pub fn pgettext<'a>(
        &'a self,
        domain: &str,
        languages: &str,
        context: &str,
        id: &'a str,
    ) -> &'a str
        ensures { HasAnswer (map_in self.now.held) (query_of domain.now languages.now (Context context.now id.now))
            result.now }
    {
        first_form(self.find_by_list(domain, languages, Some(context), id), id)
    }

    /// The plural form for `n`, from the first of the listed locales whose catalogue has the message, by the rule in
    /// that catalogue's header. If there is no translation, the msgid for 1 and the plural for other numbers.
    pub fn ngettext<'a>(
        &'a self,
        domain: &str,
        languages: &str,
        id: &'a str,
        plural: &'a str,
        n: u64,
    ) -> &'a str
        ensures { HasAnswer (map_in self.now.held) (query_of domain.now languages.now (Number id.now plural.now n))
            result.now }
    {
        counted(
            self.find_by_list(domain, languages, None, id),
            id,
            plural,
            n,
        )
    }

    /// Like `ngettext`, for a message in a context.
    pub fn npgettext<'a>(
        &'a self,
        domain: &str,
        languages: &str,
        context: &str,
        id: &'a str,
        plural: &'a str,
        n: u64,
    ) -> &'a str
        ensures { HasAnswer (map_in self.now.held) (query_of domain.now languages.now
            (ContextNumber context.now id.now plural.now n)) result.now }
    {
        counted(
            self.find_by_list(domain, languages, Some(context), id),
            id,
            plural,
            n,
        )
    }

    /// The answer to a query, borrowed from the set or from the query. It doesn't allocate.
    pub fn look<'a>(&'a self, query: &'a Query) -> &'a str
        ensures { HasAnswer (map_in self.now.held) query.now result.now }
    {
        let domain = query.domain.as_str();
        let languages = query.languages.as_str();
        match &query.ask {
            Ask::Plain { id } => self.gettext(domain, languages, id.as_str()),
            Ask::Context { context, id } => {
                self.pgettext(domain, languages, context.as_str(), id.as_str())
            }
            Ask::Number { id, plural, n } => {
                self.ngettext(domain, languages, id.as_str(), plural.as_str(), *n)
            }
            Ask::ContextNumber {
                context,
                id,
                plural,
                n,
            } => self.npgettext(
                domain,
                languages,
                context.as_str(),
                id.as_str(),
                plural.as_str(),
                *n,
            ),
        }
    }

    /// The translation of a message, followed by one NUL, which makes it a C string. The context and the msgid are
    /// bytes that need not be UTF-8.
    ///
    /// It comes from the first of the listed locales whose catalogue has the message: its first form, or, given a
    /// number, the form for that number by the catalogue's plural rule. Returns `None` exactly if no listed catalogue
    /// has the message. The bytes are borrowed from the set alone.
    pub fn translated_with_nul(
        &self,
        domain: &str,
        languages: &str,
        context: Option<&[u8]>,
        id: &[u8],
        n: Option<u64>,
    ) -> Option<&[u8]>
        ensures { let key = key_bytes (option_map (λ s. s.now) context.entry) id.now in
            let m = map_with (map_in self.now.held) domain.now languages.now key in
            IsTranslatedWithNul m (entry_at m key) n (option_map (λ s. s.now) result) }
    {
        let key = AskedKey::new(context, id);
        let (catalogue, entry) = self.find_by_key(domain, languages, &key)?;
        Some(catalogue.form_with_nul_for(&entry, n))
    }
}
