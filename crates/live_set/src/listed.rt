//! The catalogues that a list of languages names, looked at once for many look-ups.
ghost use Rattle.std.specs.Prelude.{◌≡◌, option_map};
ghost use Rattle.catalogue.specs.Entry.{key_bytes};
ghost use Rattle.catalogue.specs.Map.{entry_at};
ghost use Rattle.catalogue.specs.Value.{IsTranslatedWithNul};
ghost use Rattle.live_set.specs.Asks.{HasFirstValue, Plain, Context, Number, ContextNumber, first_with, maps_named};
ghost use Rattle.live_set.specs.FirstFound.{IsFoundIn};
ghost use Rattle.live_set.specs.Sets.{map_in};

use crate::languages::key_of;
use crate::{CatalogueSet, MOST_PLACES, Places};
use catalogue::{AskedKey, Found, counted, first_form};
use std::marker::Model;

/// The catalogues of a set that a list of languages names in a domain, in order. The list is looked at once, when this
/// is made (`CatalogueSet::languages`), and not by each look-up. Contracts see it as the catalogues' maps.
///
/// Up to 16 catalogues are kept here, without allocating; a list that names more is looked at by each look-up.
#[derive(Drop)]
pub struct Languages<'a> {
    set: &'a CatalogueSet,
    domain: &'a str,
    languages: &'a str,
    /// The places of the catalogues in the set, without those that it doesn't have.
    places: Places,
}

impl<'a> Model for Languages<'a> {
    ghost use Rattle.std.specs.Prelude.{List};
    ghost use Rattle.catalogue.specs.Entry.{Entry};
    ghost use Rattle.live_set.specs.Asks.{maps_named};
    ghost use Rattle.live_set.specs.SetPlaces.{IsListed};
    ghost use Rattle.live_set.specs.Sets.{map_in};

    ghost Value = { List (List Entry) };

    ghost view = { λ l. maps_named (map_in l.set.now.held) l.domain.now l.languages.now };

    ghost invariant = { λ l. IsListed l.set.now.held l.domain.now l.languages.now l.places };
}

impl CatalogueSet {
    /// The catalogues that a list of languages names in a domain, in order, for more than one look-up in the same
    /// languages: the list is looked at once. It doesn't allocate. Its calls answer as those of this set do, so one
    /// look-up alone is made by `gettext` and its like.
    pub fn languages<'a>(&'a self, domain: &'a str, languages: &'a str) -> Languages<'a>
        ensures { result ≡ maps_named (map_in self.now.held) domain.now languages.now }
    {
        Languages {
            set: self,
            domain,
            languages,
            places: self.places(domain, languages),
        }
    }
}

impl<'a> Languages<'a> {
    /// The entry with this key, and its catalogue: the first that has the key.
    #[inline(always)]
    fn find(&self, key: &AskedKey<'_>) -> Option<Found<'a>>
        ensures { IsFoundIn key.now self.now result }
    {
        let count = self.places.count;
        if count > MOST_PLACES {
            return self.set.find_by_key(self.domain, self.languages, key);
        }
        let places = &self.places.places[..count as usize];
        self.set.find_in_places(places, key)
    }

    /// The translation of a msgid, as `CatalogueSet::gettext` gives it.
    pub fn gettext<'b>(&'b self, id: &'b str) -> &'b str
        ensures { HasFirstValue self.now (Plain id.now) result.now }
    {
        first_form(self.find(&key_of(None, id)), id)
    }

    /// The translation of a msgid in a context, as `CatalogueSet::pgettext` gives it.
    pub fn pgettext<'b>(&'b self, context: &str, id: &'b str) -> &'b str
        ensures { HasFirstValue self.now (Context context.now id.now) result.now }
    {
        first_form(self.find(&key_of(Some(context), id)), id)
    }

    /// The plural form for a number, as `CatalogueSet::ngettext` gives it.
    pub fn ngettext<'b>(&'b self, id: &'b str, plural: &'b str, n: u64) -> &'b str
        ensures { HasFirstValue self.now (Number id.now plural.now n) result.now }
    {
        counted(self.find(&key_of(None, id)), id, plural, n)
    }

    /// The plural form for a number in a context, as `CatalogueSet::npgettext` gives it.
    pub fn npgettext<'b>(&'b self, context: &str, id: &'b str, plural: &'b str, n: u64) -> &'b str
        ensures { HasFirstValue self.now (ContextNumber context.now id.now plural.now n) result.now }
    {
        counted(self.find(&key_of(Some(context), id)), id, plural, n)
    }

    /// The translation of a message as a C string, as `CatalogueSet::translated_with_nul` gives it. The bytes are
    /// borrowed from the set alone.
    pub fn translated_with_nul(
        &self,
        context: Option<&[u8]>,
        id: &[u8],
        n: Option<u64>,
    ) -> Option<&'a [u8]>
        ensures { let key = key_bytes (option_map (λ s. s.now) context.entry) id.now in
            let m = first_with key self.now in
            IsTranslatedWithNul m (entry_at m key) n (option_map (λ s. s.now) result) }
    {
        let (catalogue, entry) = self.find(&AskedKey::new(context, id))?;
        Some(catalogue.form_with_nul_for(&entry, n))
    }
}
