//! Look-ups by places: a list of languages is looked at once, and the places that it names answer many look-ups.
ghost use Rattle.std.specs.Prelude.{◌≡◌, ◌<◌, ◌≤◌, [], ◌∷◌, map, option_map, MatchOption};
ghost use Rattle.catalogue.specs.Entry.{key_bytes};
ghost use Rattle.catalogue.specs.Map.{entry_at};
ghost use Rattle.catalogue.specs.Value.{IsTranslatedWithNul};
ghost use Rattle.live_set.specs.FirstFound.{IsFoundIn};
ghost use Rattle.live_set.specs.LanguageList.{locales_of};
ghost use Rattle.live_set.specs.SetPlaces.{IsListed, listed_places, map_among, map_at, most_places};
ghost use Rattle.live_set.specs.Placing.{IsExtended, IsPushed};

use crate::CatalogueSet;
use crate::languages::{first_member, language_of};
use byte_text::TextKey;
use catalogue::{AskedKey, Found, NO_HINT};

/// The most places that a list has.
pub const MOST_PLACES: u32 = 16;

/// The places of the catalogues that a list of languages names in a set, in its order. They are good for look-ups in
/// that set alone. The library for C writes them as they are.
#[derive(Clone, Copy)]
#[repr(C)]
pub struct Places {
    /// How many there are. If it is more than `MOST_PLACES`, the list names more catalogues than that, and the places
    /// don't answer as it does.
    pub count: u32,
    pub places: [u32; 16],
}

impl Places {
    /// No places.
    pub fn new() -> Places
        ensures { result.count ≡ 0 }
    {
        Places {
            count: 0,
            places: [0; 16],
        }
    }

    /// Adds a place, if there is room and it isn't too large.
    fn push(&mut self, place: usize)
        ensures { IsPushed place self.old self.new }
    {
        match u32::try_from(place) {
            Ok(place) if self.count < MOST_PLACES => {
                self.places[self.count as usize] = place;
                self.count += 1;
            }
            _ => self.count = MOST_PLACES + 1,
        }
    }
}

impl CatalogueSet {
    /// The places of the catalogues that a list of languages names in a domain, in order, for more than one look-up in
    /// the same languages (`translated_with_nul_at`). It doesn't allocate.
    pub fn places(&self, domain: &str, languages: &str) -> Places
        ensures { IsListed self.now.held domain.now languages.now result }
    {
        self.places_in(&TextKey::new(domain), languages)
    }

    /// Like `places`, in a domain that was made a key.
    fn places_in(&self, domain: &TextKey<'_>, languages: &str) -> Places
        ensures { IsListed self.now.held domain.now languages.now result }
    {
        let mut places = Places::new();
        let mut rest = languages;
        'members: while let Some((member, others)) = first_member(rest) {
            self.add_member(&mut places, domain, member);
            rest = others;
        }
        places
    }

    /// Adds the places of a member of a list: those of the locale and of its language.
    fn add_member(&self, places: &mut Places, domain: &TextKey<'_>, member: &str)
        ensures { IsExtended self.now.held domain.now (locales_of member.now) places.old places.new }
    {
        self.add_locale(places, domain, member);
        if let Some(language) = language_of(member) {
            self.add_locale(places, domain, language);
        }
    }

    /// Adds the place of the catalogue for a domain and a locale, if there is one.
    fn add_locale(&self, places: &mut Places, domain: &TextKey<'_>, locale: &str)
        ensures { IsExtended self.now.held domain.now (locale.now ∷ []) places.old places.new }
    {
        if let Some(place) = self.place(domain, locale) {
            places.push(place);
        }
    }

    /// The entry with this key in the catalogue at a place.
    #[inline(always)]
    fn find_in_place(&self, place: u32, key: &AskedKey<'_>) -> Option<Found<'_>>
        ensures { IsFoundIn key.now (map_at self.now.held place ∷ []) result }
    {
        let catalogue = self.catalogue_at(place as usize)?;
        let entry = catalogue.find_asked(key)?;
        Some((catalogue, entry))
    }

    /// Like `find_in_place`, at the first of these places that has the key.
    #[inline(always)]
    pub(crate) fn find_in_places(&self, places: &[u32], key: &AskedKey<'_>) -> Option<Found<'_>>
        ensures { IsFoundIn key.now (map (map_at self.now.held) places.now) result }
    {
        'places: for place in places {
            if let Some(found) = self.find_in_place(*place, key) {
                return Some(found);
            }
        }
        None
    }

    /// The entry of a msgid, in a context or in none, in the catalogue at a place.
    #[inline(always)]
    fn find_in_place_hinted(
        &self,
        place: u32,
        context: Option<&[u8]>,
        id: &[u8],
        hint: u64,
    ) -> Option<Found<'_>>
        ensures { IsFoundIn (key_bytes (option_map (λ s. s.now) context.entry) id.now)
            (map_at self.now.held place ∷ []) result }
    {
        let catalogue = self.catalogue_at(place as usize)?;
        let entry = catalogue.find_hinted(context, id, hint)?;
        Some((catalogue, entry))
    }

    /// Like `find_in_places`, whatever the hint is.
    #[inline(always)]
    fn find_in_places_hinted(
        &self,
        places: &[u32],
        context: Option<&[u8]>,
        id: &[u8],
        hint: u64,
    ) -> Option<Found<'_>>
        ensures { IsFoundIn (key_bytes (option_map (λ s. s.now) context.entry) id.now)
            (map (map_at self.now.held) places.now) result }
    {
        let (first, others) = places.split_first()?;
        if let Some(found) = self.find_in_place_hinted(*first, context, id, hint) {
            return Some(found);
        }
        self.find_in_places(others, &AskedKey::new(context, id))
    }

    /// Returns a hint for `translated_with_nul_hinted`: that of the catalogue at the first of these places.
    #[inline(always)]
    pub fn hint_at(&self, places: &[u32], context: Option<&[u8]>, id: &[u8]) -> u64 {
        let Some(place) = places.first() else {
            return NO_HINT;
        };
        match self.catalogue_at(*place as usize) {
            Some(catalogue) => catalogue.hint(&AskedKey::new(context, id)),
            None => NO_HINT,
        }
    }

    /// Like `translated_with_nul_at`, whatever the hint is.
    #[inline(always)]
    pub fn translated_with_nul_hinted(
        &self,
        places: &[u32],
        context: Option<&[u8]>,
        id: &[u8],
        n: Option<u64>,
        hint: u64,
    ) -> Option<&[u8]>
        ensures { let key = key_bytes (option_map (λ s. s.now) context.entry) id.now in
            let m = map_among self.now.held places.now key in
            IsTranslatedWithNul m (entry_at m key) n (option_map (λ s. s.now) result) }
    {
        let (catalogue, entry) = self.find_in_places_hinted(places, context, id, hint)?;
        Some(catalogue.form_with_nul_for(&entry, n))
    }

    /// Like `translated_with_nul`, from the first of these places whose catalogue has the message. A place where there
    /// is no catalogue is passed over.
    pub fn translated_with_nul_at(
        &self,
        places: &[u32],
        context: Option<&[u8]>,
        id: &[u8],
        n: Option<u64>,
    ) -> Option<&[u8]>
        ensures { let key = key_bytes (option_map (λ s. s.now) context.entry) id.now in
            let m = map_among self.now.held places.now key in
            IsTranslatedWithNul m (entry_at m key) n (option_map (λ s. s.now) result) }
    {
        self.translated_with_nul_hinted(places, context, id, n, NO_HINT)
    }
}
