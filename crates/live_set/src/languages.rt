//! Look-ups by a list of languages: the first of the listed locales whose catalogue has the message.
ghost use Rattle.std.specs.Prelude.{◌≡◌, ◌<◌, false, true, [], ◌∷◌, length, option_map, map, find, None, MatchOption};
ghost use Rattle.std.specs.Prelude.{IfSome};
ghost use Rattle.std.specs.List.{before_first, list_any};
ghost use Rattle.catalogue.specs.Entry.{key_bytes};
ghost use Rattle.live_set.specs.LanguageList.{is_colon, is_underscore, has_only_territory, translates, language_behind};
ghost use Rattle.live_set.specs.LanguageList.{locales_of};
ghost use Rattle.live_set.specs.Asks.{has_key, maps_named};
ghost use Rattle.live_set.specs.Names.{IsName};
ghost use Rattle.live_set.specs.Sets.{map_in};
ghost use Rattle.live_set.specs.FirstFound.{IsFoundIn, IsCutAt};

use crate::CatalogueSet;
use byte_text::TextKey;
use catalogue::{AskedKey, Found};

/// The key of a msgid, in a context or in none.
#[inline(always)]
pub(crate) fn key_of<'a>(context: Option<&'a str>, id: &'a str) -> AskedKey<'a>
    ensures { result ≡ key_bytes (option_map (λ s. s.now) context.entry) id.now }
{
    AskedKey::new(context.map(str::as_bytes), id.as_bytes())
}

/// The language of a locale name with a territory, no codeset and no variant: `fr` for `fr_CA`.
pub(crate) fn language_of(member: &str) -> Option<&str>
    ensures { MatchOption result (has_only_territory member.now ≡ false) (λ language.
        (has_only_territory member.now ≡ true) × (language.now ≡ before_first is_underscore member.now)) }
{
    let (language, _) = member.split_once('_')?;
    if member.contains('.') || member.contains('@') {
        None
    } else {
        Some(language)
    }
}

/// Whether messages are translated in a locale: all but `C` and `POSIX`.
pub(crate) fn is_translated(member: &str) -> bool
    ensures { result ≡ translates member.now }
{
    member != "C" && member != "POSIX"
}

/// Whether a list may have more than one member.
fn has_colon(languages: &str) -> bool
    ensures { result ≡ list_any is_colon languages.now }
{
    languages.bytes().any(|byte| byte == b':')
}

/// Splits the first member off a list, skipping empty ones. `None` if the list is empty or ends here at `C` or `POSIX`.
pub(crate) fn first_member(languages: &str) -> Option<(&str, &str)>
    ensures cut { IsCutAt languages.now result }
    ensures shorter { IfSome result (λ cut. length cut.1.now < length languages.now) }
{
    let mut list = languages;
    'colons: while let Some(others) = list.strip_prefix(':') {
        list = others;
    }
    if list.is_empty() {
        return None;
    }
    let (member, others) = list.split_once(':').unwrap_or((list, ""));
    if is_translated(member) {
        Some((member, others))
    } else {
        None
    }
}

impl CatalogueSet {
    /// The entry with this context and msgid in the catalogue for a domain and a locale.
    #[inline(always)]
    fn find_in(&self, domain: &TextKey<'_>, locale: &str, key: &AskedKey<'_>) -> Option<Found<'_>>
        ensures found { IsFoundIn key.now (map_in self.now.held domain.now locale.now ∷ []) result }
        ensures name { IfSome result (λ _. IsName locale.now) }
    {
        let catalogue = self.catalogue(domain, locale)?;
        let entry = catalogue.find_asked(key)?;
        Some((catalogue, entry))
    }

    /// Like `find_in`, for the language of a locale that has a territory, no codeset and no variant.
    fn find_by_language(
        &self,
        domain: &TextKey<'_>,
        member: &str,
        key: &AskedKey<'_>,
    ) -> Option<Found<'_>>
        ensures { IsFoundIn key.now (map (map_in self.now.held domain.now) (language_behind member.now)) result }
    {
        self.find_in(domain, language_of(member)?, key)
    }

    /// Like `find_in`, for a member of a list: first as a locale, then its language.
    fn find_by_member(
        &self,
        domain: &TextKey<'_>,
        member: &str,
        key: &AskedKey<'_>,
    ) -> Option<Found<'_>>
        ensures { IsFoundIn key.now (map (map_in self.now.held domain.now) (locales_of member.now)) result }
    {
        if let Some(found) = self.find_in(domain, member, key) {
            return Some(found);
        }
        self.find_by_language(domain, member, key)
    }

    /// Like `find_in`, for the first of the listed locales that has the message, if the whole list isn't the name of
    /// one.
    #[inline(never)]
    fn find_by_members(
        &self,
        domain: &TextKey<'_>,
        languages: &str,
        key: &AskedKey<'_>,
    ) -> Option<Found<'_>>
        requires { translates languages.now ≡ true
            → find (has_key key.now) (map_in self.now.held domain.now languages.now ∷ []) ≡ None }
        ensures { IsFoundIn key.now (maps_named (map_in self.now.held) domain.now languages.now) result }
    {
        if !has_colon(languages) {
            let (member, _) = first_member(languages)?;
            return self.find_by_language(domain, member, key);
        }
        let mut rest = languages;
        'members: while let Some((member, others)) = first_member(rest) {
            if let Some(found) = self.find_by_member(domain, member, key) {
                return Some(found);
            }
            rest = others;
        }
        None
    }

    /// Like `find_in`, for the first of the listed locales that has the message. Most lists are a single locale that
    /// has it, so the whole list is tried as one first; this is safe because no locale's name has a colon.
    #[inline(always)]
    pub(crate) fn find_by_key(
        &self,
        domain: &str,
        languages: &str,
        key: &AskedKey<'_>,
    ) -> Option<Found<'_>>
        ensures { IsFoundIn key.now (maps_named (map_in self.now.held) domain.now languages.now) result }
    {
        let domain = TextKey::new(domain);
        if is_translated(languages) {
            if let Some(found) = self.find_in(&domain, languages, key) {
                return Some(found);
            }
        }
        self.find_by_members(&domain, languages, key)
    }
    /// Like `find_by_key`, for the key of these strings.
    #[inline(always)]
    pub(crate) fn find_by_list(
        &self,
        domain: &str,
        languages: &str,
        context: Option<&str>,
        id: &str,
    ) -> Option<Found<'_>>
        ensures { IsFoundIn (key_bytes (option_map (λ s. s.now) context.entry) id.now)
            (maps_named (map_in self.now.held) domain.now languages.now) result }
    {
        self.find_by_key(domain, languages, &key_of(context, id))
    }
}
