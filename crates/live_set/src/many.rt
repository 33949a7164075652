//! Many look-ups at once: a processor waits for the memory of several of them at the same time.
ghost use Rattle.std.specs.Prelude.{[], ◌∷◌, IfOk, IfSome, option_map};
ghost use Rattle.catalogue.specs.Entry.{key_bytes};
ghost use Rattle.live_set.specs.Asks.{HasAnswer, HaveAnswers, maps_named};
ghost use Rattle.live_set.specs.FirstFound.{IsFoundIn};
ghost use Rattle.live_set.specs.Names.{IsName};
ghost use Rattle.live_set.specs.Sets.{map_in};

use crate::languages::{is_translated, key_of};
use crate::{Ask, CatalogueSet, Query};
use byte_text::TextKey;
use catalogue::{Found, NO_HINT, counted, first_form};
use std::alloc::{AllocError, Global};

/// How many queries ahead a hint is got.
const AHEAD: usize = 16;

/// The context and the msgid that a call asks for.
#[inline(always)]
fn texts_of(ask: &Ask) -> (Option<&str>, &str) {
    match ask {
        Ask::Plain { id } => (None, id.as_str()),
        Ask::Context { context, id } => (Some(context.as_str()), id.as_str()),
        Ask::Number { id, .. } => (None, id.as_str()),
        Ask::ContextNumber { context, id, .. } => (Some(context.as_str()), id.as_str()),
    }
}

impl CatalogueSet {
    /// The hint of a query (`Catalogue::hint`), if there is one and its list is a single locale.
    #[inline(always)]
    fn hint(&self, query: Option<&Query>) -> u64 {
        let Some(query) = query else {
            return NO_HINT;
        };
        let domain = TextKey::new(query.domain.as_str());
        let (context, id) = texts_of(&query.ask);
        match self.catalogue(&domain, query.languages.as_str()) {
            Some(catalogue) => catalogue.hint(&key_of(context, id)),
            None => NO_HINT,
        }
    }

    /// The entry of a msgid, in a context or in none, in the catalogue for a domain and a locale.
    #[inline(always)]
    fn find_in_hinted(
        &self,
        domain: &TextKey<'_>,
        locale: &str,
        context: Option<&str>,
        id: &str,
        hint: u64,
    ) -> Option<Found<'_>>
        ensures found { IsFoundIn (key_bytes (option_map (λ s. s.now) context.entry) id.now)
            (map_in self.now.held domain.now locale.now ∷ []) result }
        ensures name { IfSome result (λ _. IsName locale.now) }
    {
        let catalogue = self.catalogue(domain, locale)?;
        let context = context.map(str::as_bytes);
        let entry = catalogue.find_hinted(context, id.as_bytes(), hint)?;
        Some((catalogue, entry))
    }

    /// Like `find_by_list`, whatever the hint is.
    #[inline(always)]
    fn find_by_hint(
        &self,
        domain: &str,
        languages: &str,
        context: Option<&str>,
        id: &str,
        hint: u64,
    ) -> Option<Found<'_>>
        ensures { IsFoundIn (key_bytes (option_map (λ s. s.now) context.entry) id.now)
            (maps_named (map_in self.now.held) domain.now languages.now) result }
    {
        let domain_key = TextKey::new(domain);
        if is_translated(languages) {
            if let Some(found) = self.find_in_hinted(&domain_key, languages, context, id, hint) {
                return Some(found);
            }
        }
        self.find_by_list(domain, languages, context, id)
    }

    /// The answer to a query, as `look` gives it, whatever the hint is.
    #[inline(always)]
    fn look_hinted<'a>(&'a self, query: &'a Query, hint: u64) -> &'a str
        ensures { HasAnswer (map_in self.now.held) query.now result.now }
    {
        let domain = query.domain.as_str();
        let languages = query.languages.as_str();
        match &query.ask {
            Ask::Plain { id } => {
                let id = id.as_str();
                first_form(self.find_by_hint(domain, languages, None, id, hint), id)
            }
            Ask::Context { context, id } => {
                let (context, id) = (Some(context.as_str()), id.as_str());
                first_form(self.find_by_hint(domain, languages, context, id, hint), id)
            }
            Ask::Number { id, plural, n } => {
                let id = id.as_str();
                let found = self.find_by_hint(domain, languages, None, id, hint);
                counted(found, id, plural.as_str(), *n)
            }
            Ask::ContextNumber {
                context,
                id,
                plural,
                n,
            } => {
                let (context, id) = (Some(context.as_str()), id.as_str());
                let found = self.find_by_hint(domain, languages, context, id, hint);
                counted(found, id, plural.as_str(), *n)
            }
        }
    }

    /// The answers to queries, in their order, each as `look` gives it. The only error is a failed allocation.
    ///
    /// A processor waits for the memory of several queries at once, so many queries take less time than as many calls
    /// of `look` in a catalogue that is larger than the processor's nearest memory.
    pub fn look_all<'a>(
        &'a self,
        alloc: Global,
        queries: &'a [Query],
    ) -> Result<Vec<&'a str>, AllocError>
        ensures { IfOk result (λ answers. HaveAnswers (map_in self.now.held) queries.now answers.items) }
    {
        let mut answers = Vec::with_capacity(alloc, queries.len())?;
        let mut hints = [NO_HINT; AHEAD];
        'first: for i in 0..queries.len().min(AHEAD) {
            hints[i] = self.hint(queries.get(i));
        }
        'queries: for i in 0..queries.len() {
            answers.push(self.look_hinted(&queries[i], hints[i % AHEAD]))?;
            hints[i % AHEAD] = self.hint(queries.get(i.saturating_add(AHEAD)));
        }
        Ok(answers)
    }
}
