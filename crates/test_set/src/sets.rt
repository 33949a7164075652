//! Sets of small catalogues. The expected values were written by hand, from the rules.
use crate::queries::looks_up;
use crate::texts::{BONJOUR, HALLO, MENU, Row, SALUT, load, put, set_of};
use live_set::CatalogueSet;
use std::alloc::Global;

/// Loads with domain and locale exchanged, names that are prefixes of others, and one pair twice.
const LOADS: [Row<'static>; 7] = [
    ("b", "a", HALLO),
    ("app", "fr", SALUT),
    ("a", "b", HALLO),
    ("app", "de", HALLO),
    ("app", "fr_CA", HALLO),
    ("app", "fr", BONJOUR),
    ("c", "fr", MENU),
];

/// The answer for `hi` after `LOADS`, in a domain and a list of languages. In a list a territory leads to its
/// language, a codeset doesn't, and `C` and `POSIX` end it (GNU gettext manual, "The LANGUAGE variable"; "Locale
/// Names").
const ANSWERS: [(&str, &str, &str); 21] = [
    ("b", "a", "hallo"),
    ("app", "fr", "bonjour"),
    ("a", "b", "hallo"),
    ("app", "de", "hallo"),
    ("app", "fr_CA", "hallo"),
    ("c", "fr", "hi"),
    ("a", "a", "hi"),
    ("b", "b", "hi"),
    ("ap", "pfr", "hi"),
    ("", "", "hi"),
    ("app", "", "hi"),
    ("app", "fr\n", "hi"),
    ("app", "fr\n:de", "hallo"),
    ("app", "fr_BE", "bonjour"),
    ("app", "sv:fr_BE:de", "bonjour"),
    ("app", "fr_CA:fr", "hallo"),
    ("app", "fr_BE.UTF-8:de", "hallo"),
    ("app", "::de:", "hallo"),
    ("app", "C:fr", "hi"),
    ("app", "sv:POSIX:fr", "hi"),
    ("app", "sv_SE:da", "hi"),
];

/// Whether `hi` has this translation by each call.
fn translates(
    alloc: Global,
    set: &CatalogueSet,
    domain: &str,
    languages: &str,
    wanted: &str,
) -> bool {
    set.gettext(domain, languages, "hi") == wanted
        && set.languages(domain, languages).gettext("hi") == wanted
        && looks_up(alloc, set, domain, languages, (None, "hi", None), wanted)
}

/// Whether that is so after `LOADS`, which the version counts.
fn answers(alloc: Global, domain: &str, languages: &str, wanted: &str) -> bool {
    match set_of(alloc, &LOADS) {
        Some(set) => set.version() == 7 && translates(alloc, &set, domain, languages, wanted),
        None => false,
    }
}

#[test]
fn answers_from_the_last_load(rt: HostRuntime) {
    for (domain, languages, wanted) in ANSWERS {
        assert!(rt;
            answers(rt.alloc(), domain, languages, wanted),
            "{domain} {languages}"
        );
    }
}

/// Whether a set answers right before the first load and after it.
fn grows(alloc: Global) -> bool {
    let mut set = CatalogueSet::new(alloc);
    set.version() == 0
        && translates(alloc, &set, "app", "fr", "hi")
        && put(alloc, &mut set, ("app", "fr", SALUT), false)
        && set.version() == 1
        && translates(alloc, &set, "app", "fr", "salut")
        && translates(alloc, &set, "app", "sv", "hi")
}

#[test]
fn answers_from_the_first_load(rt: HostRuntime) {
    assert!(rt; grows(rt.alloc()));
}

/// Absorbs a copy of the load of `MENU` and then the load, or returns `false` if memory runs out.
fn put_twice(alloc: Global, set: &mut CatalogueSet) -> bool {
    let Some(menu) = load(alloc, ("app", "fr", MENU), false) else {
        return false;
    };
    match menu.try_clone() {
        Ok(again) => set.absorb(&again).is_ok() && set.absorb(&menu).is_ok(),
        Err(_) => false,
    }
}

/// Whether a load replaces the whole catalogue, and may be absorbed again.
fn replaces(alloc: Global) -> bool {
    match set_of(alloc, &LOADS) {
        Some(mut set) => {
            put_twice(alloc, &mut set)
                && set.version() == 9
                && set.gettext("app", "fr", "hi") == "hi"
                && set.pgettext("app", "fr", "menu", "open") == "otworz"
        }
        None => false,
    }
}

#[test]
fn replaces_a_catalogue(rt: HostRuntime) {
    assert!(rt; replaces(rt.alloc()));
}

/// Whether a set and a copy of it have a locale.
fn has_locale(alloc: Global, set: &CatalogueSet, locale: &str, number: u64) -> bool {
    match set.try_clone(alloc) {
        Ok(copy) => {
            set.gettext("app", locale, "hi") == "salut"
                && copy.gettext("app", locale, "hi") == "salut"
                && copy.version() == number
        }
        Err(_) => false,
    }
}

/// Absorbs a load for one more locale, and returns whether the set and a copy of it have it then.
fn takes_locale(alloc: Global, set: &mut CatalogueSet, number: u64) -> bool {
    match format!(in alloc; "l{number}") {
        Ok(locale) => {
            put(alloc, set, ("app", locale.as_str(), SALUT), false)
                && has_locale(alloc, set, locale.as_str(), number)
        }
        Err(_) => false,
    }
}

/// The number of the first of 1025 loads that a set doesn't take, or `None` if it takes all.
fn first_lost(alloc: Global) -> Option<u64> {
    let mut set = CatalogueSet::new(alloc);
    for number in 1..1026u64 {
        if !takes_locale(alloc, &mut set, number) {
            return Some(number);
        }
    }
    None
}

#[test]
fn takes_any_number_of_loads(rt: HostRuntime) {
    let lost = first_lost(rt.alloc());
    assert!(rt; lost.is_none(), "{lost:?}");
}
