//! Every call, and lists of many languages. The expected values were written by hand, from the rules.
use crate::queries::looks_up;
use crate::texts::{HALLO, MENU, POLISH, Row, SALUT, put, set_of};
use live_set::CatalogueSet;
use std::alloc::Global;

const POLISH_AND_GERMAN: [Row<'static>; 2] = [("app", "pl", POLISH), ("app", "de", HALLO)];

/// A number, the form for it without a context and in the context `disk`, and the answer without a translation.
const NUMBERS: [(u64, &str, &str, &str); 4] = [
    (0, "plikow", "piec", "files"),
    (1, "plik", "jeden", "file"),
    (22, "pliki", "dwa", "files"),
    (u64::MAX, "plikow", "piec", "files"),
];

/// Whether a number has these forms in Polish, by queries and by the calls of a list.
fn has_forms(alloc: Global, set: &CatalogueSet, n: u64, wanted: &str, on_disk: &str) -> bool {
    let list = set.languages("app", "de:pl_PL");
    let disk = (Some("disk"), "file", Some(n));
    list.ngettext("file", "files", n) == wanted
        && list.npgettext("disk", "file", "files", n) == on_disk
        && looks_up(alloc, set, "app", "pl", (None, "file", Some(n)), wanted)
        && looks_up(alloc, set, "app", "pl", disk, on_disk)
}

/// Whether a number has no translation in another language, nor in a context that doesn't have the message.
fn has_none(set: &CatalogueSet, n: u64, wanted: &str) -> bool {
    set.ngettext("app", "cs", "file", "files", n) == wanted
        && set.npgettext("app", "pl", "menu", "file", "files", n) == wanted
        && set.npgettext("app", "cs", "disk", "file", "files", n) == wanted
}

/// Whether the calls without a number have their texts.
fn has_texts(alloc: Global, set: &CatalogueSet) -> bool {
    let (list, again) = (
        set.languages("app", "de:pl_PL"),
        set.languages("app", "de:pl"),
    );
    list.gettext("hi") == "hallo"
        && list.pgettext("menu", "open") == "otworz"
        && again.translated_with_nul(None, b"file", None) == Some(b"plik\0")
        && again.translated_with_nul(None, b"\xff", None).is_none()
        && looks_up(
            alloc,
            set,
            "app",
            "pl",
            (Some("menu"), "open", None),
            "otworz",
        )
        && looks_up(alloc, set, "app", "pl", (None, "open", None), "open")
        && looks_up(alloc, set, "app", "pl", (None, "file", None), "plik")
}

/// Whether a number has these answers, and the other calls theirs.
fn answers(alloc: Global, n: u64, wanted: &str, on_disk: &str, nowhere: &str) -> bool {
    match set_of(alloc, &POLISH_AND_GERMAN) {
        Some(set) => {
            has_forms(alloc, &set, n, wanted, on_disk)
                && has_none(&set, n, nowhere)
                && has_texts(alloc, &set)
        }
        None => false,
    }
}

#[test]
fn answers_each_call(rt: HostRuntime) {
    for (n, wanted, on_disk, nowhere) in NUMBERS {
        assert!(rt; answers(rt.alloc(), n, wanted, on_disk, nowhere), "{n}");
    }
}

/// Absorbs `MENU` for a locale with this number, and adds the locale to a list; or returns `false` if memory runs out.
fn put_numbered(alloc: Global, set: &mut CatalogueSet, list: &mut String, number: u64) -> bool {
    match format!(in alloc; "l{number}") {
        Ok(locale) => {
            put(alloc, set, ("app", locale.as_str(), MENU), false)
                && list.push_str(locale.as_str()).is_ok()
                && list.push(':').is_ok()
        }
        Err(_) => false,
    }
}

/// Absorbs catalogues for the locales `l1` up to this one, of which only the last has `hi`. Returns the list of them.
fn put_all(alloc: Global, set: &mut CatalogueSet, last: u64) -> Option<String> {
    let mut list = String::new(alloc);
    for number in 1..last {
        if !put_numbered(alloc, set, &mut list, number) {
            return None;
        }
    }
    if put(alloc, set, ("app", "last", SALUT), false) && list.push_str("last:").is_ok() {
        Some(list)
    } else {
        None
    }
}

/// Whether `hi` is found in the last language of a list, and `open` in one before, if there is one.
fn finds_last(set: &CatalogueSet, languages: &str, last: u64) -> bool {
    let list = set.languages("app", languages);
    let menu = if last == 1 { "open" } else { "otworz" };
    list.gettext("hi") == "salut" && list.pgettext("menu", "open") == menu
}

/// Whether that is so with this number of languages.
fn answers_last(alloc: Global, last: u64) -> bool {
    let mut set = CatalogueSet::new(alloc);
    match put_all(alloc, &mut set, last) {
        Some(list) => finds_last(&set, list.as_str(), last),
        None => false,
    }
}

/// Sixteen catalogues are kept, and more are found by each look-up.
#[test]
fn takes_any_number_of_languages(rt: HostRuntime) {
    for last in [1u64, 15, 16, 17, 40] {
        assert!(rt; answers_last(rt.alloc(), last), "{last}");
    }
}
