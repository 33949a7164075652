//! The PO texts of the tests, and sets of what they compile to. A function that returns `None` ran out of memory.
use catalogue::{Options, compile};
use live_set::{CatalogueSet, Load, Name};
use std::alloc::Global;
use std::sync::Arc;

const PLAIN: Options = Options {
    checked: false,
    use_fuzzy: false,
};

pub(crate) const SALUT: &[u8] = b"msgid \"hi\"\nmsgstr \"salut\"\n";

pub(crate) const BONJOUR: &[u8] = b"msgid \"hi\"\nmsgstr \"bonjour\"\n";

pub(crate) const HALLO: &[u8] = b"msgid \"hi\"\nmsgstr \"hallo\"\n";

pub(crate) const MENU: &[u8] = b"msgctxt \"menu\"\nmsgid \"open\"\nmsgstr \"otworz\"\n";

pub(crate) const POLISH: &[u8] =
    b"msgid \"\"\nmsgstr \"nplurals=3; plural=n==1 ? 0 : n%10>=2 && n%10<=4 && \
    (n%100<10 || n%100>=20) ? 1 : 2;\"\nmsgid \"file\"\nmsgid_plural \"files\"\nmsgstr[0] \"plik\"\n\
    msgstr[1] \"pliki\"\nmsgstr[2] \"plikow\"\nmsgctxt \"menu\"\nmsgid \"open\"\nmsgstr \"otworz\"\n\
    msgctxt \"disk\"\nmsgid \"file\"\nmsgid_plural \"files\"\nmsgstr[0] \"jeden\"\nmsgstr[1] \"dwa\"\n\
    msgstr[2] \"piec\"\n";

/// A load: its domain, its locale and its text.
pub(crate) type Row<'a> = (&'a str, &'a str, &'a [u8]);

/// The load of a text, with an index or without one.
pub(crate) fn load(alloc: Global, row: Row<'_>, indexed: bool) -> Option<Load> {
    let (domain, locale, text) = row;
    let domain = Name::new(alloc, domain).ok()?;
    let locale = Name::new(alloc, locale).ok()?;
    let mut catalogue = compile(alloc, text, PLAIN).ok()?.catalogue;
    if indexed && catalogue.index(alloc).is_err() {
        return None;
    }
    let catalogue = Arc::new(alloc, catalogue).ok()?;
    Some(Load {
        domain,
        locale,
        catalogue,
    })
}

/// Compiles a text, and absorbs it into a set; or returns `false` if memory runs out.
pub(crate) fn put(alloc: Global, set: &mut CatalogueSet, row: Row<'_>, indexed: bool) -> bool {
    match load(alloc, row, indexed) {
        Some(load) => set.absorb(&load).is_ok(),
        None => false,
    }
}

/// The set of these loads.
pub(crate) fn set_of(alloc: Global, rows: &[Row<'static>]) -> Option<CatalogueSet> {
    let mut set = CatalogueSet::new(alloc);
    for row in rows {
        if !put(alloc, &mut set, *row, false) {
            return None;
        }
    }
    Some(set)
}
