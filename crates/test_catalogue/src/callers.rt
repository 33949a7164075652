//! The first program of docs/guide/rattle.md, which quotes it.
use catalogue::{Catalogue, LoadFault, Options, compile};
use std::alloc::Global;

/// The catalogue that a PO text means, or the first thing that is wrong with the text.
fn load(alloc: Global, text: &[u8]) -> Result<Catalogue, LoadFault> {
    let options = Options {
        checked: false,
        use_fuzzy: false,
    };
    let compiled = compile(alloc, text, options)?;
    Ok(compiled.catalogue)
}

/// What `n` files are called, by the catalogue's rule; one of the two texts where it has no such message.
fn files<'a>(catalogue: &'a Catalogue, n: u64) -> &'a str {
    catalogue.ngettext("file", "files", n)
}

const TEXT: &[u8] = b"msgid \"\"\nmsgstr \"Plural-Forms: nplurals=2; plural=n>1;\\n\"\n\n\
    msgid \"file\"\nmsgid_plural \"files\"\nmsgstr[0] \"fichier\"\nmsgstr[1] \"fichiers\"\n";

/// Whether `n` files are called this by the catalogue of a text.
fn are_called(alloc: Global, text: &[u8], n: u64, wanted: &str) -> bool {
    match load(alloc, text) {
        Ok(catalogue) => files(&catalogue, n) == wanted,
        Err(_) => false,
    }
}

/// A number, and what files are called by the text's catalogue and by one without messages.
const NUMBERS: &[(u64, &str, &str)] = &[
    (0, "fichier", "files"),
    (1, "fichier", "file"),
    (2, "fichiers", "files"),
];

/// The first number for which files are called otherwise.
fn wrong_number(alloc: Global) -> Option<u64> {
    for (n, translated, id) in NUMBERS {
        if !are_called(alloc, TEXT, *n, translated) || !are_called(alloc, b"", *n, id) {
            return Some(*n);
        }
    }
    None
}

/// Whether a text has no catalogue.
fn is_refused(alloc: Global, text: &[u8]) -> bool {
    load(alloc, text).is_err()
}

#[test]
fn files_are_counted(rt: HostRuntime) {
    let wrong = wrong_number(rt.alloc());
    assert!(rt; wrong.is_none(), "{wrong:?}");
    assert!(rt; is_refused(rt.alloc(), b"msgid \"a\""));
}
