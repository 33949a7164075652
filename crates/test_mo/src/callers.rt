//! A caller, proved by the contracts of what it calls. docs/guide/rattle.md quotes it.
ghost use Rattle.std.specs.Prelude.{◌≡◌, Some, IfSome};
ghost use Rattle.catalogue.specs.Map.{entry_at};
ghost use Rattle.catalogue.specs.Meaning.{Means};
ghost use Rattle.catalogue.specs.Value.{IsCounted, IsFirstForm, text_by};
ghost use Rattle.catalogue.specs.declared.Compiled.{Compiled};

use catalogue::{Catalogue, Options, compile};
use mo_file::{one_map, read_mo, write_mo, written_is_read};
use std::alloc::Global;

/// The catalogue that a PO text compiles to, by way of its MO file.
fn through_a_file(alloc: Global, text: &[u8], options: Options) -> Option<Catalogue>
    ensures { IfSome result (λ c. (compiled : Compiled) × Means text.now options compiled × (c ≡ compiled.catalogue)) }
{
    let Ok(compiled) = compile(alloc, text, options) else {
        return None
    };
    let Ok(file) = write_mo(alloc, &compiled.catalogue) else {
        return None
    };
    let Ok(again) = read_mo(alloc, file.as_slice()) else {
        return None
    };
    written_is_read();
    one_map();
    Some(again)
}

/// What a window shows: its title, and a label that counts.
fn labels<'a>(
    catalogue: &'a Catalogue,
    title: &'a str,
    one: &'a str,
    many: &'a str,
    n: u64,
) -> (&'a str, &'a str)
    ensures title { IsFirstForm (entry_at catalogue.now title.now) title.now result.0.now }
    ensures label { IsCounted catalogue.now (entry_at catalogue.now one.now) n
        (text_by n one.now many.now) result.1.now }
{
    (catalogue.gettext(title), catalogue.ngettext(one, many, n))
}

const PLAIN: Options = Options {
    checked: false,
    use_fuzzy: false,
};

const TEXT: &str = "msgid \"\"\nmsgstr \"Plural-Forms: nplurals=2; plural=n>1;\\n\"\n\n\
    msgid \"Folder\"\nmsgstr \"Dossier\"\n\nmsgid \"file\"\nmsgid_plural \"files\"\n\
    msgstr[0] \"fichier\"\nmsgstr[1] \"fichiers\"\n";

/// Whether a window shows these texts, by way of a file.
fn shows(alloc: Global, n: u64, wanted: &str) -> bool {
    match through_a_file(alloc, TEXT.as_bytes(), PLAIN) {
        Some(catalogue) => {
            let (title, label) = labels(&catalogue, "Folder", "file", "files", n);
            title == "Dossier" && label == wanted
        }
        None => false,
    }
}

/// Whether a text has no catalogue.
fn is_refused(alloc: Global, text: &[u8]) -> bool {
    through_a_file(alloc, text, PLAIN).is_none()
}

#[test]
fn asks_through_a_file(rt: HostRuntime) {
    let alloc = rt.alloc();
    assert!(rt; shows(alloc, 0, "fichier"));
    assert!(rt; shows(alloc, 1, "fichier"));
    assert!(rt; shows(alloc, 2, "fichiers"));
    assert!(rt; is_refused(alloc, b"msgid \"a\""));
}
