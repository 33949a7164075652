//! Look-ups in catalogues, both as compiled and as written and read back. The expected results were worked out by hand
//! from the rules.
use catalogue::{Catalogue, Options, compile};
use mo_file::reread;
use std::alloc::Global;

/// A rule whose value may be below 0 or past the last form, and so select no form.
const DECREASED: &str = "msgid \"\"\nmsgstr \"nplurals=2; plural=n-1;\"\n\
    msgid \"a\"\nmsgid_plural \"b\"\nmsgstr[0] \"u\"\nmsgstr[1] \"v\"\n";

/// A rule that divides by the number.
const DIVIDED: &str = "msgid \"\"\nmsgstr \"nplurals=6; plural=5/n;\"\n\
    msgid \"a\"\nmsgid_plural \"b\"\nmsgstr[0] \"0\"\nmsgstr[1] \"1\"\nmsgstr[2] \"2\"\n\
    msgstr[3] \"3\"\nmsgstr[4] \"4\"\nmsgstr[5] \"5\"\n";

/// A plural message with one form, and no header.
const CAT: &str = "msgid \"cat\"\nmsgid_plural \"cats\"\nmsgstr[0] \"chat\"\n";

/// A fuzzy header and a fuzzy message.
const FUZZY: &str =
    "#, fuzzy\nmsgid \"\"\nmsgstr \"Language: fr\\n\"\n#, fuzzy\nmsgid \"a\"\nmsgstr \"b\"\n";

const POLISH: &str = "msgid \"\"\nmsgstr \"Plural-Forms: nplurals=3; plural=n==1 ? 0 : \
    n%10>=2 && n%10<=4 && (n%100<10 || n%100>=20) ? 1 : 2;\\n\"\n\nmsgid \"file\"\nmsgid_plural \"files\"\n\
    msgstr[0] \"plik\"\nmsgstr[1] \"pliki\"\nmsgstr[2] \"plikow\"\n";

const CONTEXTS: &str = "msgctxt \"\"\nmsgid \"b\"\nmsgstr \"1\"\nmsgid \"b\"\nmsgstr \"2\"\n\
    msgctxt \"k\"\nmsgid \"b\"\nmsgstr \"3\"\n";

/// Compiles a text, with fuzzy messages if `use_fuzzy` is set; with `again`, the catalogue is also written and read
/// back.
pub(crate) fn catalogue_with(
    alloc: Global,
    text: &str,
    use_fuzzy: bool,
    again: bool,
) -> Option<Catalogue> {
    let options = Options {
        checked: false,
        use_fuzzy,
    };
    match compile(alloc, text.as_bytes(), options) {
        Ok(compiled) if again => reread(alloc, &compiled.catalogue).ok(),
        Ok(compiled) => Some(compiled.catalogue),
        Err(_) => None,
    }
}

/// A look-up: its context, its msgid, and its plural with a number. The context and the plural may be missing.
type Call = (
    Option<&'static str>,
    &'static str,
    Option<(&'static str, u64)>,
);

/// A text, a look-up in its catalogue, and the answer.
const ANSWERS: &[(&str, Call, &str)] = &[
    (POLISH, (None, "file", Some(("files", 0))), "plikow"),
    (POLISH, (None, "file", Some(("files", 1))), "plik"),
    (POLISH, (None, "file", Some(("files", 5))), "plikow"),
    (POLISH, (None, "file", Some(("files", 22))), "pliki"),
    (POLISH, (None, "file", Some(("files", 112))), "plikow"),
    // Forms that the rule doesn't give.
    (DECREASED, (None, "a", Some(("b", 0))), "u"),
    (DECREASED, (None, "a", Some(("b", 1))), "u"),
    (DECREASED, (None, "a", Some(("b", 2))), "v"),
    (DECREASED, (None, "a", Some(("b", 3))), "u"),
    (DIVIDED, (None, "a", Some(("b", 0))), "0"),
    (DIVIDED, (None, "a", Some(("b", 1))), "5"),
    (DIVIDED, (None, "a", Some(("b", 2))), "2"),
    (DIVIDED, (None, "a", Some(("b", 3))), "1"),
    (DIVIDED, (None, "a", Some(("b", 5))), "1"),
    (DIVIDED, (None, "a", Some(("b", 6))), "0"),
    // Without a header.
    (CAT, (None, "cat", Some(("cats", 7))), "chat"),
    (CAT, (None, "cat", Some(("cats", 1))), "chat"),
    (CAT, (None, "dog", Some(("dogs", 0))), "dogs"),
    (CAT, (None, "dog", Some(("dogs", 1))), "dog"),
    (CAT, (None, "dog", Some(("dogs", 2))), "dogs"),
    // Without a number.
    (POLISH, (None, "file", None), "plik"),
    (CAT, (None, "", None), ""),
    (CONTEXTS, (None, "b", None), "2"),
    (CONTEXTS, (Some(""), "b", None), "1"),
    (CONTEXTS, (Some("k"), "b", None), "3"),
    (CONTEXTS, (Some("z"), "b", None), "b"),
    // A msgid that holds byte 4 is a key with a context.
    (CONTEXTS, (None, "k\u{4}b", None), "3"),
];

/// Whether a look-up in a catalogue has this answer.
fn is_answer(catalogue: &Catalogue, call: Call, wanted: &str) -> bool {
    let (context, id, plural) = call;
    let found = match (context, plural) {
        (None, None) => catalogue.gettext(id),
        (Some(context), None) => catalogue.pgettext(context, id),
        (None, Some((plural, n))) => catalogue.ngettext(id, plural, n),
        (Some(context), Some((plural, n))) => catalogue.npgettext(context, id, plural, n),
    };
    found == wanted
}

/// Whether that is so in the catalogue of a text.
fn answers(alloc: Global, text: &str, again: bool, call: Call, wanted: &str) -> bool {
    match catalogue_with(alloc, text, false, again) {
        Some(catalogue) => is_answer(&catalogue, call, wanted),
        None => false,
    }
}

/// The first look-up that has another answer.
fn wrong_call(alloc: Global, again: bool) -> Option<Call> {
    for (text, call, wanted) in ANSWERS {
        if !answers(alloc, text, again, *call, wanted) {
            return Some(*call);
        }
    }
    None
}

#[test]
fn forms_and_texts(rt: HostRuntime) {
    let once = wrong_call(rt.alloc(), false);
    let again = wrong_call(rt.alloc(), true);
    assert!(rt; once.is_none() && again.is_none(), "{once:?} {again:?}");
}

/// Whether `FUZZY` has this many entries, a file of this size, its header, and this translation of `a`.
fn has_fuzzy(
    alloc: Global,
    use_fuzzy: bool,
    again: bool,
    entries: usize,
    size: usize,
    a: &str,
) -> bool {
    match catalogue_with(alloc, FUZZY, use_fuzzy, again) {
        Some(catalogue) => {
            (catalogue.len(), catalogue.file().len()) == (entries, size)
                && catalogue.gettext("") == "Language: fr\n"
                && catalogue.gettext("a") == a
        }
        None => false,
    }
}

/// Whether a catalogue has just these keys, in order.
fn has_keys(catalogue: &Catalogue, keys: &[&str]) -> bool {
    for (i, key) in keys.iter().enumerate() {
        if i >= catalogue.len() || catalogue.entry(i).key() != *key {
            return false;
        }
    }
    catalogue.len() == keys.len()
}

/// Whether `CONTEXTS` has its keys.
fn has_contexts(alloc: Global, again: bool) -> bool {
    match catalogue_with(alloc, CONTEXTS, false, again) {
        Some(catalogue) => has_keys(&catalogue, &["\u{4}b", "b", "k\u{4}b"]),
        None => false,
    }
}

/// What isn't kept of fuzzy messages and contexts, in catalogues as compiled or as read back.
fn lost_part(alloc: Global, again: bool) -> Option<&'static str> {
    if !has_fuzzy(alloc, false, again, 1, 59, "a") {
        return Some("a fuzzy header");
    }
    if !has_fuzzy(alloc, true, again, 2, 79, "b") {
        return Some("a fuzzy message");
    }
    if !has_contexts(alloc, again) {
        return Some("contexts");
    }
    None
}

#[test]
fn a_fuzzy_header_and_contexts_are_kept(rt: HostRuntime) {
    let once = lost_part(rt.alloc(), false);
    let again = lost_part(rt.alloc(), true);
    assert!(rt; once.is_none() && again.is_none(), "{once:?} {again:?}");
}
