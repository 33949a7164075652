//! What a caller sees of compiled PO texts. Many more texts, with the expected look-ups, are in tests/msgfmt/texts.txt.
use catalogue::{
    Catalogue, Compiled, EntryRef, LoadFault, LoadKind, Options, Stats, compile, one_meaning,
};
use std::alloc::{AllocError, Global};

const PLAIN: Options = Options {
    checked: false,
    use_fuzzy: false,
};

const CHECKED: Options = Options {
    checked: true,
    use_fuzzy: false,
};

/// Three messages with the same msgid.
const CONTEXTS: &[u8] = b"msgctxt \"\"\nmsgid \"b\"\nmsgstr \"1\"\nmsgid \"b\"\nmsgstr \"2\"\n\
    msgctxt \"k\"\nmsgid \"b\"\nmsgstr \"3\"\n";

/// One message of every standing, with the header last.
const EVERY: &[u8] = b"msgid \"d\"\nmsgstr \"\"\n#, fuzzy\nmsgid \"c\"\nmsgstr \"1\"\n\
    msgctxt \"k\"\nmsgid \"b\"\nmsgid_plural \"bs\"\nmsgstr[0] \"2\"\nmsgstr[1] \"3\"\nmsgstr[2] \"4\"\n\
    msgid \"\"\nmsgstr \"Language: fr\\n\"\n";

const POLISH: &[u8] = b"msgid \"\"\nmsgstr \"Plural-Forms: nplurals=3; plural=n==1 ? 0 : \
    n%10>=2 && n%10<=4 && (n%100<10 || n%100>=20) ? 1 : 2;\\n\"\n\nmsgid \"file\"\nmsgid_plural \"files\"\n\
    msgstr[0] \"plik\"\nmsgstr[1] \"pliki\"\nmsgstr[2] \"plikow\"\n";

/// Appends the text, or `-` if there is none.
fn push_optional(line: &mut String, text: Option<&str>) -> Result<(), AllocError> {
    line.push('|')?;
    line.push_str(text.unwrap_or("-"))
}

/// Appends a line with the entry's key, context, msgid, msgid_plural, translation and forms.
fn push_entry(line: &mut String, entry: &EntryRef) -> Result<(), AllocError> {
    line.push_str(entry.key())?;
    let (id, translation) = (Some(entry.id()), Some(entry.translation()));
    for text in &[entry.context(), id, entry.plural(), translation] {
        push_optional(line, *text)?;
    }
    for form in entry.forms() {
        push_optional(line, Some(form))?;
    }
    line.push('\n')
}

/// Appends a line for each entry.
fn push_entries(lines: &mut String, catalogue: &Catalogue) -> Result<(), AllocError> {
    for i in 0..catalogue.len() {
        push_entry(lines, &catalogue.entry(i))?;
    }
    Ok(())
}

/// Whether the iterator yields the forms that `form` returns for each index, and then ends.
fn has_its_forms(entry: &EntryRef) -> bool {
    let mut forms = entry.forms();
    for k in 0..entry.form_count() {
        if forms.next() != Some(entry.form(k)) {
            return false;
        }
    }
    forms.next().is_none() && forms.next().is_none()
}

/// Whether the entry is found by its context and msgid.
fn finds(catalogue: &Catalogue, entry: &EntryRef) -> bool {
    match catalogue.find(entry.context(), entry.id()) {
        Some(found) => found.key() == entry.key() && found.translation() == entry.translation(),
        None => false,
    }
}

/// Whether every entry is found, and has its forms.
fn finds_each(catalogue: &Catalogue) -> bool {
    for i in 0..catalogue.len() {
        let entry = catalogue.entry(i);
        if !finds(catalogue, &entry) || !has_its_forms(&entry) {
            return false;
        }
    }
    true
}

/// Whether the counts of translated, fuzzy and untranslated entries and the header's line are these.
fn counts(compiled: &Compiled, numbers: (u32, u32, u32), header_line: u32) -> bool {
    let Stats {
        translated,
        fuzzy,
        untranslated,
    } = compiled.stats;
    (translated, fuzzy, untranslated) == numbers && compiled.header_line == header_line
}

/// Whether a catalogue has these entries, a line for each.
fn has_entries(alloc: Global, catalogue: &Catalogue, lines: &str) -> bool {
    let mut found = String::new(alloc);
    push_entries(&mut found, catalogue).is_ok() && found.as_str() == lines
}

/// Whether the text compiles to these entries, with these counts and the header on this line.
fn lists(
    alloc: Global,
    text: &[u8],
    lines: &str,
    numbers: (u32, u32, u32),
    header_line: u32,
) -> bool {
    match compile(alloc, text, PLAIN) {
        Ok(compiled) => {
            has_entries(alloc, &compiled.catalogue, lines)
                && finds_each(&compiled.catalogue)
                && counts(&compiled, numbers, header_line)
        }
        Err(_) => false,
    }
}

#[test]
fn lists_entries(rt: HostRuntime) {
    let contexts = "\u{4}b||b|-|1|1\nb|-|b|-|2|2\nk\u{4}b|k|b|-|3|3\n";
    assert!(rt; lists(rt.alloc(), CONTEXTS, contexts, (3, 0, 0), 0));
    let every = "|-||-|Language: fr\n|Language: fr\n\nk\u{4}b|k|b|bs|2\u{0}3\u{0}4|2|3|4\n";
    assert!(rt; lists(rt.alloc(), EVERY, every, (1, 1, 1), 12));
    let text = b"msgid \"b\"\nmsgid_plural \"c\"\nmsgstr[0] \"x\"\nmsgstr[1] \"\"\n";
    assert!(rt; lists(rt.alloc(), text, "b|-|b|c|x\u{0}|x|\n", (1, 0, 0), 0));
}

/// Why a text of this many spaces is refused.
fn refusal_of_spaces(alloc: Global, count: usize) -> Option<LoadFault> {
    match vec![in alloc; b' '; count] {
        Ok(text) => compile(alloc, &text, PLAIN).err(),
        Err(_) => None,
    }
}

/// A text of more than 64 MiB is refused.
#[test]
fn refuses_large_texts(rt: HostRuntime) {
    let wanted = LoadFault {
        kind: LoadKind::TooLarge,
        line: 0,
    };
    assert!(rt; refusal_of_spaces(rt.alloc(), 67_108_865) == Some(wanted));
}

/// Contexts and msgids of which `CONTEXTS` has no message.
const ABSENT: &[(Option<&str>, &str)] = &[
    (None, ""),
    (None, "\u{4}"),
    (None, "a"),
    (None, "bb"),
    (None, "k"),
    (None, "z"),
    (Some(""), ""),
    (Some("k"), "bb"),
    (Some("k\u{4}"), "b"),
];

/// Whether no entry is found for any of these contexts and msgids.
fn finds_none(catalogue: &Catalogue, absent: &[(Option<&str>, &str)]) -> bool {
    for (context, id) in absent {
        if catalogue.find(*context, id).is_some() {
            return false;
        }
    }
    true
}

/// Whether exactly the keys of `CONTEXTS` are found. A msgid that holds byte 4 is a key with a context.
fn finds_contexts(alloc: Global) -> bool {
    match compile(alloc, CONTEXTS, PLAIN) {
        Ok(compiled) => {
            finds_none(&compiled.catalogue, ABSENT)
                && compiled.catalogue.find(Some("k"), "b").is_some()
                && compiled.catalogue.find(None, "k\u{4}b").is_some()
        }
        Err(_) => false,
    }
}

#[test]
fn finds_in_contexts(rt: HostRuntime) {
    assert!(rt; finds_contexts(rt.alloc()));
}

/// Whether the look-ups in `POLISH` return the right forms.
fn looks_up(catalogue: &Catalogue) -> bool {
    catalogue.gettext("file") == "plik"
        && catalogue.pgettext("k", "file") == "file"
        && catalogue.ngettext("file", "files", 22) == "pliki"
        && catalogue.npgettext("k", "file", "files", 22) == "files"
}

/// Whether a catalogue that is made of another one's file has its look-ups and its file.
fn has_copy(alloc: Global, catalogue: &Catalogue) -> bool {
    match Catalogue::from_file(alloc, catalogue.file()) {
        Ok(copy) => looks_up(&copy) && copy.file() == catalogue.file(),
        Err(_) => false,
    }
}

/// Whether the catalogue of `POLISH` and its copy have the look-ups.
fn looks_up_by_both(alloc: Global) -> bool {
    match compile(alloc, POLISH, CHECKED) {
        Ok(compiled) => { looks_up(&compiled.catalogue) && has_copy(alloc, &compiled.catalogue) }
        Err(_) => false,
    }
}

#[test]
fn looks_up_in_a_copy(rt: HostRuntime) {
    assert!(rt; looks_up_by_both(rt.alloc()));
    one_meaning();
}

/// Whether the text's header lacks exactly these fields and is on this line.
fn lacks(alloc: Global, text: &[u8], options: Options, missing: [bool; 8], line: u32) -> bool {
    match compile(alloc, text, options) {
        Ok(compiled) => compiled.missing == missing && compiled.header_line == line,
        Err(_) => false,
    }
}

/// Whether `lacks` holds at the checked level, and nothing is missing at the other.
fn lacks_checked(alloc: Global, text: &[u8], missing: [bool; 8], line: u32) -> bool {
    lacks(alloc, text, CHECKED, missing, line) && lacks(alloc, text, PLAIN, [false; 8], line)
}

/// A header with some of the fields.
const SOME: &[u8] =
    b"msgid \"\"\nmsgstr \"Language: fr\\nContent-Type: text/plain; charset=UTF-8\\nLast-Translator: x\\n\"\n";

/// A name, a text, the fields that its header lacks, and the header's line.
const MISSING: &[(&str, &[u8], [bool; 8], u32)] = &[
    ("a rule alone", POLISH, [true; 8], 1),
    (
        "three fields",
        SOME,
        [true, true, false, true, true, false, true, false],
        1,
    ),
    ("no header", b"msgid \"a\"\nmsgstr \"b\"\n", [false; 8], 0),
    // A header that isn't kept lacks nothing, and a fuzzy header is kept.
    (
        "an empty header",
        b"msgid \"\"\nmsgstr \"\"\n",
        [false; 8],
        0,
    ),
    (
        "a fuzzy header",
        b"#, fuzzy\nmsgid \"\"\nmsgstr \"x\"\n",
        [true; 8],
        2,
    ),
];

/// The name of the first text that lacks other fields.
fn wrong_missing(alloc: Global) -> Option<&'static str> {
    for (name, text, missing, line) in MISSING {
        if !lacks_checked(alloc, text, *missing, *line) {
            return Some(*name);
        }
    }
    None
}

#[test]
fn names_missing_fields(rt: HostRuntime) {
    let wrong = wrong_missing(rt.alloc());
    assert!(rt; wrong.is_none(), "{wrong:?}");
}

/// Whether a catalogue has no entry, and gives the texts that it is asked for.
fn has_nothing(catalogue: &Catalogue) -> bool {
    catalogue.is_empty()
        && catalogue.ngettext("file", "files", 1) == "file"
        && catalogue.ngettext("file", "files", 2) == "files"
}

/// Whether no messages and no strings make such catalogues.
fn makes_nothing(alloc: Global) -> bool {
    let Ok(sorted) = Catalogue::from_sorted(alloc, Vec::new(alloc)) else {
        return false;
    };
    match Catalogue::from_strings(alloc, Vec::new(alloc)) {
        Ok(listed) => has_nothing(&sorted) && has_nothing(&listed),
        Err(_) => false,
    }
}

#[test]
fn makes_an_empty_catalogue(rt: HostRuntime) {
    assert!(rt; makes_nothing(rt.alloc()));
}
