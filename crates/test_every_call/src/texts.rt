//! Calls of `read_po`, and the texts and options of other calls.
use catalogue::Options;
use po_text::read_po;
use std::io;

/// The options without the checks of `msgfmt -c`.
pub const PLAIN: Options = Options {
    checked: false,
    use_fuzzy: false,
};

/// An entry that translates `hi` to French.
pub const SALUT: &str = "msgid \"hi\"\nmsgstr \"salut\"\n";

/// An entry that translates `hi` to German.
pub const HALLO: &str = "msgid \"hi\"\nmsgstr \"hallo\"\n";

/// One msgid twice, the second time fuzzy.
pub const TWICE: &str = "msgid \"a\"\nmsgstr \"x\"\n#, fuzzy\nmsgid \"a\"\nmsgstr \"y\"\n";

/// A header with a plural rule, and an entry with three forms.
pub const PLIK: &str = "msgid \"\"\n\
    msgstr \"Plural-Forms: nplurals=3; plural=n==1 ? 0 : n%10>=2 && n%10<=4 && (n%100<10 || n%100>=20) ? 1 : 2;\\n\"\n\
    \n\
    msgid \"file\"\n\
    msgid_plural \"files\"\n\
    msgstr[0] \"plik\"\n\
    msgstr[1] \"pliki\"\n\
    msgstr[2] \"plikow\"\n";

/// PO texts, each with its label.
const TEXTS: &[(&str, &str)] = &[
    (
        "three strings",
        "msgid \"\"\n\"caf\\303\\251\"\n\"\\n\"\nmsgstr \"x\\n\"\n",
    ),
    (
        "a character cut in two",
        "msgid \"\"\n\"caf\\303\" \"\\251\"\n\"\\n\"\nmsgstr \"x\\n\"\n",
    ),
    (
        "a comment between strings",
        "msgid \"a\"\n# x\n\"b\"\nmsgstr \"c\"\n",
    ),
    (
        "a late flag",
        "msgid \"a\"\n#, fuzzy\nmsgstr \"b\"\nmsgid \"c\"\nmsgstr \"d\"\n",
    ),
    ("two flags", "#, c-format, fuzzy\nmsgid \"a\"msgstr \"b\"\n"),
    (
        "contexts",
        "msgctxt \"\"\nmsgid \"b\"\nmsgstr \"1\"\nmsgid \"b\"\nmsgstr \"2\"\n\
        msgctxt \"k\"\nmsgid \"b\"\nmsgstr \"3\"\n",
    ),
    ("three forms", PLIK),
    (
        "a skipped form",
        "msgid \"a\"\nmsgid_plural \"b\"\nmsgstr[0] \"x\"\nmsgstr[2] \"y\"\n",
    ),
    ("an open string", "msgid \"a\nmsgstr \"b\"\n"),
];

/// Reads a PO text, and prints the result.
fn read<R: Print + AllocGlobal>(rt: &R, label: &str, text: &str) -> io::Result<()> {
    let answer = read_po(rt.alloc(), text.as_bytes());
    println!(rt; "read_po, {label}, gives {answer:?}")
}

/// The group `read_po`.
pub fn read_all<R: Print + AllocGlobal>(rt: &R) -> io::Result<()> {
    for (label, text) in TEXTS {
        read(rt, label, text)?;
    }
    Ok(())
}
