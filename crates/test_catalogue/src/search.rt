//! Searches in large catalogues.
ghost use Rattle.std.specs.Prelude.{◌≡◌, ◌+◌, ◌<◌, ◌≤◌, length};

use catalogue::{Catalogue, Options, Steps, compile};
use std::alloc::{AllocError, Global};
use std::marker::Brand;
use std::sync::ledger::{Blank, Ledger};

const PLAIN: Options = Options {
    checked: false,
    use_fuzzy: false,
};

/// Appends the last `places` digits of a number, which has at most six.
fn push_digits(text: &mut String, n: u32, places: usize) -> Result<(), AllocError> {
    let digits = [n / 100_000, n / 10_000, n / 1_000, n / 100, n / 10, n];
    for digit in digits.iter().skip(6usize.saturating_sub(places)) {
        text.push(char::from(b'0' + (*digit % 10) as u8))?;
    }
    Ok(())
}

/// Appends the key of a number: `k` and its last digits.
fn push_key(text: &mut String, n: u32, places: usize) -> Result<(), AllocError> {
    text.push('k')?;
    push_digits(text, n, places)
}

/// Appends a message: the key of a number, translated as its digits.
fn push_message(text: &mut String, n: u32, places: usize) -> Result<(), AllocError> {
    text.push_str("msgid \"")?;
    push_key(text, n, places)?;
    text.push_str("\"\nmsgstr \"")?;
    push_digits(text, n, places)?;
    text.push_str("\"\n")
}

/// Appends a PO text of `count` such messages.
fn push_numbered(text: &mut String, count: u32, places: usize) -> Result<(), AllocError> {
    for n in 0..count {
        push_message(text, n, places)?;
    }
    Ok(())
}

/// Compiles a PO text, or returns `None` if memory runs out.
fn catalogue_of(alloc: Global, text: &[u8]) -> Option<Catalogue> {
    match compile(alloc, text, PLAIN) {
        Ok(compiled) => Some(compiled.catalogue),
        Err(_) => None,
    }
}

/// The catalogue of `push_numbered`, or `None` if memory runs out.
fn numbered_catalogue(alloc: Global, count: u32, places: usize) -> Option<Catalogue> {
    let mut text = String::new(alloc);
    match push_numbered(&mut text, count, places) {
        Ok(()) => catalogue_of(alloc, text.as_bytes()),
        Err(_) => None,
    }
}

/// Whether the key is found with this translation or, if none is wanted, isn't found.
fn is_found(catalogue: &Catalogue, key: &str, wanted: Option<&str>) -> bool {
    match catalogue.find(None, key) {
        Some(entry) => entry.id() == key && Some(entry.translation()) == wanted,
        None => wanted.is_none(),
    }
}

/// Checks the key as `is_found` does, by the counted search, which takes at most ten steps among a thousand entries.
fn is_found_in_ten<L: Ledger>(
    catalogue: &Catalogue,
    key: &str,
    wanted: Option<&str>,
    steps: &mut Steps<L>,
) -> bool
    requires { length catalogue.now ≤ 1000 }
    ensures { steps.new ≤ steps.old + 10 }
{
    match catalogue.find_counted(None, key, steps) {
        Some(entry) => entry.id() == key && Some(entry.translation()) == wanted,
        None => wanted.is_none(),
    }
}

/// Whether both searches find the key with this translation or, if none is wanted, don't find it.
fn is_found_by_both<L: Ledger>(
    catalogue: &Catalogue,
    key: &str,
    wanted: Option<&str>,
    steps: &mut Steps<L>,
) -> bool
    requires { length catalogue.now ≤ 1000 }
{
    is_found(catalogue, key, wanted) && is_found_in_ten(catalogue, key, wanted, steps)
}

/// Whether the key of a number is found.
fn finds_number<L: Ledger>(
    alloc: Global,
    catalogue: &Catalogue,
    n: u32,
    steps: &mut Steps<L>,
) -> bool
    requires { length catalogue.now ≤ 1000 }
{
    let mut text = String::new(alloc);
    if push_key(&mut text, n, 3).is_err() {
        return false;
    }
    let key = text.as_str();
    is_found_by_both(catalogue, key, key.strip_prefix('k'), steps)
}

/// Keys that aren't among the thousand.
const OTHERS: &[&str] = &["k", "k0005", "k9999", "", "j", "l"];

/// Whether all of a thousand keys are found in ten steps each, and other keys aren't.
fn finds_thousand<L: Ledger>(alloc: Global, catalogue: &Catalogue, blank: Blank) -> bool
    requires name { blank.name ≡ L.name }
    requires parts { blank.parts ≡ L.parts }
    requires some { 0 < L.parts }
    requires count { length catalogue.now ≤ 1000 }
{
    let mut steps = Steps::<L>::new(blank);
    let mut found = true;
    for n in 0..1000 {
        found = found && finds_number(alloc, catalogue, n, &mut steps);
    }
    for other in OTHERS {
        found = found && is_found_by_both(catalogue, other, None, &mut steps);
    }
    found
}

/// Whether a catalogue has a thousand entries, and they are found.
fn has_thousand(alloc: Global, catalogue: &Catalogue) -> bool {
    catalogue.len() == 1000 && finds_thousand::<Brand>(alloc, catalogue, Blank::new(1))
}

/// Whether the entries are found with an index and without one.
fn has_thousand_by_both(alloc: Global) -> bool {
    match numbered_catalogue(alloc, 1000, 3) {
        Some(mut catalogue) => {
            has_thousand(alloc, &catalogue)
                && catalogue.index(alloc).is_ok()
                && has_thousand(alloc, &catalogue)
        }
        None => false,
    }
}

#[test]
fn finds_among_a_thousand(rt: HostRuntime) {
    assert!(rt; has_thousand_by_both(rt.alloc()));
}

/// A look-up, and the text that it gives: its context and its number, which may be missing, and its msgid, whose plural
/// is `as`.
type Row = (
    Option<&'static str>,
    &'static str,
    Option<u64>,
    &'static str,
);

/// Whether a look-up gives its text.
fn gives(catalogue: &Catalogue, row: Row) -> bool {
    let (context, id, n, wanted) = row;
    let found = match (context, n) {
        (Some(context), _) => catalogue.pgettext(context, id),
        (None, Some(n)) => catalogue.ngettext(id, "as", n),
        (None, None) => catalogue.gettext(id),
    };
    found == wanted
}

/// Whether each of these look-ups gives its text.
fn gives_each(catalogue: &Catalogue, rows: &[Row]) -> bool {
    for row in rows {
        if !gives(catalogue, *row) {
            return false;
        }
    }
    true
}

/// Whether that is so in the catalogue of a text, with an index and without one.
fn gives_each_by_both(alloc: Global, text: &[u8], rows: &[Row]) -> bool {
    match catalogue_of(alloc, text) {
        Some(mut catalogue) => {
            gives_each(&catalogue, rows)
                && catalogue.index(alloc).is_ok()
                && gives_each(&catalogue, rows)
        }
        None => false,
    }
}

/// Keys are equal only if their bytes are.
const CONTEXT_TEXTS: &[Row] = &[
    (Some("c"), "a", None, "x"),
    (Some(""), "a", None, "y"),
    (None, "a", None, "z"),
    (None, "a", Some(2), "w"),
    (None, "c\u{4}a", None, "x"),
    (None, "\u{4}a", None, "y"),
    (Some("c\u{4}a"), "a", None, "a"),
    (Some(""), "\u{4}a", None, "\u{4}a"),
    (None, "a\0as", None, "a\0as"),
    (None, "as", None, "as"),
    (None, "", None, ""),
];

const IN_CONTEXTS: &[u8] = b"msgctxt \"c\"\nmsgid \"a\"\nmsgstr \"x\"\n\
    msgctxt \"\"\nmsgid \"a\"\nmsgstr \"y\"\n\
    msgid \"a\"\nmsgid_plural \"as\"\nmsgstr[0] \"z\"\nmsgstr[1] \"w\"\n";

/// The hash function has a fixed seed, so keys can be chosen that share a hash: in the context `euf`, the first eight
/// bytes of these msgids make a factor of the hasher's product zero, so the next eight don't count, and their last
/// sixteen are equal.
const HASH_A: &str = "EZ1T{u9^aaaaaaaathe same end of.";

const HASH_B: &str = "EZ1T{u9^bbbbbbbbthe same end of.";

const HASH_C: &str = "EZ1T{u9^ccccccccthe same end of.";

const HASH_D: &str = "EZ1T{u9^ddddddddthe same end of.";

/// The first three of these keys are found and the fourth isn't, and so are keys that differ only in where the context
/// ends, or in whether there is one.
const HASH_TEXTS: &[Row] = &[
    (Some("euf"), HASH_A, None, "1"),
    (Some("euf"), HASH_B, None, "2"),
    (Some("euf"), HASH_C, None, "3"),
    (Some("euf"), HASH_D, None, HASH_D),
    (None, HASH_A, None, HASH_A),
    (Some("ab"), "c", None, "4"),
    (Some("a"), "bc", None, "5"),
    (Some(""), "abc", None, "6"),
    (None, "abc", None, "7"),
];

const HASHED: &[u8] = b"msgctxt \"euf\"\nmsgid \"EZ1T{u9^aaaaaaaathe same end of.\"\nmsgstr \"1\"\n\
    msgctxt \"euf\"\nmsgid \"EZ1T{u9^bbbbbbbbthe same end of.\"\nmsgstr \"2\"\n\
    msgctxt \"euf\"\nmsgid \"EZ1T{u9^ccccccccthe same end of.\"\nmsgstr \"3\"\n\
    msgctxt \"ab\"\nmsgid \"c\"\nmsgstr \"4\"\n\
    msgctxt \"a\"\nmsgid \"bc\"\nmsgstr \"5\"\n\
    msgctxt \"\"\nmsgid \"abc\"\nmsgstr \"6\"\n\
    msgid \"abc\"\nmsgstr \"7\"\n";

#[test]
fn tells_keys_apart(rt: HostRuntime) {
    assert!(rt; gives_each_by_both(rt.alloc(), IN_CONTEXTS, CONTEXT_TEXTS));
    assert!(rt; gives_each_by_both(rt.alloc(), HASHED, HASH_TEXTS));
}

fn finds_nothing(catalogue: &Catalogue) -> bool {
    catalogue.is_empty()
        && catalogue.find(None, "").is_none()
        && catalogue.pgettext("c", "a") == "a"
}

/// Whether an empty catalogue with an index finds nothing.
fn finds_nothing_by_index(alloc: Global) -> bool {
    match catalogue_of(alloc, b"") {
        Some(mut catalogue) => catalogue.index(alloc).is_ok() && finds_nothing(&catalogue),
        None => false,
    }
}

#[test]
fn finds_nothing_by_an_empty_index(rt: HostRuntime) {
    assert!(rt; finds_nothing_by_index(rt.alloc()));
}

/// Whether `find` and the four look-ups return the right results for the key of a number.
fn looks_up(catalogue: &Catalogue, key: &str) -> bool {
    let Some(digits) = key.strip_prefix('k') else {
        return false;
    };
    is_found(catalogue, key, Some(digits))
        && catalogue.gettext(key) == digits
        && catalogue.ngettext(key, "plural", 1) == digits
        && catalogue.pgettext("z", key) == key
        && catalogue.npgettext("z", key, "plural", 1) == key
}

/// Whether the key of a number is looked up correctly.
fn looks_up_number(alloc: Global, catalogue: &Catalogue, n: u32) -> bool {
    let mut key = String::new(alloc);
    push_key(&mut key, n, 6).is_ok() && looks_up(catalogue, key.as_str())
}

/// Whether a catalogue has half a million entries, and all are looked up correctly.
fn looks_up_each(alloc: Global, catalogue: &Catalogue) -> bool {
    for n in 0..500_000 {
        if !looks_up_number(alloc, catalogue, n) {
            return false;
        }
    }
    catalogue.len() == 500_000
}

/// Whether that is so with an index and without one.
fn looks_up_by_both(alloc: Global) -> bool {
    match numbered_catalogue(alloc, 500_000, 6) {
        Some(mut catalogue) => {
            looks_up_each(alloc, &catalogue)
                && catalogue.index(alloc).is_ok()
                && looks_up_each(alloc, &catalogue)
        }
        None => false,
    }
}

/// A look-up that scanned the entries wouldn't finish in the time of a test.
#[test]
fn looks_up_among_half_a_million(rt: HostRuntime) {
    assert!(rt; looks_up_by_both(rt.alloc()));
}

/// Whether a text's catalogue has this file.
fn has_file(alloc: Global, text: &[u8], wanted: &[u8]) -> bool {
    match catalogue_of(alloc, text) {
        Some(catalogue) => catalogue.file() == wanted,
        None => false,
    }
}

/// The file of two entries, byte by byte as the format defines it.
#[test]
fn keeps_its_file(rt: HostRuntime) {
    let text: &[u8] =
        b"msgid \"b\"\nmsgid_plural \"bs\"\nmsgstr[0] \"x\"\nmsgstr[1] \"\"\nmsgid \"a\"\nmsgstr \"y\"\n";
    let wanted: &[u8] = b"\xde\x12\x04\x95\0\0\0\0\x02\0\0\0\x1c\0\0\0\x2c\0\0\0\0\0\0\0\x3c\0\0\0\
        \x01\0\0\0\x3c\0\0\0\x04\0\0\0\x3e\0\0\0\x01\0\0\0\x43\0\0\0\x02\0\0\0\x45\0\0\0\
        a\0b\0bs\0y\0x\0\0";
    assert!(rt; has_file(rt.alloc(), text, wanted));
}
