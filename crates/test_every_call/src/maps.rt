//! Calls of `compile` and `from_sorted`.
use crate::printing::{print_entries, print_hex, print_uncalled};
use crate::texts::{PLAIN, PLIK, SALUT, TWICE};
use catalogue::{Catalogue, Compiled, Message, Options, compile};
use std::alloc::{AllocError, Global};
use std::io;

/// The options with the checks of `msgfmt -c`.
const CHECKED: Options = Options {
    checked: true,
    use_fuzzy: false,
};

const SWAPPED: &str = "#, c-format\nmsgid \"%d of %s\"\nmsgstr \"%2$s / %1$d\"\n";

const UNSIGNED: &str = "#, c-format\nmsgid \"%d of %s\"\nmsgstr \"%u of %s\"\n";

const ONE_FILE: &str = "msgid \"\"\nmsgstr \"nplurals=2; plural=n!=1;\"\n\
    #, c-format\nmsgid \"one file\"\nmsgid_plural \"%d files\"\nmsgstr[0] \"one file\"\nmsgstr[1] \"%d files\"\n";

const PRI: &str = "#, c-format\nmsgid \"%<PRId64>\"\nmsgstr \"x\"\n";

const NEWLINE: &str = "msgid \"a\\n\"\nmsgstr \"b\"\n";

/// PO texts, each with its label and its options.
const TEXTS: &[(&str, &str, Options)] = &[
    ("an entry", SALUT, PLAIN),
    ("an entry, checked", SALUT, CHECKED),
    ("nothing", "", PLAIN),
    ("an entry twice", TWICE, PLAIN),
    ("three forms", PLIK, PLAIN),
    ("three forms, checked", PLIK, CHECKED),
    ("arguments in another order, checked", SWAPPED, CHECKED),
    ("an argument of another kind, checked", UNSIGNED, CHECKED),
    ("an argument of another kind", UNSIGNED, PLAIN),
    ("a form without arguments, checked", ONE_FILE, CHECKED),
    ("a system-dependent format, checked", PRI, CHECKED),
    ("a system-dependent format", PRI, PLAIN),
    ("a missing newline, checked", NEWLINE, CHECKED),
];

/// Prints a catalogue's entries and its file, and ends the line.
fn print_catalogue<R: Print>(rt: &R, catalogue: &Catalogue) -> io::Result<()> {
    print_entries(rt, catalogue)?;
    print!(rt; "; ")?;
    print_hex(rt, catalogue.file())?;
    println!(rt; ")")
}

/// Prints what is returned for a text that is compiled.
fn print_compiled<R: Print>(rt: &R, compiled: &Compiled) -> io::Result<()> {
    print!(rt;
        "Ok({:?}, {:?}, {}",
        compiled.stats, compiled.missing, compiled.header_line
    )?;
    print_catalogue(rt, &compiled.catalogue)
}

/// Compiles a text, and prints the result.
fn compile_one<R: Print + AllocGlobal>(
    rt: &R,
    label: &str,
    text: &str,
    options: Options,
) -> io::Result<()> {
    print!(rt; "compile, {label}, gives ")?;
    match compile(rt.alloc(), text.as_bytes(), options) {
        Ok(compiled) => print_compiled(rt, &compiled),
        Err(fault) => println!(rt; "Err({fault:?})"),
    }
}

/// The group `compile`.
pub fn compile_all<R: Print + AllocGlobal>(rt: &R) -> io::Result<()> {
    for (label, text, options) in TEXTS {
        compile_one(rt, label, text, *options)?;
    }
    Ok(())
}

/// The strings of a message: its context, its msgid, its plural and its forms.
type Strings = (
    Option<&'static str>,
    &'static str,
    Option<&'static str>,
    &'static [&'static str],
);

/// The strings of messages in ascending order, with a label.
const LISTS: &[(&str, &[Strings])] = &[
    ("nothing", &[]),
    (
        "two messages",
        &[(None, "a", None, &["x"]), (None, "ba", None, &["xx"])],
    ),
    (
        "contexts",
        &[
            (Some(""), "b", None, &["1"]),
            (None, "b", None, &["2"]),
            (Some("k"), "b", None, &["3"]),
        ],
    ),
    (
        "three forms",
        &[(None, "file", Some("files"), &["plik", "pliki", "plikow"])],
    ),
];

/// An owned copy of a string, if there is one.
fn owned(alloc: Global, text: Option<&str>) -> Result<Option<String>, AllocError> {
    match text {
        Some(text) => Ok(Some(String::from_str(alloc, text)?)),
        None => Ok(None),
    }
}

/// Owned copies of strings.
fn owned_all(alloc: Global, texts: &[&str]) -> Result<Vec<String>, AllocError> {
    let mut copies = Vec::new(alloc);
    for text in texts {
        copies.push(String::from_str(alloc, text)?)?;
    }
    Ok(copies)
}

/// The message with these strings.
fn message_of(alloc: Global, strings: &Strings) -> Result<Message, AllocError> {
    let (context, id, plural, forms) = *strings;
    Ok(Message {
        context: owned(alloc, context)?,
        id: String::from_str(alloc, id)?,
        plural: owned(alloc, plural)?,
        forms: owned_all(alloc, forms)?,
    })
}

/// The messages with these strings.
fn messages_of(alloc: Global, list: &[Strings]) -> Result<Vec<Message>, AllocError> {
    let mut messages = Vec::new(alloc);
    for strings in list {
        messages.push(message_of(alloc, strings)?)?;
    }
    Ok(messages)
}

/// Prints what a call returned that makes a catalogue.
pub fn print_made<R: Print>(rt: &R, made: &Result<Catalogue, AllocError>) -> io::Result<()> {
    match made {
        Ok(catalogue) => {
            print!(rt; "gives Ok(")?;
            print_catalogue(rt, catalogue)
        }
        Err(fault) => println!(rt; "gives Err({fault:?})"),
    }
}

/// Makes a catalogue of messages, and prints the result.
fn sort<R: Print + AllocGlobal>(rt: &R, messages: Vec<Message>) -> io::Result<()> {
    if !Catalogue::accepts(&messages) {
        return println!(rt; "isn't called: not accepted");
    }
    print_made(rt, &Catalogue::from_sorted(rt.alloc(), messages))
}

/// Makes a catalogue of messages with these strings, and prints the result.
fn sort_one<R: Print + AllocGlobal>(rt: &R, label: &str, list: &[Strings]) -> io::Result<()> {
    print!(rt; "from_sorted, {label}, ")?;
    match messages_of(rt.alloc(), list) {
        Ok(messages) => sort(rt, messages),
        Err(_) => print_uncalled(rt),
    }
}

/// The group `from_sorted`.
pub fn sorted_all<R: Print + AllocGlobal>(rt: &R) -> io::Result<()> {
    for (label, list) in LISTS {
        sort_one(rt, label, list)?;
    }
    Ok(())
}
