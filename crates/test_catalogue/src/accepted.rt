//! Messages that a catalogue can be made of, and messages that it can't. The expected results were worked out by hand
//! from the rules.
//!
//! A list of messages is a single string: `/` separates messages, and `|` separates a message's context, msgid,
//! msgid_plural and forms. `-` means no context or no plural.
use catalogue::{Catalogue, Message};
use std::alloc::{AllocError, Global};
use std::str;

/// Lists, and whether they are accepted.
const LISTS: &[(&str, bool)] = &[
    ("", true),
    ("-|a|-|x/-|ba|-|xx", true),
    ("-|a|-|", true),
    // Forms: any number with a plural, and byte 4 in plurals and forms.
    ("-|a|b\u{4}|x\u{4}", true),
    ("-|a|b|x|y||z", true),
    // Headers.
    ("-||-|charset=utf-8\n", true),
    ("-||-|charset=CHARSET/-|a|-|x", true),
    ("-||-|", true),
    // A charset outside the header.
    ("-|a|-|charset=KOI8-R", true),
    ("||-|charset=KOI8-R", true),
    // Byte 4 follows a context, so these keys rise.
    ("|b|-|x/-|b|-|2/k|b|-|x", true),
    (
        "a\u{1}|z|-|x/a|a|-|x/a|b|-|x/a\u{5}|a|-|x/-|a\u{5}a|-|x",
        true,
    ),
    // The order of the keys.
    ("-|b|-|x/-|a|-|x", false),
    ("-|a|-|x/-|a|-|y", false),
    ("-|a|-|x/-|c|-|x/-|b|-|x", false),
    ("k|b|-|x/k|b|-|x", false),
    ("-|b|-|x/|b|-|x", false),
    ("a|z|-|x/a\u{1}|a|-|x", false),
    ("a\u{5}|a|-|x/a|z|-|x", false),
    ("-|ab|-|x/a|z|-|x", false),
    // The number of forms.
    ("-|a|-|x|y", false),
    ("-|a|-", false),
    ("-|a|b", false),
    // Bytes.
    ("-|a|-|x\0", false),
    ("-|\0|-|x", false),
    ("-|a|\0|x", false),
    ("k\0|a|-|x", false),
    ("-|a\u{4}b|-|x", false),
    ("k\u{4}|a|-|x", false),
    // The charset.
    ("-||-|charset=KOI8-R", false),
];

fn owned(alloc: Global, text: Option<&str>) -> Result<Option<String>, AllocError> {
    match text {
        None | Some("-") => Ok(None),
        Some(text) => Ok(Some(String::from_str(alloc, text)?)),
    }
}

/// The forms that are left of a message's fields.
fn forms_of(alloc: Global, fields: &mut str::Split<char>) -> Result<Vec<String>, AllocError> {
    let mut forms = Vec::new(alloc);
    for form in fields {
        forms.push(String::from_str(alloc, form)?)?;
    }
    Ok(forms)
}

fn message(alloc: Global, text: &str) -> Result<Message, AllocError> {
    let mut fields = text.split('|');
    let (context, id, plural) = (fields.next(), fields.next(), fields.next());
    Ok(Message {
        context: owned(alloc, context)?,
        id: String::from_str(alloc, id.unwrap_or(""))?,
        plural: owned(alloc, plural)?,
        forms: forms_of(alloc, &mut fields)?,
    })
}

fn messages(alloc: Global, list: &str) -> Result<Vec<Message>, AllocError> {
    let mut messages = Vec::new(alloc);
    if !list.is_empty() {
        for text in list.split('/') {
            messages.push(message(alloc, text)?)?;
        }
    }
    Ok(messages)
}

/// Whether a list of messages is accepted, or `None` if memory runs out.
fn accepts(alloc: Global, list: &str) -> Option<bool> {
    match messages(alloc, list) {
        Ok(messages) => Some(Catalogue::accepts(messages.as_slice())),
        Err(_) => None,
    }
}

/// The first list that is judged otherwise.
fn wrong_list(alloc: Global) -> Option<&'static str> {
    for (list, wanted) in LISTS {
        if accepts(alloc, list) != Some(*wanted) {
            return Some(*list);
        }
    }
    None
}

#[test]
fn accepts_lawful_messages_alone(rt: HostRuntime) {
    let wrong = wrong_list(rt.alloc());
    assert!(rt; wrong.is_none(), "{wrong:?}");
}

/// A text of `len` bytes, or `None` if memory runs out.
fn long_text(alloc: Global, len: usize) -> Option<String> {
    match vec![in alloc; b'x'; len] {
        Ok(bytes) => String::from_utf8(bytes).ok(),
        Err(_) => None,
    }
}

/// Gives the first message one more form of `len` bytes, or returns `false` if memory runs out.
fn push_long(alloc: Global, list: &mut [Message], len: usize) -> bool {
    let Some(message) = list.first_mut() else {
        return false;
    };
    match long_text(alloc, len) {
        Some(text) => message.forms.push(text).is_ok(),
        None => false,
    }
}

/// Whether a message `a` with one form of `len` bytes is accepted, or `None` if memory runs out.
fn accepts_long(alloc: Global, len: usize) -> Option<bool> {
    match messages(alloc, "-|a|-") {
        Ok(mut list) => {
            if push_long(alloc, &mut list, len) {
                Some(Catalogue::accepts(&list))
            } else {
                None
            }
        }
        Err(_) => None,
    }
}

/// The file has a header of 28 bytes, two rows of 8, and `a` and the form, each with a NUL after it.
#[test]
fn accepts_by_size(rt: HostRuntime) {
    assert!(rt; accepts_long(rt.alloc(), 268_435_409) == Some(true));
    assert!(rt; accepts_long(rt.alloc(), 268_435_410) == Some(false));
}

/// Whether `a` has the forms `x` and `y`.
fn has_forms(catalogue: &Catalogue) -> bool {
    catalogue.len() == 2
        && catalogue.gettext("a") == "x"
        && catalogue.ngettext("a", "b", 1) == "x"
        && catalogue.ngettext("a", "b", 2) == "y"
}

/// Whether these messages are accepted, and make a catalogue where `a` has the forms `x` and `y`.
fn makes_forms(alloc: Global, list: Vec<Message>) -> bool {
    if !Catalogue::accepts(list.as_slice()) {
        return false;
    }
    match Catalogue::from_sorted(alloc, list) {
        Ok(catalogue) => has_forms(&catalogue),
        Err(_) => false,
    }
}

/// Whether a list of messages is accepted, and makes such a catalogue.
fn makes_catalogue(alloc: Global, list: &str) -> bool {
    match messages(alloc, list) {
        Ok(messages) => makes_forms(alloc, messages),
        Err(_) => false,
    }
}

#[test]
fn makes_a_catalogue_of_what_is_accepted(rt: HostRuntime) {
    let list = "-||-|Plural-Forms: nplurals=2; plural=n>1;\n/-|a|b|x|y";
    assert!(rt; makes_catalogue(rt.alloc(), list));
}
