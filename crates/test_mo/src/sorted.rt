//! Files of messages that are sorted already. The expected results were written by hand from the format.
use crate::files::{EMPTY, WRITTEN, is_written};
use catalogue::{Catalogue, Message};
use std::alloc::{AllocError, Global};

/// The forms of a message that has one.
fn one_form(alloc: Global, form: &str) -> Result<Vec<String>, AllocError> {
    let mut forms = Vec::new(alloc);
    forms.push(String::from_str(alloc, form)?)?;
    Ok(forms)
}

/// Makes a message without a context or a plural.
fn plain(alloc: Global, id: &str, form: &str) -> Result<Message, AllocError> {
    Ok(Message {
        context: None,
        id: String::from_str(alloc, id)?,
        plural: None,
        forms: one_form(alloc, form)?,
    })
}

/// Makes messages of their msgids and translations.
fn messages(alloc: Global, rows: &[(&str, &str)]) -> Result<Vec<Message>, AllocError> {
    let mut messages = Vec::new(alloc);
    for (id, form) in rows {
        messages.push(plain(alloc, id, form)?)?;
    }
    Ok(messages)
}

/// The catalogue of messages, if they are accepted.
fn catalogue_of(alloc: Global, messages: Vec<Message>) -> Option<Catalogue> {
    if Catalogue::accepts(messages.as_slice()) {
        Catalogue::from_sorted(alloc, messages).ok()
    } else {
        None
    }
}

/// Whether messages that rise are accepted, and the file of their catalogue is this one.
fn has_file(alloc: Global, rows: &[(&str, &str)], wanted: &[u8]) -> bool {
    let catalogue = match messages(alloc, rows) {
        Ok(messages) => catalogue_of(alloc, messages),
        Err(_) => None,
    };
    match catalogue {
        Some(catalogue) => is_written(alloc, &catalogue, wanted),
        None => false,
    }
}

#[test]
fn files_of_sorted_messages(rt: HostRuntime) {
    assert!(rt; has_file(rt.alloc(), &[], EMPTY));
    assert!(rt; has_file(rt.alloc(), &[("a", "x"), ("ba", "xx")], WRITTEN));
}
