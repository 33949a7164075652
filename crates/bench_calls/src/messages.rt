//! The messages that fill the store, and the queries for them.
use catalogue::Options;
use live_set::{Ask, Query};
use std::alloc::{AllocError, Global};

/// The options to compile with: no checks, and no fuzzy messages.
pub const PLAIN: Options = Options {
    checked: false,
    use_fuzzy: false,
};

/// The number of languages, each with a catalogue of its own.
pub const LANGUAGES: u32 = 20;

/// The name of a language's locale.
pub fn locale_of(alloc: Global, language: u32) -> Result<String, AllocError> {
    format!(in alloc; "l{language}")
}

/// The translation of a message in a language.
pub fn translation_of(alloc: Global, language: &str, id: &str) -> Result<String, AllocError> {
    format!(in alloc; "{id} in {language}")
}

/// The entry of a message for a locale or, without a locale, of one of the other messages.
fn entry_of(alloc: Global, locale: Option<&str>, message: u32) -> Result<String, AllocError> {
    match locale {
        Some(locale) => format!(in alloc;
            "msgid \"message {message}\"\nmsgstr \"message {message} in {locale}\"\n"
        ),
        None => format!(in alloc; "msgid \"other {message}\"\nmsgstr \"other\"\n"),
    }
}

/// Adds an entry to a text.
fn push_entry(
    alloc: Global,
    text: &mut String,
    locale: Option<&str>,
    message: u32,
) -> Result<(), AllocError> {
    let entry = entry_of(alloc, locale, message)?;
    text.push_str(&entry)
}

/// A PO text of `messages` entries.
fn text_of(alloc: Global, locale: Option<&str>, messages: u32) -> Result<String, AllocError> {
    let mut text = String::new(alloc);
    'messages: for message in 0..messages {
        push_entry(alloc, &mut text, locale, message)?;
    }
    Ok(text)
}

/// A PO text for a language, with `messages` messages.
pub fn po_text(alloc: Global, language: u32, messages: u32) -> Result<String, AllocError> {
    let locale = locale_of(alloc, language)?;
    text_of(alloc, Some(locale.as_str()), messages)
}

/// A PO text with `messages` other messages.
pub fn other_text(alloc: Global, messages: u32) -> Result<String, AllocError> {
    text_of(alloc, None, messages)
}

/// What is asked for: `count` queries, each for one of the messages in one of the languages.
#[derive(Clone, Copy)]
pub struct Asked {
    pub languages: u32,
    pub messages: u32,
    pub count: u32,
}

/// A query for a message, by a list of languages.
fn query_of(alloc: Global, before: &str, language: u64, message: u64) -> Result<Query, AllocError> {
    Ok(Query {
        domain: String::from_str(alloc, "app")?,
        languages: format!(in alloc; "{before}l{language}")?,
        ask: Ask::Plain {
            id: format!(in alloc; "message {message}")?,
        },
    })
}

/// Queries for pseudo-random messages. Each has a list of languages that begins with `before` and ends with one of
/// those asked for.
pub fn queries(alloc: Global, asked: Asked, before: &str) -> Result<Vec<Query>, AllocError> {
    let mut all = Vec::new(alloc);
    let mut state: u64 = 1;
    'queries: for _ in 0..asked.count {
        state = state
            .wrapping_mul(6_364_136_223_846_793_005)
            .wrapping_add(1_442_695_040_888_963_407);
        let message = (state >> 33) % u64::from(asked.messages.max(1));
        let language = (state >> 40) % u64::from(asked.languages.max(1));
        all.push(query_of(alloc, before, language, message)?)?;
    }
    Ok(all)
}
