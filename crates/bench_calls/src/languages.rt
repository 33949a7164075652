//! Filling the store: a catalogue for each language.
ghost use Rattle.std.specs.Prelude.{◌≡◌};

use crate::messages::{LANGUAGES, PLAIN, locale_of, po_text};
use live_versions::Publisher;
use std::alloc::{AllocError, Global};
use std::sync::Wait;

/// Loads a catalogue of `messages` messages for a language, and returns whether it was accepted.
fn load_language(
    alloc: Global,
    publisher: &mut Publisher,
    language: u32,
    messages: u32,
) -> Result<bool, AllocError>
    ensures { publisher.new.seen.book ≡ publisher.old.seen.book }
{
    let text = po_text(alloc, language, messages)?;
    let locale = locale_of(alloc, language)?;
    let loaded = publisher.load(alloc, "app", &locale, text.as_bytes(), PLAIN);
    Ok(loaded.is_ok())
}

/// Publishes a catalogue of `messages` messages for each language, all in one step.
pub fn publish_languages<R: Wait + AllocGlobal>(
    rt: &R,
    publisher: &mut Publisher,
    messages: u32,
) -> Result<bool, AllocError>
    ensures { publisher.new.seen.book ≡ publisher.old.seen.book }
{
    let mut all = true;
    'languages: for language in 0..LANGUAGES {
        all = load_language(rt.alloc(), publisher, language, messages)? && all;
    }
    let published = publisher.publish(rt);
    Ok(all && published.is_ok())
}
