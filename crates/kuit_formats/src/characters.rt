//! Characters, and which of them names have.
ghost use Rattle.std.specs.Prelude.{◌≡◌};
ghost use Rattle.std.specs.List.{list_all};
ghost use Rattle.std.specs.Str.{chars};
ghost use Rattle.kuit_formats.specs.KuitCharacters as spec;

use simdutf8::basic::from_utf8;

/// What a character is to be.
#[derive(Clone, Copy)]
pub(crate) enum Place {
    Text,
    Name,
}

fn in_range(character: u32, low: u32, high: u32) -> bool
    ensures { result ≡ spec.in_range character low high }
{
    low <= character && character <= high
}

/// Whether a text may have the character.
pub(crate) fn is_character(character: u32) -> bool
    ensures { result ≡ spec.is_character character }
{
    character == 0x9
        || character == 0xA
        || character == 0xD
        || in_range(character, 0x20, 0xD7FF)
        || in_range(character, 0xE000, 0xFFFD)
        || in_range(character, 0x1_0000, 0x10_FFFF)
}

/// Whether a name may begin with the character, beyond ASCII.
fn is_wide_name_start(character: u32) -> bool
    ensures { result ≡ spec.is_wide_name_start character }
{
    in_range(character, 0xC0, 0xD6)
        || in_range(character, 0xD8, 0xF6)
        || in_range(character, 0xF8, 0x2FF)
        || in_range(character, 0x370, 0x37D)
        || in_range(character, 0x37F, 0x1FFF)
        || in_range(character, 0x200C, 0x200D)
        || in_range(character, 0x2070, 0x218F)
        || in_range(character, 0x2C00, 0x2FEF)
        || in_range(character, 0x3001, 0xD7FF)
        || in_range(character, 0xF900, 0xFDCF)
        || in_range(character, 0xFDF0, 0xFFFD)
        || in_range(character, 0x1_0000, 0xE_FFFF)
}

fn is_name_start(character: u32) -> bool
    ensures { result ≡ spec.is_name_start character }
{
    character == 0x3A
        || character == 0x5F
        || in_range(character, 0x41, 0x5A)
        || in_range(character, 0x61, 0x7A)
        || is_wide_name_start(character)
}

fn is_name_character(character: u32) -> bool
    ensures { result ≡ spec.is_name_character character }
{
    is_name_start(character)
        || character == 0x2D
        || character == 0x2E
        || in_range(character, 0x30, 0x39)
        || character == 0xB7
        || in_range(character, 0x300, 0x36F)
        || in_range(character, 0x203F, 0x2040)
}

fn may_be_at(place: Place, character: u32) -> bool
    ensures { result ≡ spec.may_be_at place character }
{
    match place {
        Place::Text => is_character(character),
        Place::Name => is_name_character(character),
    }
}

fn all_may_be_at(place: Place, text: &str) -> bool
    ensures { result ≡ list_all (spec.may_be_at place) (chars text.now) }
{
    for character in text.chars() {
        if !may_be_at(place, character as u32) {
            return false;
        }
    }
    true
}

fn begins_name(text: &str) -> bool
    ensures { result ≡ spec.begins_name (chars text.now) }
{
    match text.chars().next() {
        Some(character) => is_name_start(character as u32),
        None => false,
    }
}

/// Whether the bytes are a name.
pub(crate) fn is_name(bytes: &[u8]) -> bool
    ensures { result ≡ spec.is_name bytes.now }
{
    match from_utf8(bytes) {
        Ok(text) => begins_name(text) && all_may_be_at(Place::Name, text),
        Err(_) => false,
    }
}

/// Whether the bytes are UTF-8, of characters that a text may have.
pub(crate) fn are_characters(bytes: &[u8]) -> bool
    ensures { result ≡ spec.are_characters bytes.now }
{
    match from_utf8(bytes) {
        Ok(text) => all_may_be_at(Place::Text, text),
        Err(_) => false,
    }
}
