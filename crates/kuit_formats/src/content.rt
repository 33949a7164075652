//! Content: elements, and what stands between their tags.
ghost use Rattle.std.specs.Prelude.{◌≡◌, ◌<◌, ◌↔◌, ℕ, List, [], ◌∷◌, ◌≢◌, length, IsTrue, IsFalse, IfOk, OnOk};
ghost use Rattle.std.specs.Prelude.{MatchOption, IfSome, if◌then◌else◌};
ghost use Rattle.kuit_formats.specs.KuitMarkup.{IsMarkup, IsContent};
ghost use Rattle.kuit_formats.specs.KuitReading.{Closes, Opens, waiting_names};

use crate::attributes::read_tag;
use crate::characters::are_characters;
use crate::tokens::{Token, read_token};
use std::alloc::{AllocError, Global};

/// Closes the element that was opened last, if it has this name.
fn close(opened: &mut Vec<&[u8]>, name: &[u8]) -> bool
    ensures yes { IsTrue result → waiting_names opened.old.items ≡ name.now ∷ waiting_names opened.new.items }
    ensures no { IsFalse result → (names : List (List ℕ)) → waiting_names opened.old.items ≢ name.now ∷ names }
{
    match opened.pop() {
        Some(last) => last == name,
        None => false,
    }
}

/// Opens an element, unless it is empty.
fn open_unless<'a>(
    empty: bool,
    opened: &mut Vec<&'a [u8]>,
    name: &'a [u8],
) -> Result<(), AllocError>
    ensures { OnOk result (waiting_names opened.new.items
        ≡ (if empty then waiting_names opened.old.items else name.now ∷ waiting_names opened.old.items)) }
{
    if empty {
        return Ok(());
    }
    opened.push(name)?;
    Ok(())
}

/// Reads a start-tag from after its name, and opens its element, unless that is empty.
fn open_element<'a>(
    alloc: Global,
    opened: &mut Vec<&'a [u8]>,
    name: &'a [u8],
    text: &'a [u8],
) -> Result<Option<&'a [u8]>, AllocError>
    ensures opens { IfOk result (λ found. Opens name.now text.now (waiting_names opened.old.items)
        (waiting_names opened.new.items)
        found) }
    ensures within { IfOk result (λ found. IfSome found (λ rest. length rest.now < length text.now)) }
{
    match read_tag(alloc, text)? {
        Some((empty, rest)) => {
            open_unless(empty, opened, name)?;
            Ok(Some(rest))
        }
        None => Ok(None),
    }
}

/// Reads what comes next. None: whatever follows it, the text isn't the content of the open elements.
fn read_next<'a>(
    alloc: Global,
    opened: &mut Vec<&'a [u8]>,
    text: &'a [u8],
) -> Result<Option<&'a [u8]>, AllocError>
    requires { text.now ≢ [] }
    ensures next { IfOk result (λ found. MatchOption found (¬ Closes (waiting_names opened.old.items) text.now)
        (λ rest. Closes (waiting_names opened.old.items) text.now ↔ Closes (waiting_names opened.new.items) rest.now)) }
    ensures within { IfOk result (λ found. IfSome found (λ rest. length rest.now < length text.now)) }
{
    match read_token(text) {
        Some(Token::Item(rest)) => Ok(Some(rest)),
        Some(Token::Start(name, rest)) => open_element(alloc, opened, name, rest),
        Some(Token::End(name, rest)) => if close(opened, name) {
            Ok(Some(rest))
        } else {
            Ok(None)
        },
        None => Ok(None),
    }
}

fn is_content(alloc: Global, text: &[u8]) -> Result<bool, AllocError>
    ensures { IfOk result (λ is. IsTrue is ↔ IsContent text.now) }
{
    let mut opened = Vec::new(alloc);
    let mut rest = text;
    'tokens: while !rest.is_empty() {
        match read_next(alloc, &mut opened, rest)? {
            Some(after) => rest = after,
            None => return Ok(false),
        }
    }
    Ok(opened.is_empty())
}

/// Whether a text is well-formed markup. The only error is a failed allocation.
pub(crate) fn is_markup(alloc: Global, text: &[u8]) -> Result<bool, AllocError>
    ensures { IfOk result (λ is. IsTrue is ↔ IsMarkup text.now) }
{
    if are_characters(text) {
        is_content(alloc, text)
    } else {
        Ok(false)
    }
}
