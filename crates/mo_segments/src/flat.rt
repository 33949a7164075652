//! Writes the flat file of messages: the MO file of revision 0 with the same messages (GNU gettext manual, "MO Files").
ghost use Rattle.std.specs.Prelude.{◌≡◌, ◌+◌, ◌*◌, ◌^◌, ◌<◌, ◌≤◌, ◌++◌, length, IfOk, OnOk, MatchOption};
ghost use Rattle.mo_image.specs.MoFile.{header_len, word, with_nul, pool, pairs, header, most_file};
ghost use Rattle.mo_segments.specs.MessageStrings.{strings_of};
ghost use Rattle.mo_segments.specs.Flat.{flat_file};
ghost use Rattle.mo_segments.specs.Writing.{side_of, sides_of};

use crate::messages::Strings;
use byteorder::{ByteOrder, LittleEndian};
use mo_image::{HEADER_LEN, MAGIC, MAX_LEN, ROW_LEN};
use std::alloc::{AllocError, Global};

/// The two strings of a message.
#[derive(Clone, Copy)]
enum Side {
    Original,
    Translation,
}

/// The string of one side.
fn of_side(message: &Strings, side: Side) -> &[u8]
    ensures { result.now ≡ side_of side message.now }
{
    match side {
        Side::Original => message.original.as_slice(),
        Side::Translation => message.translation.as_slice(),
    }
}

/// Appends a little-endian word of 32 bits.
fn push_word(out: &mut Vec<u8>, n: usize) -> Result<(), AllocError>
    requires { n < 2 ^ 32 }
    ensures { OnOk result (out.new.items ≡ out.old.items ++ word n) }
{
    let mut bytes = [0; 4];
    LittleEndian::write_u32(&mut bytes, n as u32);
    out.extend_from_slice(&bytes)
}

/// The length of the strings of one side, each with a NUL after it, if it is at most `most`.
fn pool_len(messages: &[Strings], which: Side, most: usize) -> Option<usize>
    requires { most ≤ most_file }
    ensures { MatchOption result (most < length (pool (sides_of which messages.now)))
        (λ n. (n ≡ length (pool (sides_of which messages.now))) × (n ≤ most)) }
{
    let mut len = 0;
    'messages: for i in 0..messages.len() {
        len += of_side(&messages[i], which).len() + 1;
        if most < len {
            return None;
        }
    }
    Some(len)
}

/// Appends the table of one side, whose strings begin at the offset `at`.
fn push_pairs(
    out: &mut Vec<u8>,
    messages: &[Strings],
    which: Side,
    mut at: usize,
) -> Result<(), AllocError>
    requires { at + length (pool (sides_of which messages.now)) < 2 ^ 32 }
    ensures { OnOk result (out.new.items ≡ out.old.items ++ pairs at (sides_of which messages.now)) }
{
    'messages: for i in 0..messages.len() {
        let len = of_side(&messages[i], which).len();
        push_word(out, len)?;
        push_word(out, at)?;
        at += len + 1;
    }
    Ok(())
}

/// Appends the strings of one side, each with a NUL after it.
fn push_pool(out: &mut Vec<u8>, messages: &[Strings], which: Side) -> Result<(), AllocError>
    ensures { OnOk result (out.new.items ≡ out.old.items ++ pool (sides_of which messages.now)) }
{
    'messages: for i in 0..messages.len() {
        out.extend_from_slice(of_side(&messages[i], which))?;
        out.push(0)?;
    }
    Ok(())
}

/// Appends the header of a file of `n` messages and no hash table.
fn push_header(out: &mut Vec<u8>, n: usize) -> Result<(), AllocError>
    requires { header_len + 16 * n < 2 ^ 32 }
    ensures { OnOk result (out.new.items ≡ out.old.items ++ header n) }
{
    push_word(out, MAGIC as usize)?;
    push_word(out, 0)?;
    push_word(out, n)?;
    push_word(out, HEADER_LEN)?;
    push_word(out, HEADER_LEN + ROW_LEN * n)?;
    push_word(out, 0)?;
    push_word(out, HEADER_LEN + 2 * ROW_LEN * n)
}

/// Writes the flat file. None if it would have more than 268,435,456 bytes.
pub fn write_flat(alloc: Global, messages: &[Strings]) -> Result<Option<Vec<u8>>, AllocError>
    ensures { let file = flat_file (strings_of messages.now) in
        IfOk result (λ r. MatchOption r (most_file < length file) (λ v. (v.items ≡ file) × (length file ≤ most_file))) }
{
    let n = messages.len();
    if (MAX_LEN - HEADER_LEN) / (2 * ROW_LEN) < n {
        return Ok(None);
    }
    let first = HEADER_LEN + 2 * ROW_LEN * n;
    let Some(originals) = pool_len(messages, Side::Original, MAX_LEN - first) else {
        return Ok(None);
    };
    let second = first + originals;
    let Some(translations) = pool_len(messages, Side::Translation, MAX_LEN - second) else {
        return Ok(None);
    };
    let mut out = Vec::with_capacity(alloc, second + translations)?;
    push_header(&mut out, n)?;
    push_pairs(&mut out, messages, Side::Original, first)?;
    push_pairs(&mut out, messages, Side::Translation, second)?;
    push_pool(&mut out, messages, Side::Original)?;
    push_pool(&mut out, messages, Side::Translation)?;
    Ok(Some(out))
}
