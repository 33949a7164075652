//! Bytes that C hands over piece by piece, so that they are opened in the library's own memory.
ghost use Rattle.std.specs.Prelude.{[], nat_lt};
ghost use Rattle.c_opening.specs.Opening.{options_of};
ghost use Rattle.c_opening.specs.Handing.{IsExtended, IsHanded, IsOpenedHandedMo, IsOpenedHandedPo};

use crate::opening::{NO_STATS, open_mo, open_owned_po, refused};
use c_answers::Opened;
use c_answers::numbers::{MEMORY, NO_FAULT};
use std::alloc::Global;

/// Bytes that were handed over, and aren't opened yet.
fn handed(bytes: Vec<u8>) -> Opened
    ensures { IsHanded bytes.items result }
{
    Opened {
        catalogue: None,
        file: Some(bytes),
        fault: NO_FAULT,
        line: 0,
        stats: NO_STATS,
    }
}

/// No bytes yet, with room for `len`.
pub fn new_bytes(alloc: Global, len: u64) -> Opened
    ensures { IsHanded [] result }
{
    match Vec::with_capacity(alloc, len as usize) {
        Ok(bytes) => handed(bytes),
        Err(_) => refused(MEMORY, 0),
    }
}

/// Adds a piece to the bytes. Once memory has run out, nothing is added.
pub fn add_piece(piece: &[u8], held: Opened) -> Opened
    ensures { IsExtended held piece.now result }
{
    let Opened { file, .. } = held;
    let Some(mut bytes) = file else {
        return refused(MEMORY, 0)
    };
    match bytes.extend_from_slice(piece) {
        Ok(()) => handed(bytes),
        Err(_) => refused(MEMORY, 0),
    }
}

/// Opens the bytes that were handed over, as `open_mo` does.
pub fn open_handed_mo(alloc: Global, strict: u32, without_index: u32, held: Opened) -> Opened
    ensures { IsOpenedHandedMo held (nat_lt 0 strict) result }
{
    let Opened { file, .. } = held;
    match file {
        Some(bytes) => open_mo(alloc, bytes, strict, without_index),
        None => refused(MEMORY, 0),
    }
}

/// Opens the text that was handed over, as `open_owned_po` does.
pub fn open_handed_po(
    alloc: Global,
    checked: u32,
    use_fuzzy: u32,
    strict: u32,
    without_index: u32,
    held: Opened,
) -> Opened
    ensures { IsOpenedHandedPo held (options_of checked use_fuzzy) (nat_lt 0 strict) result }
{
    let Opened { file, .. } = held;
    match file {
        Some(text) => open_owned_po(alloc, text, checked, use_fuzzy, strict, without_index),
        None => refused(MEMORY, 0),
    }
}
