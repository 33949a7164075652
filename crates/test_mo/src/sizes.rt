//! PO texts and files of many sizes. Any call may run out of memory; here there is enough for all of them.
use crate::lookups::catalogue_with;
use catalogue::Catalogue;
use mo_file::{check, read_mo, reread, write_mo};
use std::alloc::{AllocError, Global};

/// Powers of two and their neighbours, tried in addition to all numbers up to 40.
const SIZES: &[usize] = &[
    63, 64, 65, 127, 128, 129, 255, 256, 257, 511, 512, 513, 1023, 1024, 1025, 2047, 2048, 2049,
    4095, 4096, 4097,
];

/// Appends a PO text of `a` with a translation of this many bytes.
fn push_one(text: &mut String, len: usize) -> Result<(), AllocError> {
    text.push_str("msgid \"a\"\nmsgstr \"")?;
    for _ in 0..len {
        text.push('x')?;
    }
    text.push_str("\"\n")
}

/// Appends a PO text of this many messages, the last key first.
fn push_many(alloc: Global, text: &mut String, count: usize) -> Result<(), AllocError> {
    for number in 0..count {
        let key = 10_000usize.saturating_sub(number);
        text.push_str(format!(in alloc; "msgid \"k{key}\"\nmsgstr \"x\"\n")?.as_str())?;
    }
    Ok(())
}

/// Whether a catalogue has this many entries, and is written as this file and read back with them.
fn is_same(alloc: Global, catalogue: &Catalogue, file: &[u8], count: usize) -> bool {
    match reread(alloc, catalogue) {
        Ok(again) => catalogue.len() == count && again.len() == count && again.file() == file,
        Err(_) => false,
    }
}

/// Whether a file is read with this many entries, and written as the same file again.
fn is_read(alloc: Global, file: &[u8], count: usize) -> bool {
    match read_mo(alloc, file) {
        Ok(catalogue) => is_same(alloc, &catalogue, file, count),
        Err(_) => false,
    }
}

/// Whether the file that is written of a catalogue is read back with this many entries and written as the same file
/// again.
fn is_kept(alloc: Global, catalogue: &Catalogue, count: usize) -> bool {
    match write_mo(alloc, catalogue) {
        Ok(file) => check(alloc, &file).is_ok() && is_read(alloc, &file, count),
        Err(_) => false,
    }
}

/// Whether a text compiles to this many entries with a translation of `a` of this length, and is kept.
fn compiles(alloc: Global, text: &str, count: usize, len: usize) -> bool {
    match catalogue_with(alloc, text, false, false) {
        Some(catalogue) => {
            catalogue.len() == count
                && catalogue.gettext("a").len() == len
                && is_kept(alloc, &catalogue, count)
        }
        None => false,
    }
}

/// Whether a text of one message with a translation of this length is kept.
fn keeps_one(alloc: Global, len: usize) -> bool {
    let mut text = String::new(alloc);
    push_one(&mut text, len).is_ok() && compiles(alloc, text.as_str(), 1, len)
}

/// Whether a text of this many messages, of which none is `a`, is kept.
fn keeps_many(alloc: Global, count: usize) -> bool {
    let mut text = String::new(alloc);
    push_many(alloc, &mut text, count).is_ok() && compiles(alloc, text.as_str(), count, 1)
}

/// The first length of a translation that isn't kept. (The texts have every number of bytes from 20 to 5,020.)
fn lost_length(alloc: Global) -> Option<usize> {
    for len in 1..5001usize {
        if !keeps_one(alloc, len) {
            return Some(len);
        }
    }
    None
}

/// The first number of entries that isn't kept.
fn lost_count(alloc: Global) -> Option<usize> {
    for count in 0..41 {
        if !keeps_many(alloc, count) {
            return Some(count);
        }
    }
    for count in SIZES {
        if !keeps_many(alloc, *count) {
            return Some(*count);
        }
    }
    None
}

#[test]
fn any_length_and_any_number_of_entries(rt: HostRuntime) {
    let (length, count) = (lost_length(rt.alloc()), lost_count(rt.alloc()));
    assert!(rt; length.is_none() && count.is_none(), "{length:?} {count:?}");
}
