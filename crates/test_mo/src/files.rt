//! Worked files. The expected results were written by hand from the format, or are GNU msgfmt's.
use crate::lookups::catalogue_with;
use crate::overlaps::{Pair, Place, refusal, refusal_of_rows};
use catalogue::Catalogue;
use mo_file::{MoFault, check, read_mo, reread, write_mo};
use std::alloc::Global;

/// `a` to `x` and `ba` to `xx`: a big-endian file with a hash table, in which one string is the end of another.
const BIG: &[u8; 78] = &[
    0x95, 0x04, 0x12, 0xde, 0x00, 0x00, 0x00, 0x00, 0x00, 0x00, 0x00, 0x02, 0x00, 0x00, 0x00, 0x1c,
    0x00, 0x00, 0x00, 0x2c, 0x00, 0x00, 0x00, 0x03, 0x00, 0x00, 0x00, 0x3c, 0x00, 0x00, 0x00, 0x01,
    0x00, 0x00, 0x00, 0x49, 0x00, 0x00, 0x00, 0x02, 0x00, 0x00, 0x00, 0x48, 0x00, 0x00, 0x00, 0x01,
    0x00, 0x00, 0x00, 0x4c, 0x00, 0x00, 0x00, 0x02, 0x00, 0x00, 0x00, 0x4b, 0x00, 0x00, 0x00, 0x02,
    0x00, 0x00, 0x00, 0x01, 0x00, 0x00, 0x00, 0x00, 0x62, 0x61, 0x00, 0x78, 0x78, 0x00,
];

/// The file that is written of this map.
pub(crate) const WRITTEN: &[u8] = &[
    0xde, 0x12, 0x04, 0x95, 0x00, 0x00, 0x00, 0x00, 0x02, 0x00, 0x00, 0x00, 0x1c, 0x00, 0x00, 0x00,
    0x2c, 0x00, 0x00, 0x00, 0x00, 0x00, 0x00, 0x00, 0x3c, 0x00, 0x00, 0x00, 0x01, 0x00, 0x00, 0x00,
    0x3c, 0x00, 0x00, 0x00, 0x02, 0x00, 0x00, 0x00, 0x3e, 0x00, 0x00, 0x00, 0x01, 0x00, 0x00, 0x00,
    0x41, 0x00, 0x00, 0x00, 0x02, 0x00, 0x00, 0x00, 0x43, 0x00, 0x00, 0x00, 0x61, 0x00, 0x62, 0x61,
    0x00, 0x78, 0x00, 0x78, 0x78, 0x00,
];

/// The file of the empty map.
pub(crate) const EMPTY: &[u8] = &[
    0xde, 0x12, 0x04, 0x95, 0x00, 0x00, 0x00, 0x00, 0x00, 0x00, 0x00, 0x00, 0x1c, 0x00, 0x00, 0x00,
    0x1c, 0x00, 0x00, 0x00, 0x00, 0x00, 0x00, 0x00, 0x1c, 0x00, 0x00, 0x00,
];

/// A little-endian file of GNU msgfmt 0.21, with a hash table.
const GNU_LITTLE: &[u8] = &[
    0xde, 0x12, 0x04, 0x95, 0x00, 0x00, 0x00, 0x00, 0x03, 0x00, 0x00, 0x00, 0x1c, 0x00, 0x00, 0x00,
    0x34, 0x00, 0x00, 0x00, 0x05, 0x00, 0x00, 0x00, 0x4c, 0x00, 0x00, 0x00, 0x00, 0x00, 0x00, 0x00,
    0x60, 0x00, 0x00, 0x00, 0x0a, 0x00, 0x00, 0x00, 0x61, 0x00, 0x00, 0x00, 0x09, 0x00, 0x00, 0x00,
    0x6c, 0x00, 0x00, 0x00, 0x28, 0x00, 0x00, 0x00, 0x76, 0x00, 0x00, 0x00, 0x0d, 0x00, 0x00, 0x00,
    0x9f, 0x00, 0x00, 0x00, 0x07, 0x00, 0x00, 0x00, 0xad, 0x00, 0x00, 0x00, 0x01, 0x00, 0x00, 0x00,
    0x02, 0x00, 0x00, 0x00, 0x00, 0x00, 0x00, 0x00, 0x03, 0x00, 0x00, 0x00, 0x00, 0x00, 0x00, 0x00,
    0x00, 0x66, 0x69, 0x6c, 0x65, 0x00, 0x66, 0x69, 0x6c, 0x65, 0x73, 0x00, 0x6d, 0x65, 0x6e, 0x75,
    0x04, 0x4f, 0x70, 0x65, 0x6e, 0x00, 0x43, 0x6f, 0x6e, 0x74, 0x65, 0x6e, 0x74, 0x2d, 0x54, 0x79,
    0x70, 0x65, 0x3a, 0x20, 0x74, 0x65, 0x78, 0x74, 0x2f, 0x70, 0x6c, 0x61, 0x69, 0x6e, 0x3b, 0x20,
    0x63, 0x68, 0x61, 0x72, 0x73, 0x65, 0x74, 0x3d, 0x55, 0x54, 0x46, 0x2d, 0x38, 0x0a, 0x00, 0x44,
    0x61, 0x74, 0x65, 0x69, 0x00, 0x44, 0x61, 0x74, 0x65, 0x69, 0x65, 0x6e, 0x00, 0xc3, 0x96, 0x66,
    0x66, 0x6e, 0x65, 0x6e, 0x00,
];

/// The big-endian file of GNU msgfmt 0.21 for the same text.
const GNU_BIG: &[u8] = &[
    0x95, 0x04, 0x12, 0xde, 0x00, 0x00, 0x00, 0x00, 0x00, 0x00, 0x00, 0x03, 0x00, 0x00, 0x00, 0x1c,
    0x00, 0x00, 0x00, 0x34, 0x00, 0x00, 0x00, 0x05, 0x00, 0x00, 0x00, 0x4c, 0x00, 0x00, 0x00, 0x00,
    0x00, 0x00, 0x00, 0x60, 0x00, 0x00, 0x00, 0x0a, 0x00, 0x00, 0x00, 0x61, 0x00, 0x00, 0x00, 0x09,
    0x00, 0x00, 0x00, 0x6c, 0x00, 0x00, 0x00, 0x28, 0x00, 0x00, 0x00, 0x76, 0x00, 0x00, 0x00, 0x0d,
    0x00, 0x00, 0x00, 0x9f, 0x00, 0x00, 0x00, 0x07, 0x00, 0x00, 0x00, 0xad, 0x00, 0x00, 0x00, 0x01,
    0x00, 0x00, 0x00, 0x02, 0x00, 0x00, 0x00, 0x00, 0x00, 0x00, 0x00, 0x03, 0x00, 0x00, 0x00, 0x00,
    0x00, 0x66, 0x69, 0x6c, 0x65, 0x00, 0x66, 0x69, 0x6c, 0x65, 0x73, 0x00, 0x6d, 0x65, 0x6e, 0x75,
    0x04, 0x4f, 0x70, 0x65, 0x6e, 0x00, 0x43, 0x6f, 0x6e, 0x74, 0x65, 0x6e, 0x74, 0x2d, 0x54, 0x79,
    0x70, 0x65, 0x3a, 0x20, 0x74, 0x65, 0x78, 0x74, 0x2f, 0x70, 0x6c, 0x61, 0x69, 0x6e, 0x3b, 0x20,
    0x63, 0x68, 0x61, 0x72, 0x73, 0x65, 0x74, 0x3d, 0x55, 0x54, 0x46, 0x2d, 0x38, 0x0a, 0x00, 0x44,
    0x61, 0x74, 0x65, 0x69, 0x00, 0x44, 0x61, 0x74, 0x65, 0x69, 0x65, 0x6e, 0x00, 0xc3, 0x96, 0x66,
    0x66, 0x6e, 0x65, 0x6e, 0x00,
];

/// The PO text that both files were compiled from.
const GNU_TEXT: &str = "msgid \"\"\nmsgstr \"Content-Type: text/plain; charset=UTF-8\\n\"\n\n\
    msgctxt \"menu\"\nmsgid \"Open\"\nmsgstr \"Öffnen\"\n\nmsgid \"file\"\n\
    msgid_plural \"files\"\nmsgstr[0] \"Datei\"\nmsgstr[1] \"Dateien\"\n";

/// Whether the file that is written of a catalogue has these bytes.
pub(crate) fn is_written(alloc: Global, catalogue: &Catalogue, wanted: &[u8]) -> bool {
    match write_mo(alloc, catalogue) {
        Ok(file) => file.as_slice() == wanted,
        Err(_) => false,
    }
}

fn has(catalogue: &Catalogue, i: usize, id: &str, translation: &str) -> bool {
    if i >= catalogue.len() {
        return false;
    }
    let entry = catalogue.entry(i);
    entry.id() == id && entry.translation() == translation && entry.plural().is_none()
}

/// Whether a catalogue has the entries of `BIG`, and no other.
fn has_both(catalogue: &Catalogue) -> bool {
    catalogue.len() == 2
        && has(catalogue, 0, "a", "x")
        && has(catalogue, 1, "ba", "xx")
        && catalogue.gettext("ba") == "xx"
}

/// Whether a catalogue has the entries of `BIG` once it has been written and read back.
fn keeps_both(alloc: Global, catalogue: &Catalogue) -> bool {
    match reread(alloc, catalogue) {
        Ok(again) => has_both(&again),
        Err(_) => false,
    }
}

/// Whether `BIG` is read as its two entries, and written again as `WRITTEN`.
fn reads_both(alloc: Global) -> bool {
    match read_mo(alloc, BIG) {
        Ok(catalogue) => {
            has_both(&catalogue)
                && is_written(alloc, &catalogue, WRITTEN)
                && keeps_both(alloc, &catalogue)
        }
        Err(_) => false,
    }
}

#[test]
fn high_byte_first(rt: HostRuntime) {
    assert!(rt; reads_both(rt.alloc()));
    assert!(rt; check(rt.alloc(), BIG).is_ok());
}

/// `EMPTY` with other offsets of the tables.
const FAR: &[u8] = &[
    0xde, 0x12, 0x04, 0x95, 0x00, 0x00, 0x00, 0x00, 0x00, 0x00, 0x00, 0x00, 0x1c, 0x00, 0x00, 0xff,
    0x1c, 0x00, 0x00, 0xff, 0x00, 0x00, 0x00, 0x00, 0x1c, 0x00, 0x00, 0x00,
];

/// Whether a file is read as no entry, and written again as `EMPTY`.
fn reads_nothing(alloc: Global, file: &[u8]) -> bool {
    match read_mo(alloc, file) {
        Ok(catalogue) => catalogue.is_empty() && is_written(alloc, &catalogue, EMPTY),
        Err(_) => false,
    }
}

#[test]
fn no_entry(rt: HostRuntime) {
    assert!(rt; reads_nothing(rt.alloc(), EMPTY));
    // Without entries the tables are ignored.
    assert!(rt; reads_nothing(rt.alloc(), FAR));
}

/// The length of the first front part of `BIG` that isn't refused for its size.
fn wrong_front(alloc: Global) -> Option<usize> {
    for k in 0..BIG.len() {
        let wanted = if k < 28 {
            MoFault::Short
        } else {
            MoFault::Bounds
        };
        if refusal(alloc, BIG.get(..k).unwrap_or(BIG)) != Some(wanted) {
            return Some(k);
        }
    }
    None
}

#[test]
fn front_parts(rt: HostRuntime) {
    let wrong = wrong_front(rt.alloc());
    assert!(rt; wrong.is_none(), "{wrong:?}");
}

/// A place in `BIG`, the bytes that are put there, and why the file is refused then, or `None` if it is read.
type Change = (usize, &'static [u8], Option<MoFault>);

const CHANGES: &[Change] = &[
    (3, b"\xdd", Some(MoFault::Magic)),
    (7, b"\x01", Some(MoFault::Revision)),
    // The third row of the translations is then two words of the hash table.
    (11, b"\x03", Some(MoFault::NoNul)),
    (19, b"\x2d", Some(MoFault::Bounds)),
    // The hash table is ignored.
    (23, b"\x09", None),
    // The original is then `a` with the plural `xx`.
    (31, b"\x04", None),
    (77, b"\x01", Some(MoFault::NoNul)),
    (76, b"\x80", Some(MoFault::BadText)),
    // An empty msgid in the empty context and in the context `b`.
    (73, b"\x04", None),
    // `Aa` is below `a`.
    (72, b"A", Some(MoFault::Order)),
    // Both keys are the same string.
    (31, b"\x02\0\0\0\x48", Some(MoFault::Order)),
    // A fault of the last string is reported before a fault of an earlier string whose kind comes later.
    (72, b"\xffa\0xx\x01", Some(MoFault::NoNul)),
    (0, b"\xff", Some(MoFault::Magic)),
    (4, b"\0\0\0\x01", Some(MoFault::Revision)),
    // The number of entries, and the offsets of the tables.
    (8, b"\xff\xff\xff\xff", Some(MoFault::Bounds)),
    (12, b"\xff\xff\xff\xf8", Some(MoFault::Bounds)),
    (16, b"\xff\xff\xff\xf8", Some(MoFault::Bounds)),
    // The length and the offset of each original and each translation, whose sum exceeds 32 bits.
    (28, &[0xff; 8], Some(MoFault::Bounds)),
    (36, &[0xff; 8], Some(MoFault::Bounds)),
    (44, &[0xff; 8], Some(MoFault::Bounds)),
    (52, &[0xff; 8], Some(MoFault::Bounds)),
    (74, b"\x63", Some(MoFault::NoNul)),
    (73, b"\xff", Some(MoFault::BadText)),
    // The second translation has two forms, but there is no plural.
    (52, b"\0\0\0\x05\0\0\0\x48", Some(MoFault::Forms)),
    // The rows of the two originals are swapped.
    (
        28,
        b"\0\0\0\x02\0\0\0\x48\0\0\0\x01\0\0\0\x49",
        Some(MoFault::Order),
    ),
];

/// Puts bytes into a file from `place` on.
fn change(file: &mut [u8], place: usize, bytes: &[u8]) {
    for (slot, byte) in file.iter_mut().skip(place).zip(bytes) {
        *slot = *byte;
    }
}

/// The place and the bytes of the first change with which `BIG` isn't refused so, or isn't read.
fn wrong_change(alloc: Global) -> Option<(usize, &'static [u8])> {
    for (place, bytes, wanted) in CHANGES {
        let mut file = *BIG;
        change(&mut file, *place, bytes);
        if refusal(alloc, &file) != *wanted {
            return Some((*place, *bytes));
        }
    }
    None
}

#[test]
fn changed_bytes(rt: HostRuntime) {
    let wrong = wrong_change(rt.alloc());
    assert!(rt; wrong.is_none(), "{wrong:?}");
}

/// The strings of files of one entry with the empty key, the header: a NUL, the header and a NUL. Then why the file is
/// refused, or `None` if it is read.
const HEADERS: &[(&str, Option<MoFault>)] = &[
    (
        "\0Content-Type: text/plain; charset=KOI8-R\n\0",
        Some(MoFault::Charset),
    ),
    ("\0charset=UTF-8;\0", Some(MoFault::Charset)),
    ("\0Content-Type: text/plain; charset=utf-8\n\0", None),
    ("\0charset=CHARSET\0", None),
    ("\0Language: fr\n\0", None),
    ("\0\0", None),
];

/// Why the file of a header is refused, or `None` if it is read.
fn refusal_of_header(alloc: Global, strings: &str) -> Option<MoFault> {
    let header = Pair {
        original: Place { start: 0, len: 0 },
        translation: Place {
            start: 1,
            len: (strings.len().saturating_sub(2) % 256) as u32,
        },
    };
    refusal_of_rows(alloc, &[header], strings.as_bytes(), true)
}

/// The first header whose file isn't refused so, or isn't read.
fn wrong_header(alloc: Global) -> Option<&'static str> {
    for (strings, wanted) in HEADERS {
        if refusal_of_header(alloc, strings) != *wanted {
            return Some(*strings);
        }
    }
    None
}

#[test]
fn charsets(rt: HostRuntime) {
    let wrong = wrong_header(rt.alloc());
    assert!(rt; wrong.is_none(), "{wrong:?}");
}

/// Whether a file of 256 MiB is read for its magic number, and one with a byte more is not read at all.
fn has_most(alloc: Global) -> bool {
    match vec![in alloc; 0u8; 268_435_456] {
        Ok(mut file) => {
            refusal(alloc, &file) == Some(MoFault::Magic)
                && file.push(0).is_ok()
                && refusal(alloc, &file) == Some(MoFault::TooLarge)
        }
        Err(_) => false,
    }
}

#[test]
fn too_large(rt: HostRuntime) {
    assert!(rt; has_most(rt.alloc()));
}

/// Whether a file of GNU msgfmt is read as the messages of `GNU_TEXT`, and written again as this file.
fn is_rewritten(alloc: Global, file: &[u8], wanted: &[u8]) -> bool {
    match read_mo(alloc, file) {
        Ok(catalogue) => {
            is_written(alloc, &catalogue, wanted)
                && catalogue.pgettext("menu", "Open") == "\u{d6}ffnen"
                && catalogue.ngettext("file", "files", 1) == "Datei"
        }
        Err(_) => false,
    }
}

/// Whether both files of GNU msgfmt are written again as the file of a catalogue.
fn are_rewritten(alloc: Global, compiled: &Catalogue) -> bool {
    match write_mo(alloc, compiled) {
        Ok(wanted) => {
            is_rewritten(alloc, GNU_LITTLE, &wanted) && is_rewritten(alloc, GNU_BIG, &wanted)
        }
        Err(_) => false,
    }
}

/// Whether both are written again as the file of their text.
fn have_one_file(alloc: Global) -> bool {
    match catalogue_with(alloc, GNU_TEXT, false, false) {
        Some(compiled) => are_rewritten(alloc, &compiled),
        None => false,
    }
}

#[test]
fn files_of_gnu(rt: HostRuntime) {
    assert!(rt; have_one_file(rt.alloc()));
}
