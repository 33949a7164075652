//! Files whose strings overlap, so that together they are longer than a file may be. The expected results were worked
//! out by hand from the format.
use catalogue::Catalogue;
use mo_file::{MoFault, check, read_mo};
use std::alloc::{AllocError, Global};

/// The offset of a string from the end of the tables, and its length.
#[derive(Clone, Copy)]
pub(crate) struct Place {
    pub(crate) start: u32,
    pub(crate) len: u32,
}

/// An original and its translation.
#[derive(Clone, Copy)]
pub(crate) struct Pair {
    pub(crate) original: Place,
    pub(crate) translation: Place,
}

fn push_word(file: &mut Vec<u8>, word: u32, low_first: bool) -> Result<(), AllocError> {
    let bytes = if low_first {
        u32::to_le_bytes(word)
    } else {
        u32::to_be_bytes(word)
    };
    file.extend_from_slice(&bytes)
}

/// Appends a row of a table, where `behind` is the end of the tables.
fn push_row(
    file: &mut Vec<u8>,
    place: Place,
    behind: u32,
    low_first: bool,
) -> Result<(), AllocError> {
    push_word(file, place.len, low_first)?;
    push_word(file, behind.wrapping_add(place.start), low_first)
}

/// Appends the words before the tables, and the tables.
fn push_tables(file: &mut Vec<u8>, pairs: &[Pair], low_first: bool) -> Result<(), AllocError> {
    let count = (pairs.len() % 65_536) as u32;
    let table = count.wrapping_mul(8);
    let second = table.wrapping_add(28);
    let behind = second.wrapping_add(table);
    for word in &[0x950412de, 0, count, 28, second, 0, behind] {
        push_word(file, *word, low_first)?;
    }
    for pair in pairs {
        push_row(file, pair.original, behind, low_first)?;
    }
    for pair in pairs {
        push_row(file, pair.translation, behind, low_first)?;
    }
    Ok(())
}

/// Makes the file of these rows, whose strings follow the tables.
fn file_of(
    alloc: Global,
    pairs: &[Pair],
    strings: &[u8],
    low_first: bool,
) -> Result<Vec<u8>, AllocError> {
    let mut file = Vec::new(alloc);
    push_tables(&mut file, pairs, low_first)?;
    file.extend_from_slice(strings)?;
    Ok(file)
}

/// Why both `read_mo` and `check` refuse bytes, or `None` if they accept them.
pub(crate) fn refusal(alloc: Global, bytes: &[u8]) -> Option<MoFault> {
    let fault = read_mo(alloc, bytes).err();
    if check(alloc, bytes).err() == fault {
        fault
    } else {
        Some(MoFault::Memory)
    }
}

/// Why the file of these rows is refused, or `None` if it is accepted.
pub(crate) fn refusal_of_rows(
    alloc: Global,
    pairs: &[Pair],
    strings: &[u8],
    low_first: bool,
) -> Option<MoFault> {
    match file_of(alloc, pairs, strings, low_first) {
        Ok(file) => refusal(alloc, &file),
        Err(_) => Some(MoFault::Memory),
    }
}

/// Appends keys of two bytes, each with a NUL after it.
fn push_keys(strings: &mut Vec<u8>, firsts: &[u8], seconds: &[u8]) -> Result<(), AllocError> {
    for first in firsts {
        for second in seconds {
            strings.extend_from_slice(&[*first, *second, 0])?;
        }
    }
    Ok(())
}

/// Appends bytes of one letter, and a NUL.
fn push_run(strings: &mut Vec<u8>, letter: u8, len: u32) -> Result<(), AllocError> {
    for _ in 0..len {
        strings.push(letter)?;
    }
    Ok(strings.push(0)?)
}

/// Appends the keys of 600 rows, and a text of 500,000 bytes that begins with this line.
fn push_shared(strings: &mut Vec<u8>, line: &str) -> Result<(), AllocError> {
    push_keys(
        strings,
        b"ABCDabcdefghijklmnopqrstuvwxyz",
        b"0123456789abcdefghij",
    )?;
    strings.extend_from_slice(line.as_bytes())?;
    let rest = 500_000u32.saturating_sub((line.len() % 1000) as u32);
    push_run(strings, b'x', rest)
}

/// Returns `count` rows with keys of two bytes. The first original, all translations but the last, and the last are at
/// these places.
fn shared_pairs(
    alloc: Global,
    count: u32,
    first: Place,
    others: Place,
    last: Place,
) -> Result<Vec<Pair>, AllocError> {
    let mut pairs = Vec::new(alloc);
    for i in 0..count {
        let start = i.wrapping_mul(3);
        let original = if i == 0 {
            first
        } else {
            Place { start, len: 2 }
        };
        let translation = if i < count - 1 { others } else { last };
        pairs.push(Pair {
            original,
            translation,
        })?;
    }
    Ok(pairs)
}

/// Changes bytes of strings.
fn change(strings: &mut [u8], changes: &[(usize, u8)]) {
    for (place, new) in changes {
        if let Some(byte) = strings.get_mut(*place) {
            *byte = *new;
        }
    }
}

/// Why a file of 600 rows on one text is refused. The key of the header, if there is one, is the empty string at the
/// end of the first key.
fn shared_refusal(
    alloc: Global,
    strings: &[u8],
    has_header: bool,
    low_first: bool,
) -> Option<MoFault> {
    let first = if has_header {
        Place { start: 2, len: 0 }
    } else {
        Place { start: 0, len: 2 }
    };
    let text = Place {
        start: 1800,
        len: 500_000,
    };
    match shared_pairs(alloc, 600, first, text, text) {
        Ok(pairs) => refusal_of_rows(alloc, &pairs, strings, low_first),
        Err(_) => Some(MoFault::Memory),
    }
}

/// What the text of 600 rows begins with (the header of the first of them, if it isn't empty), what is changed in their
/// strings, and why the file is refused then.
type Shared = (&'static str, &'static [(usize, u8)], MoFault);

const FOREIGN: &str = "Content-Type: text/plain; charset=KOI8-R\n";

const KNOWN: &str = "Content-Type: text/plain; charset=UTF-8\n";

/// The last byte of the text is at 501,799, and the first byte of the last key at 1,797.
const SHARED: &[Shared] = &[
    ("", &[(0, b'A'), (1, b'0')], MoFault::Swollen),
    ("", &[(0, 4), (1, b'0')], MoFault::Swollen),
    ("", &[(0, 4), (1, 4)], MoFault::BadText),
    ("", &[(0, 0xc3), (1, b'0')], MoFault::BadText),
    ("", &[(501_799, 0x80), (0, b'A')], MoFault::BadText),
    ("", &[(501_799, 0x80), (501_798, 0xc3)], MoFault::Swollen),
    ("", &[(501_799, 0x80), (501_798, 0)], MoFault::BadText),
    ("", &[(501_799, 0), (0, b'A')], MoFault::Forms),
    ("", &[(501_799, 0), (1797, b'A')], MoFault::Forms),
    ("", &[(1797, b'A'), (0, b'A')], MoFault::Order),
    ("", &[(1798, b'i'), (0, b'A')], MoFault::Order),
    ("", &[(501_800, 1), (501_799, 0)], MoFault::NoNul),
    (FOREIGN, &[(1797, b'z')], MoFault::Charset),
    (KNOWN, &[(1797, b'z')], MoFault::Swollen),
    (FOREIGN, &[(1797, b'A')], MoFault::Order),
];

/// Whether the file of a row is refused for its reason, with each byte order.
fn is_refused(alloc: Global, row: Shared) -> bool {
    let (line, changes, wanted) = row;
    let mut strings = Vec::new(alloc);
    if push_shared(&mut strings, line).is_err() {
        return false;
    }
    change(&mut strings, changes);
    let has_header = !line.is_empty();
    shared_refusal(alloc, &strings, has_header, true) == Some(wanted)
        && shared_refusal(alloc, &strings, has_header, false) == Some(wanted)
}

/// The line and the changes of the first row whose file isn't refused so.
fn wrong_shared(alloc: Global) -> Option<(&'static str, &'static [(usize, u8)])> {
    for row in SHARED {
        if !is_refused(alloc, *row) {
            return Some((row.0, row.1));
        }
    }
    None
}

#[test]
fn many_rows_on_one_text(rt: HostRuntime) {
    let wrong = wrong_shared(rt.alloc());
    assert!(rt; wrong.is_none(), "{wrong:?}");
}

/// Returns `count` rows, whose originals and translations are endings of one text, each `step` bytes longer than the
/// one before.
fn endings(alloc: Global, count: u32, step: u32) -> Result<Vec<Pair>, AllocError> {
    let len = count.wrapping_mul(step);
    let mut pairs = Vec::new(alloc);
    for i in 0..count {
        let text = i.wrapping_add(1).wrapping_mul(step);
        let place = Place {
            start: len.wrapping_sub(text),
            len: text,
        };
        pairs.push(Pair {
            original: place,
            translation: place,
        })?;
    }
    Ok(pairs)
}

/// What becomes of the last rows that are endings of one text.
#[derive(Clone, Copy, PartialEq, Eq)]
enum Last {
    Kept,
    Swapped,
    Doubled,
}

/// Changes the last rows, or returns `false` if memory runs out.
fn change_last(rows: &mut Vec<Pair>, last: Last) -> bool {
    let len = rows.len();
    if last == Last::Swapped && len >= 2 {
        rows.swap(len - 1, len - 2);
    }
    match rows.last().copied() {
        Some(row) if last == Last::Doubled => rows.push(row).is_ok(),
        _ => true,
    }
}

/// Why rows that are endings of one text are refused, each 1000 bytes longer than the one before.
fn refusal_of_endings(alloc: Global, strings: &[u8], count: u32, last: Last) -> Option<MoFault> {
    match endings(alloc, count, 1000) {
        Ok(mut rows) => {
            if change_last(&mut rows, last) {
                refusal_of_rows(alloc, &rows, strings, true)
            } else {
                Some(MoFault::Memory)
            }
        }
        Err(_) => Some(MoFault::Memory),
    }
}

/// Whether they are refused so, or accepted if no reason is given.
fn has_refusal(alloc: Global, count: u32, last: Last, wanted: Option<MoFault>) -> bool {
    let mut strings = Vec::new(alloc);
    push_run(&mut strings, b'a', count.wrapping_mul(1000)).is_ok()
        && refusal_of_endings(alloc, &strings, count, last) == wanted
}

/// A name, the number of rows, and why they are refused. Together, 20 rows have 420,000 bytes, and 600 rows have
/// 360,600,000.
const ENDINGS: &[(&str, u32, Last, Option<MoFault>)] = &[
    ("20", 20, Last::Kept, None),
    ("20 swapped", 20, Last::Swapped, Some(MoFault::Order)),
    ("20 doubled", 20, Last::Doubled, Some(MoFault::Order)),
    ("600", 600, Last::Kept, Some(MoFault::Swollen)),
    ("600 swapped", 600, Last::Swapped, Some(MoFault::Order)),
    ("600 doubled", 600, Last::Doubled, Some(MoFault::Order)),
];

/// The name of the first row that isn't so.
fn wrong_endings(alloc: Global) -> Option<&'static str> {
    for (name, count, last, wanted) in ENDINGS {
        if !has_refusal(alloc, *count, *last, *wanted) {
            return Some(*name);
        }
    }
    None
}

#[test]
fn originals_that_end_one_text(rt: HostRuntime) {
    let wrong = wrong_endings(rt.alloc());
    assert!(rt; wrong.is_none(), "{wrong:?}");
}

/// Returns rows of 150 keys, whose translations overlap in a run of `x`: the last one is the whole run, of `last`
/// bytes, and each of the others is its last `others` bytes.
fn overlapping_pairs(alloc: Global, others: u32, last: u32) -> Result<Vec<Pair>, AllocError> {
    let first = Place { start: 0, len: 2 };
    let other = Place {
        start: last.wrapping_sub(others).wrapping_add(450),
        len: others,
    };
    let whole = Place {
        start: 450,
        len: last,
    };
    shared_pairs(alloc, 150, first, other, whole)
}

/// Appends the file of these rows.
fn push_overlapping(file: &mut Vec<u8>, pairs: &[Pair], last: u32) -> Result<(), AllocError> {
    push_tables(file, pairs, true)?;
    push_keys(file, b"abcdefghij", b"abcdefghijklmno")?;
    push_run(file, b'x', last)
}

/// The file of these rows, or `None` if memory runs out.
fn overlapping_file(alloc: Global, others: u32, last: u32) -> Option<Vec<u8>> {
    match overlapping_pairs(alloc, others, last) {
        Ok(pairs) => {
            let mut file = Vec::new(alloc);
            if push_overlapping(&mut file, &pairs, last).is_ok() {
                Some(file)
            } else {
                None
            }
        }
        Err(_) => None,
    }
}

/// Whether an overlapping file has this many bytes, and is refused for what would be written of it.
fn is_swollen(alloc: Global, others: u32, last: u32, len: usize) -> bool {
    match overlapping_file(alloc, others, last) {
        Some(file) => file.len() == len && refusal(alloc, &file) == Some(MoFault::Swollen),
        None => false,
    }
}

/// Whether a catalogue has the 150 entries, this last translation, and a file of this many bytes.
fn has_last(catalogue: &Catalogue, last: u32, len: usize) -> bool {
    (catalogue.len(), catalogue.file().len()) == (150, len)
        && catalogue.gettext("jo").len() == last as usize
}

/// Whether a file is read as such a catalogue.
fn is_read_as(alloc: Global, file: &[u8], last: u32, len: usize) -> bool {
    match read_mo(alloc, file) {
        Ok(catalogue) => has_last(&catalogue, last, len),
        Err(_) => false,
    }
}

/// Whether an overlapping file is read, and then has this many bytes.
fn is_read(alloc: Global, others: u32, last: u32, len: usize) -> bool {
    match overlapping_file(alloc, others, last) {
        Some(file) => is_read_as(alloc, &file, last, len),
        None => false,
    }
}

/// The written file has 28 bytes, 16 for each entry, and every string with a NUL after it: here 3,028 bytes and the
/// translations, 149 times 1,789,549 bytes and once 1,789,627. The sum is 268,435,456, the limit.
#[test]
fn swollen_and_not_yet(rt: HostRuntime) {
    assert!(rt; is_swollen(rt.alloc(), 2_000_000, 2_000_000, 2_002_879));
    assert!(rt; is_read(rt.alloc(), 1_789_549, 1_789_627, 268_435_456));
    assert!(rt; is_swollen(rt.alloc(), 1_789_549, 1_789_628, 1_792_507));
}
