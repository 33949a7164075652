//! Calls of `from_file`, `write_mo`, `read_mo`, `check` and `reread`.
use crate::maps::print_made;
use crate::printing::{print_entries, print_hex, print_uncalled};
use crate::texts::{PLAIN, PLIK, SALUT};
use catalogue::{Catalogue, compile};
use mo_file::{MoFault, check, read_mo, reread, write_mo};
use std::io;

/// An MO file that translates `a` to `x` and `ba` to `xx`. It is big-endian, has a hash table, and its strings overlap.
pub const SWAPPED: [u8; 78] =
    *b"\x95\x04\x12\xde\0\0\0\0\0\0\0\x02\0\0\0\x1c\0\0\0\x2c\0\0\0\x03\0\0\0\x3c\
    \0\0\0\x01\0\0\0\x49\0\0\0\x02\0\0\0\x48\0\0\0\x01\0\0\0\x4c\0\0\0\x02\0\0\0\x4b\
    \0\0\0\x02\0\0\0\x01\0\0\0\0ba\0xx\0";

/// An MO file without entries.
const EMPTY: &[u8] = b"\xde\x12\x04\x95\0\0\0\0\0\0\0\0\x1c\0\0\0\x1c\0\0\0\0\0\0\0\x1c\0\0\0";

/// An MO file with nothing but a header, which names an unsupported charset.
const KOI8: &[u8] = b"\xde\x12\x04\x95\0\0\0\0\x01\0\0\0\x1c\0\0\0\x24\0\0\0\0\0\0\0\x2c\0\0\0\
    \0\0\0\0\x2c\0\0\0\x0e\0\0\0\x2d\0\0\0\0charset=KOI8-R\0";

/// Files: a label, whether `check` is also called with it, the bytes, and how many of these are the file.
const FILES: &[(&str, bool, &[u8], usize)] = &[
    ("two messages", true, &SWAPPED, 78),
    ("nothing", false, EMPTY, 28),
    ("an unknown charset", true, KOI8, 60),
    ("without the last byte", false, &SWAPPED, 77),
    ("27 bytes", false, &SWAPPED, 27),
];

/// Changes to `SWAPPED`: a label, the offset, and the bytes to put there.
const CHANGES: &[(&str, usize, &[u8])] = &[
    ("a wrong revision", 7, b"\x01"),
    ("no magic number", 0, b"\xff"),
    ("a string that isn't closed", 74, b"c"),
    ("a string that isn't UTF-8", 73, b"\xff"),
    ("two forms without a plural", 52, b"\0\0\0\x05\0\0\0\x48"),
    (
        "keys that fall",
        28,
        b"\0\0\0\x02\0\0\0\x48\0\0\0\x01\0\0\0\x49",
    ),
];

/// Prints what a call returned that reads a catalogue from a file: its entries, or why the file is refused.
fn print_read<R: Print>(rt: &R, read: &Result<Catalogue, MoFault>) -> io::Result<()> {
    match read {
        Ok(catalogue) => {
            print!(rt; "gives Ok({}", catalogue.len())?;
            print_entries(rt, catalogue)?;
            println!(rt; ")")
        }
        Err(fault) => println!(rt; "gives Err({fault:?})"),
    }
}

/// Reads or checks a file, as the word of the group says, and prints the result.
fn read_one<R: Print + AllocGlobal>(
    rt: &R,
    word: &str,
    label: &str,
    bytes: &[u8],
) -> io::Result<()> {
    print!(rt; "{word}, {label}, ")?;
    if word == "check" {
        println!(rt; "gives {:?}", check(rt.alloc(), bytes))
    } else {
        print_read(rt, &read_mo(rt.alloc(), bytes))
    }
}

/// A copy of `SWAPPED` with these bytes at an offset.
fn changed(at: usize, bytes: &[u8]) -> [u8; 78] {
    let mut file = SWAPPED;
    for (place, byte) in file.iter_mut().skip(at).zip(bytes) {
        *place = *byte;
    }
    file
}

/// The groups `read_mo` and `check`.
pub fn read_all<R: Print + AllocGlobal>(rt: &R, word: &str) -> io::Result<()> {
    for (label, checked, bytes, len) in FILES {
        if *checked || word == "read_mo" {
            read_one(rt, word, label, bytes.get(..*len).unwrap_or(bytes))?;
        }
    }
    for (label, at, bytes) in CHANGES {
        read_one(rt, word, label, &changed(*at, bytes))?;
    }
    Ok(())
}

/// Prints the bytes of a file, and how many there are.
fn print_file<R: Print>(rt: &R, bytes: &[u8]) -> io::Result<()> {
    print!(rt; "gives Ok({} ", bytes.len())?;
    print_hex(rt, bytes)?;
    println!(rt; ")")
}

/// Writes a catalogue to a file, and prints the result.
fn write<R: Print + AllocGlobal>(rt: &R, catalogue: &Catalogue) -> io::Result<()> {
    match write_mo(rt.alloc(), catalogue) {
        Ok(bytes) => print_file(rt, &bytes),
        Err(fault) => println!(rt; "gives Err({fault:?})"),
    }
}

/// Makes the call of a group with a catalogue, and prints the result.
fn call<R: Print + AllocGlobal>(rt: &R, word: &str, catalogue: &Catalogue) -> io::Result<()> {
    match word {
        "write_mo" => write(rt, catalogue),
        "reread" => print_read(rt, &reread(rt.alloc(), catalogue)),
        _ => print_made(rt, &Catalogue::from_file(rt.alloc(), catalogue.file())),
    }
}

/// Makes the call of a group with the catalogue of a text, and prints the result.
fn call_one<R: Print + AllocGlobal>(rt: &R, word: &str, label: &str, text: &str) -> io::Result<()> {
    print!(rt; "{word}, {label}, ")?;
    match compile(rt.alloc(), text.as_bytes(), PLAIN) {
        Ok(compiled) => call(rt, word, &compiled.catalogue),
        Err(_) => print_uncalled(rt),
    }
}

/// The groups `from_file` and `reread`, and calls of `write_mo`.
pub fn call_all<R: Print + AllocGlobal>(rt: &R, word: &str) -> io::Result<()> {
    call_one(rt, word, "an entry", SALUT)?;
    call_one(rt, word, "nothing", "")?;
    call_one(rt, word, "three forms", PLIK)
}

/// The group `write_mo`.
pub fn write_all<R: Print + AllocGlobal>(rt: &R) -> io::Result<()> {
    call_all(rt, "write_mo")?;
    print!(rt; "write_mo, two messages, ")?;
    match read_mo(rt.alloc(), &SWAPPED) {
        Ok(catalogue) => write(rt, &catalogue),
        Err(_) => print_uncalled(rt),
    }
}
