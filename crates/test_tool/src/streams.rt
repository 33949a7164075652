//! Devices that give a few bytes at a time, are interrupted and fail.
ghost use Rattle.std.specs.Prelude.{IfSome, OnOk, codes, take};
ghost use Rattle.devices.specs.Files.{Logs};

use crate::fakes::{Calls, NONE, OneFile, SlowReader, SmallWriter};
use devices::{FileFault, Files, InputFault, MOST_READS, Reading, Sink, Writing, read_all};
use std::alloc::Global;

/// Whether a reader has `left` bytes left after `reads` reads, and counted this number of failures.
fn has_read(reader: &Reading<SlowReader>, left: u64, reads: u64, failures: u64) -> bool {
    reader.inner.left.len() as u64 == left
        && reader.inner.reads == reads
        && reader.reads == reads
        && reader.failures == failures
}

/// Readings of a text: how many bytes come at a time, which reads are interrupted and which fail, and up to which limit
/// it is read; then what is read, or `None` if it can't be read, and the bytes left, the reads and the failures then.
type Row = (
    &'static [u8],
    usize,
    Calls,
    Calls,
    usize,
    Option<&'static [u8]>,
    (u64, u64, u64),
);

const ROWS: &[Row] = &[
    // The second read is interrupted.
    (b"salut", 1, (1, 2), NONE, 9, Some(b"salut"), (0, 7, 0)),
    (b"salut", 2, (1, 2), NONE, 5, Some(b"salut"), (0, 4, 0)),
    (b"salut", 9, (1, 2), NONE, 9, Some(b"salut"), (0, 3, 0)),
    (b"salut", 2, (1, 2), NONE, 3, Some(b"sal"), (2, 3, 0)),
    (b"salut", 9, (1, 2), NONE, 0, Some(b""), (5, 0, 0)),
    // A read fails in mid-stream.
    (b"salut", 1, NONE, (0, 1), 9, None, (5, 1, 1)),
    (b"salut", 1, NONE, (1, 2), 9, None, (4, 2, 1)),
    (b"salut", 1, NONE, (2, 3), 9, None, (3, 3, 1)),
    (b"salut", 1, NONE, (3, 4), 9, None, (2, 4, 1)),
    (b"salut", 1, NONE, (4, 5), 9, None, (1, 5, 1)),
    (b"salut", 1, NONE, (5, 6), 9, None, (0, 6, 1)),
    // The reads are interrupted until the input ends at the last one that is tried, or up to that one.
    (
        b"",
        1,
        (0, 134_217_727),
        NONE,
        9,
        Some(b""),
        (0, 134_217_728, 0),
    ),
    (b"", 1, (0, 134_217_728), NONE, 9, None, (0, 134_217_728, 0)),
];

/// Whether an input is read so.
fn is_read(alloc: Global, row: &Row) -> bool {
    let (text, step, interrupted, failing, limit, wanted, (left, reads, failures)) = *row;
    let mut slow = SlowReader::new(text, step, step);
    slow.interrupted = interrupted;
    slow.failing = failing;
    let mut reader = Reading::new(slow);
    let is_right = match read_all(alloc, &mut reader, limit) {
        Ok(bytes) => Some(bytes.as_slice()) == wanted,
        Err(fault) => fault == InputFault::Unreadable && wanted.is_none(),
    };
    is_right && has_read(&reader, left, reads, failures)
}

/// The place of the first row that isn't read so.
fn wrong_row(alloc: Global) -> Option<usize> {
    for (place, row) in ROWS.iter().enumerate() {
        if !is_read(alloc, row) {
            return Some(place);
        }
    }
    None
}

#[test]
fn an_input_is_read_up_to_a_limit_or_a_failure(rt: HostRuntime) {
    assert!(rt; MOST_READS == 134_217_728);
    let wrong = wrong_row(rt.alloc());
    assert!(rt; wrong.is_none(), "row {wrong:?}");
}

/// Whether a writer has taken `salut`, or failed once for lack of room.
fn has_taken(writer: &Writing<SmallWriter>, fits: bool) -> bool {
    let held = writer.inner.held.as_slice();
    b"salut".starts_with(held)
        && writer.inner.flushed == if fits { 5 } else { 0 }
        && writer.failures == if fits { 0 } else { 1 }
}

/// Whether a writer with this room takes `salut` if it fits.
fn is_written(alloc: Global, room: usize) -> bool {
    let mut writer = Writing::new(SmallWriter::new(alloc, 2, usize::MAX));
    writer.inner.room = room;
    let fits = room >= 5;
    writer.write_all(b"salut").is_ok() == fits && has_taken(&writer, fits)
}

/// The first room with which that isn't so.
fn wrong_room(alloc: Global) -> Option<usize> {
    for room in 0..7usize {
        if !is_written(alloc, room) {
            return Some(room);
        }
    }
    None
}

// Reads and writes by the trait alone, as a program over it does.
fn copy<F: Files>(alloc: Global, files: &mut F, limit: usize) -> Result<(), FileFault>
    ensures { OnOk result (IfSome (F.content files.old (codes "in.po"))
        (λ xs. Logs (F.written files.old) (F.written files.new) (codes "to") (take limit xs))) }
{
    let bytes = files.read(alloc, "in.po", limit)?;
    files.write(alloc, "to", bytes.as_slice())
}

/// Whether just the file `to` was written, with these bytes, or none, after one failure.
fn has_written(files: &OneFile, wanted: Option<&[u8]>) -> bool {
    match (files.log.first(), wanted) {
        (Some((name, bytes)), Some(wanted)) => {
            name.as_str() == "to"
                && bytes.as_slice() == wanted
                && files.log.len() == 1
                && files.failures == 0
        }
        (None, None) => files.failures == 1,
        _ => false,
    }
}

/// Whether this is copied of a file, or nothing.
fn is_copied(
    alloc: Global,
    can_read: bool,
    can_write: bool,
    limit: usize,
    wanted: Option<&[u8]>,
) -> bool {
    let mut files = OneFile::new(alloc, b"salut", can_read, can_write);
    copy(alloc, &mut files, limit).is_ok() == wanted.is_some() && has_written(&files, wanted)
}

/// Whether the file can be read and written, the limit, and what is copied.
const COPIES: &[(bool, bool, usize, Option<&[u8]>)] = &[
    (true, true, 9, Some(b"salut")),
    (true, true, 3, Some(b"sal")),
    (false, true, 9, None),
    (true, false, 9, None),
];

/// The place of the first row that isn't copied so.
fn wrong_copy(alloc: Global) -> Option<usize> {
    for (place, (can_read, can_write, limit, wanted)) in COPIES.iter().enumerate() {
        if !is_copied(alloc, *can_read, *can_write, *limit, *wanted) {
            return Some(place);
        }
    }
    None
}

#[test]
fn a_writer_fails_and_files_are_copied(rt: HostRuntime) {
    let (room, copy) = (wrong_room(rt.alloc()), wrong_copy(rt.alloc()));
    assert!(rt;
        room.is_none() && copy.is_none(),
        "room {room:?}, row {copy:?}"
    );
}
