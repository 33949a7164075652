//! Inputs that come byte by byte or in any two parts, are interrupted and fail.
use crate::fakes::SlowReader;
use devices::{LineInput, LineInputFault, Reading};
use std::alloc::{AllocError, Global};

/// Lines with LF, an empty one, and a last one that lacks its LF.
const TEXT: &[u8] = b"load\n\nask a\ngo";

/// Its lines.
const LINES: &[&[u8]] = &[b"load\n", b"\n", b"ask a\n", b"go"];

/// The answer of an input for the end of lines.
type Found = Result<Option<usize>, LineInputFault>;

/// Whether the next line is this one, which is then taken.
fn takes_line(input: &mut LineInput, reader: &mut Reading<SlowReader>, line: &[u8]) -> bool {
    let found = input.line_end(reader, 0, usize::MAX);
    if found != Ok(Some(line.len())) || !input.left().starts_with(line) {
        return false;
    }
    input.take(line.len());
    true
}

/// Whether no further line is there, however often it is asked for.
fn has_no_line(input: &mut LineInput, reader: &mut Reading<SlowReader>) -> bool {
    input.line_end(reader, 0, usize::MAX) == Ok(None)
        && input.line_end(reader, 0, usize::MAX) == Ok(None)
        && input.left().is_empty()
        && input.has_ended()
}

/// Takes the lines, and then finds no further one. Returns the number of reads after each line, or `None` if a line is
/// wrong, a read fails or more is read for none.
fn reads_of_lines(input: &mut LineInput, reader: &mut Reading<SlowReader>) -> Option<[u64; 4]> {
    let mut reads = [0; 4];
    for (slot, line) in reads.iter_mut().zip(LINES) {
        if !takes_line(input, reader, line) {
            return None;
        }
        *slot = reader.reads;
    }
    if has_no_line(input, reader) && reader.failures == 0 && reader.reads == reads[3] {
        Some(reads)
    } else {
        None
    }
}

/// The number of reads after each line of a reader, or `None` if anything is wrong.
fn reads_of(alloc: Global, reader: SlowReader) -> Option<[u64; 4]> {
    let mut reader = Reading::new(reader);
    match LineInput::new(alloc) {
        Ok(mut input) => reads_of_lines(&mut input, &mut reader),
        Err(_) => None,
    }
}

/// Whether a reader gives the lines if its first read has `first` bytes, and one of its first reads is interrupted.
fn gives_lines(alloc: Global, first: usize) -> bool {
    for step in &[1, 2, TEXT.len()] {
        for interrupted in 0..4u64 {
            let mut reader = SlowReader::new(TEXT, first, *step);
            reader.interrupted = (interrupted, interrupted + 1);
            if reads_of(alloc, reader).is_none() {
                return false;
            }
        }
    }
    true
}

/// The first number of bytes in a first read with which a reader doesn't give the lines.
fn lost_first(alloc: Global) -> Option<usize> {
    for first in 1..TEXT.len() + 1 {
        if !gives_lines(alloc, first) {
            return Some(first);
        }
    }
    None
}

#[test]
fn lines_come_byte_by_byte_and_in_any_two_parts(rt: HostRuntime) {
    let lost = lost_first(rt.alloc());
    assert!(rt; lost.is_none(), "{lost:?}");
}

/// How many bytes come first, how many then at a time, and the reads after each line.
const READS: &[(usize, usize, [u64; 4])] = &[
    (6, 6, [1, 1, 2, 4]),
    (5, 1, [1, 2, 8, 11]),
    (14, 1, [1, 1, 1, 2]),
];

/// How many bytes come first in the first row with other reads.
fn wrong_reads(alloc: Global) -> Option<usize> {
    for (first, step, reads) in READS {
        if reads_of(alloc, SlowReader::new(TEXT, *first, *step)) != Some(*reads) {
            return Some(*first);
        }
    }
    None
}

// A line that is there is given before the next read. The read after a line without an LF finds the end.
#[test]
fn no_read_is_tried_while_the_line_is_there(rt: HostRuntime) {
    let wrong = wrong_reads(rt.alloc());
    assert!(rt; wrong.is_none(), "{wrong:?}");
}

/// What an input answers for the end of `count` lines, or of one line without a count.
fn end_of(
    input: &mut LineInput,
    reader: &mut Reading<SlowReader>,
    count: Option<u64>,
    most: usize,
) -> Found {
    match count {
        Some(count) => input.lines_end(reader, 0, count, most),
        None => input.line_end(reader, 0, most),
    }
}

/// Whether the lines of a row end where it says, and only bytes of its text have come.
fn is_found(alloc: Global, row: &Row, step: usize) -> bool {
    let (text, count, most, wanted) = *row;
    let mut reader = Reading::new(SlowReader::new(text, step, step));
    match LineInput::new(alloc) {
        Ok(mut input) => {
            end_of(&mut input, &mut reader, count, most) == wanted && text.starts_with(input.left())
        }
        Err(_) => false,
    }
}

/// A text, the number of lines that are looked for, or `None` for one, the most bytes that they may have, and the
/// answer.
type Row = (&'static [u8], Option<u64>, usize, Found);

const TOO_LONG: Found = Err(LineInputFault::TooLong);

const ROWS: &[Row] = &[
    (TEXT, Some(0), 0, Ok(Some(0))),
    (TEXT, Some(1), 5, Ok(Some(5))),
    (TEXT, Some(2), 6, Ok(Some(6))),
    (TEXT, Some(3), 12, Ok(Some(12))),
    (TEXT, Some(4), 14, Ok(Some(14))),
    (TEXT, Some(5), 14, Ok(None)),
    (TEXT, Some(u64::MAX), 14, Ok(None)),
    (TEXT, Some(1), 4, TOO_LONG),
    (TEXT, Some(3), 11, TOO_LONG),
    (TEXT, Some(4), 13, TOO_LONG),
    (b"salut\n", None, 6, Ok(Some(6))),
    (b"salut\n", None, 5, TOO_LONG),
    (b"salut", None, 5, Ok(Some(5))),
    (b"salut", None, 4, TOO_LONG),
    (b"\n", None, 0, TOO_LONG),
    (b"\n", None, 1, Ok(Some(1))),
];

/// Whether they do with 1, 3, 9 or 20 bytes at a time.
fn is_found_in_steps(alloc: Global, row: &Row) -> bool {
    is_found(alloc, row, 1)
        && is_found(alloc, row, 3)
        && is_found(alloc, row, 9)
        && is_found(alloc, row, 20)
}

/// The place of the first row whose lines don't.
fn wrong_row(alloc: Global) -> Option<usize> {
    for (place, row) in ROWS.iter().enumerate() {
        if !is_found_in_steps(alloc, row) {
            return Some(place);
        }
    }
    None
}

#[test]
fn lines_end_at_once_or_are_too_long(rt: HostRuntime) {
    let wrong = wrong_row(rt.alloc());
    assert!(rt; wrong.is_none(), "row {wrong:?}");
}

/// Whether the second and the third line are found behind the first one, byte by byte, and bytes can be taken that are
/// no line.
fn finds_behind(input: &mut LineInput, reader: &mut Reading<SlowReader>) -> bool {
    if input.line_end(reader, 0, 20) != Ok(Some(5)) || input.left().len() != 5 {
        return false;
    }
    if input.lines_end(reader, 5, 2, 20) != Ok(Some(12)) || reader.reads != 12 {
        return false;
    }
    input.take(3);
    let is_cut = input.left() == b"d\n\nask a\n".as_slice();
    input.take(99);
    is_cut && input.left().is_empty() && !input.has_ended()
}

/// Whether what came before a failure is there, and the next call continues after it.
fn goes_on(input: &mut LineInput, reader: &mut Reading<SlowReader>, failing: u64) -> bool {
    input.lines_end(reader, 0, 4, 99) == Err(LineInputFault::Unreadable)
        && reader.failures == 1
        && input.left().len() as u64 == failing
        && TEXT.starts_with(input.left())
        && input.lines_end(reader, 0, 4, 99) == Ok(Some(14))
        && input.left() == TEXT
}

/// Whether an input that comes byte by byte does either, the latter if a read fails.
fn goes_by_bytes(alloc: Global, failing: Option<u64>) -> bool {
    let mut slow = SlowReader::new(TEXT, 1, 1);
    if let Some(failing) = failing {
        slow.failing = (failing, failing.saturating_add(1));
    }
    let mut reader = Reading::new(slow);
    match LineInput::new(alloc) {
        Ok(mut input) => match failing {
            Some(failing) => goes_on(&mut input, &mut reader, failing),
            None => finds_behind(&mut input, &mut reader),
        },
        Err(_) => false,
    }
}

/// The first read whose failure isn't told, or after which the next call doesn't continue.
fn wrong_failure(alloc: Global) -> Option<u64> {
    for failing in 0..15u64 {
        if !goes_by_bytes(alloc, Some(failing)) {
            return Some(failing);
        }
    }
    None
}

#[test]
fn an_input_goes_on_behind_a_line_and_a_failure(rt: HostRuntime) {
    assert!(rt; goes_by_bytes(rt.alloc(), None));
    let wrong = wrong_failure(rt.alloc());
    assert!(rt; wrong.is_none(), "{wrong:?}");
}

/// Appends lines of 1, 2, 3 .. bytes, over the ends of the chunks that are read.
fn push_lines(text: &mut Vec<u8>) -> Result<(), AllocError> {
    for length in 0..700usize {
        for place in 0..length {
            text.push(b'a' + (place % 26) as u8)?;
        }
        text.push(b'\n')?;
    }
    Ok(())
}

/// Whether all these lines are taken.
fn takes_long(input: &mut LineInput, reader: &mut Reading<SlowReader>, text: &[u8]) -> bool {
    let mut rest = text;
    for length in 0..700usize {
        if length >= rest.len() {
            return false;
        }
        let (line, behind) = rest.split_at(length + 1);
        if !takes_line(input, reader, line) {
            return false;
        }
        rest = behind;
    }
    has_no_line(input, reader)
}

/// Whether a reader that gives `step` bytes at a time gives all lines of a text.
fn gives_all(alloc: Global, text: &[u8], step: usize) -> bool {
    let mut reader = Reading::new(SlowReader::new(text, step, step));
    match LineInput::new(alloc) {
        Ok(mut input) => takes_long(&mut input, &mut reader, text),
        Err(_) => false,
    }
}

/// Whether it gives all lines of the long text.
fn gives_long(alloc: Global, step: usize) -> bool {
    let mut text = Vec::new(alloc);
    push_lines(&mut text).is_ok() && gives_all(alloc, &text, step)
}

#[test]
fn long_inputs_lose_nothing(rt: HostRuntime) {
    assert!(rt; gives_long(rt.alloc(), 1_000));
    assert!(rt; gives_long(rt.alloc(), 65_536));
    assert!(rt; gives_long(rt.alloc(), 1_000_000));
}
