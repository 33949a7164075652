//! Files whose originals are the ends of many copies of one text, at irregular places: each two copies are compared,
//! and no comparison answers for another. The expected results follow from how the texts are made.
use crate::overlaps::{Pair, Place, refusal_of_rows};
use mo_file::MoFault;
use std::alloc::{AllocError, Global};

/// The number of copies.
const COPIES: u32 = 36;

/// The length of each copy without its last two bytes, which rise from copy to copy.
const COPIED: u32 = 20_000;

/// The distance between the marks in a copy, which rise.
const MARKED: u32 = 16;

/// Letters in no order that repeats itself.
#[derive(Drop)]
struct Letters {
    state: u64,
}

impl Letters {
    /// Returns the next random number below `count`.
    fn below(&mut self, count: u32) -> u32 {
        self.state = self
            .state
            .wrapping_mul(6_364_136_223_846_793_005)
            .wrapping_add(1_442_695_040_888_963_407);
        ((self.state >> 33) % u64::from(count.max(1))) as u32
    }

    /// Appends letters.
    fn push(&mut self, text: &mut Vec<u8>, count: u32) -> Result<(), AllocError> {
        for _ in 0..count {
            let letter = (self.below(26) % 26) as u8;
            text.push(letter.wrapping_add(b'a'))?;
        }
        Ok(())
    }
}

/// Appends two bytes that rise with the number.
fn push_mark(text: &mut Vec<u8>, number: u32) -> Result<(), AllocError> {
    text.push(((number / 26 % 26) as u8).wrapping_add(b'A'))?;
    Ok(text.push(((number % 26) as u8).wrapping_add(b'A'))?)
}

/// Returns the text that is copied: marks that rise, with letters between them.
fn copied(alloc: Global, letters: &mut Letters) -> Result<Vec<u8>, AllocError> {
    let mut text = Vec::new(alloc);
    for number in 0..COPIED / MARKED {
        push_mark(&mut text, number.min(675))?;
        letters.push(&mut text, MARKED - 2)?;
    }
    Ok(text)
}

/// The strings of a file, and where the copies begin in them.
#[derive(Drop)]
struct Copies {
    strings: Vec<u8>,
    starts: Vec<u32>,
}

/// Appends copies of a text, with letters between them, and a NUL at the end.
fn push_copies(copies: &mut Copies, letters: &mut Letters, text: &[u8]) -> Result<(), AllocError> {
    for copy in 0..COPIES {
        copies
            .starts
            .push((copies.strings.len() % 4_294_967_296) as u32)?;
        copies.strings.extend_from_slice(text)?;
        push_mark(&mut copies.strings, copy)?;
        let gap = letters.below(1000).wrapping_add(1);
        letters.push(&mut copies.strings, gap)?;
    }
    Ok(copies.strings.push(0)?)
}

/// Makes the copies.
fn make_copies(alloc: Global) -> Result<Copies, AllocError> {
    let mut letters = Letters { state: 5 };
    let text = copied(alloc, &mut letters)?;
    let mut copies = Copies {
        strings: Vec::new(alloc),
        starts: Vec::new(alloc),
    };
    push_copies(&mut copies, &mut letters, &text)?;
    Ok(copies)
}

/// Returns rows whose originals go from a copy to the end of all. Those that begin at one mark are in every `step`-th
/// copy, so that each two copies are neighbours once.
fn pairs(alloc: Global, copies: &Copies) -> Result<Vec<Pair>, AllocError> {
    let end = (copies.strings.len() % 4_294_967_296) as u32;
    let end = end.wrapping_sub(1);
    let translation = Place { start: end, len: 0 };
    let mut pairs = Vec::new(alloc);
    let mut mark = 0u32;
    for step in 1..COPIES {
        for first in 0..step.min(COPIES - step) {
            for copy in (first..COPIES).step_by(step as usize) {
                let begin = copies.starts.get(copy as usize).copied().unwrap_or(0);
                let start = begin.wrapping_add(mark.wrapping_mul(MARKED));
                let original = Place {
                    start,
                    len: end.wrapping_sub(start),
                };
                pairs.push(Pair {
                    original,
                    translation,
                })?;
            }
            mark = mark.wrapping_add(1);
        }
    }
    Ok(pairs)
}

/// Changes a byte of a copy.
fn change(copies: &mut Copies, copy: usize, place: u32, byte: u8) {
    let begin = copies.starts.get(copy).copied().unwrap_or(0);
    if let Some(old) = copies.strings.get_mut(begin.wrapping_add(place) as usize) {
        *old = byte;
    }
}

/// Why the file of all pairs is refused.
fn refusal_of(alloc: Global, copies: &Copies) -> Option<MoFault> {
    match pairs(alloc, copies) {
        Ok(pairs) => refusal_of_rows(alloc, &pairs, &copies.strings, true),
        Err(_) => Some(MoFault::Memory),
    }
}

/// Whether it is refused so, once a byte of this copy has been changed.
fn is_refused(alloc: Global, copy: usize, place: u32, byte: Option<u8>, wanted: MoFault) -> bool {
    match make_copies(alloc) {
        Ok(mut copies) => {
            if let Some(byte) = byte {
                change(&mut copies, copy, place, byte);
            }
            refusal_of(alloc, &copies) == Some(wanted)
        }
        Err(_) => false,
    }
}

/// A copy, the place in it of a byte that is changed, the new byte, and why the file is refused then.
const CHANGES: &[(usize, u32, Option<u8>, MoFault)] = &[
    (0, 0, None, MoFault::Swollen),
    // A copy that differs before its end, and is still above those before it or no longer.
    (35, 19_000, Some(b'~'), MoFault::Swollen),
    (35, 19_000, Some(b'!'), MoFault::Order),
    (17, 19_000, Some(b'~'), MoFault::Order),
    // The last two bytes of a copy.
    (35, COPIED, Some(b'A'), MoFault::Order),
    (35, COPIED, Some(b'C'), MoFault::Swollen),
];

/// The copy, the place and the byte of the first row that isn't refused so.
fn wrong_change(alloc: Global) -> Option<(usize, u32, Option<u8>)> {
    for (copy, place, byte, wanted) in CHANGES {
        if !is_refused(alloc, *copy, *place, *byte, *wanted) {
            return Some((*copy, *place, *byte));
        }
    }
    None
}

#[test]
fn copies_of_one_text(rt: HostRuntime) {
    let wrong = wrong_change(rt.alloc());
    assert!(rt; wrong.is_none(), "{wrong:?}");
}
