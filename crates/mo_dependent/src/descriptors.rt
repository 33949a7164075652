//! Descriptors of system-dependent strings, and the texts that they name.
ghost use Rattle.std.specs.Prelude.{◌≡◌, ◌*◌, ◌++◌, ◌<◌, ◌≤◌, ◌^◌, ◌+◌, length, map, IfOk, OnOk, MatchOption};
ghost use Rattle.std.specs.List.{AllByRecursion, sum_by};
ghost use Rattle.mo_image.specs.MoFile.{most_file};
ghost use Rattle.mo_dependent.specs.Splits.{HasSplits, IsSplit, text_of, texts, text_pool};
ghost use Rattle.mo_dependent.specs.Layout.{rows, descriptor_len, pointers, descriptors};

use crate::names::index_of;
use crate::split::{Dependent, SplitText, name_at, split_at, split_count, text_at};
use crate::words::push_word;
use mo_image::ROW_LEN;
use std::alloc::{AllocError, Global};

/// What follows the last piece of a text in place of a segment's number.
const NO_SEGMENT: usize = 0xffff_ffff;

/// The length of a descriptor without splits: the offset of its text and one row.
const LEAST_LEN: usize = 12;

/// Appends the pieces of a text, and a NUL.
fn push_text(out: &mut Vec<u8>, text: &SplitText) -> Result<(), AllocError>
    requires { HasSplits text.now }
    ensures { OnOk result (out.new.items ≡ out.old.items ++ text_of text.now) }
{
    let bytes = text.bytes.as_slice();
    let mut from = 0;
    'splits: for i in 0..split_count(text) {
        let split = split_at(text, i);
        out.extend_from_slice(&bytes[from..split.start])?;
        from = split.start + split.len;
    }
    out.extend_from_slice(&bytes[from..])?;
    out.push(0)?;
    Ok(())
}

/// The texts of the originals, and then those of the translations.
pub(crate) fn text_pool(alloc: Global, dependents: &[Dependent]) -> Result<Vec<u8>, AllocError>
    requires splits { AllByRecursion IsSplit dependents.now }
    requires small { length dependents.now ≤ most_file }
    ensures { IfOk result (λ v. v.items ≡ text_pool (texts dependents.now)) }
{
    let mut out = Vec::new(alloc);
    'texts: for i in 0..2 * dependents.len() {
        push_text(&mut out, text_at(dependents, i))?;
    }
    Ok(out)
}

/// The length of all descriptors, if it is at most that of the largest file.
pub(crate) fn descriptors_len(dependents: &[Dependent]) -> Option<usize>
    requires { length dependents.now ≤ most_file }
    ensures { MatchOption result (most_file < sum_by descriptor_len (texts dependents.now))
        (λ n. (n ≡ sum_by descriptor_len (texts dependents.now)) × (n ≤ most_file)) }
{
    let mut len = 0;
    'texts: for i in 0..2 * dependents.len() {
        let splits = split_count(text_at(dependents, i));
        if mo_image::MAX_LEN < splits {
            return None;
        }
        len += LEAST_LEN + ROW_LEN * splits;
        if mo_image::MAX_LEN < len {
            return None;
        }
    }
    Some(len)
}

/// Appends the tables of the descriptors' offsets, the first of which is `at`.
pub(crate) fn push_pointers(
    out: &mut Vec<u8>,
    dependents: &[Dependent],
    mut at: usize,
) -> Result<(), AllocError>
    requires small { length dependents.now ≤ most_file }
    requires fits { at + sum_by descriptor_len (texts dependents.now) < 2 ^ 32 }
    ensures { OnOk result (out.new.items ≡ out.old.items ++ pointers at (texts dependents.now)) }
{
    'texts: for i in 0..2 * dependents.len() {
        push_word(out, at)?;
        at += LEAST_LEN + ROW_LEN * split_count(text_at(dependents, i));
    }
    Ok(())
}

/// Appends the rows of a descriptor: the length of each piece, and the number of the segment after it. Returns the
/// length of the text with its NUL.
fn push_rows(out: &mut Vec<u8>, names: &[&[u8]], text: &SplitText) -> Result<usize, AllocError>
    requires splits { HasSplits text.now }
    requires small { length (text_of text.now) < 2 ^ 32 }
    requires names { length names.now < 2 ^ 32 }
    ensures rows { OnOk result (out.new.items ≡ out.old.items ++ rows (map (λ n. n.now) names.now) text.now) }
    ensures len { IfOk result (λ n. n ≡ length (text_of text.now)) }
{
    let bytes = text.bytes.as_slice();
    let mut from = 0;
    let mut len = 0;
    'splits: for i in 0..split_count(text) {
        let split = split_at(text, i);
        push_word(out, split.start - from)?;
        push_word(out, index_of(names, name_at(bytes, split)))?;
        len += split.start - from;
        from = split.start + split.len;
    }
    let last = bytes.len() - from + 1;
    push_word(out, last)?;
    push_word(out, NO_SEGMENT)?;
    Ok(len + last)
}

/// Appends the descriptors of the originals, and then those of the translations. Their texts begin at the offset `at`.
pub(crate) fn push_descriptors(
    out: &mut Vec<u8>,
    names: &[&[u8]],
    dependents: &[Dependent],
    mut at: usize,
) -> Result<(), AllocError>
    requires splits { AllByRecursion IsSplit dependents.now }
    requires small { length dependents.now ≤ most_file }
    requires names { length names.now < 2 ^ 32 }
    requires fits { at + length (text_pool (texts dependents.now)) < 2 ^ 32 }
    ensures { OnOk result (out.new.items ≡ out.old.items
        ++ descriptors (map (λ n. n.now) names.now) at (texts dependents.now)) }
{
    'texts: for i in 0..2 * dependents.len() {
        push_word(out, at)?;
        at += push_rows(out, names, text_at(dependents, i))?;
    }
    Ok(())
}
