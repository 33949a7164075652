//! The segments of a file: each name once, in the order of first use.
ghost use Rattle.std.specs.Prelude.{◌≡◌, ◌*◌, ◌++◌, ◌<◌, ◌≤◌, ◌^◌, ◌+◌, length, map, slice_get, Some, IfOk, OnOk};
ghost use Rattle.std.specs.List.{AllByRecursion};
ghost use Rattle.std.specs.Str.{bytes_eq};
ghost use Rattle.mo_image.specs.MoFile.{pool};
ghost use Rattle.mo_dependent.specs.Splits.{HasSplits, IsSplit};
ghost use Rattle.mo_dependent.specs.Segments.{index_of, add_name, names_after, names_of, segments, segment_rows};

use crate::split::{Dependent, SplitText, message_at, name_at, split_at, split_count};
use crate::words::push_word;
use std::alloc::{AllocError, Global};

/// Whether two names are the same.
fn is_same(name: &[u8], other: &[u8]) -> bool
    ensures { result ≡ bytes_eq name.now other.now }
{
    name == other
}

/// The i-th name.
fn name_of<'a>(names: &[&'a [u8]], i: usize) -> &'a [u8]
    requires { i < length names.now }
    ensures { slice_get (map (λ n. n.now) names.now) i ≡ Some result.now }
{
    names[i]
}

/// The number of the segment with this name; the number of names if there is none.
pub(crate) fn index_of(names: &[&[u8]], name: &[u8]) -> usize
    ensures index { result ≡ index_of (map (λ n. n.now) names.now) name.now }
    ensures within { result ≤ length names.now }
{
    'names: for i in 0..names.len() {
        if is_same(name_of(names, i), name) {
            return i;
        }
    }
    names.len()
}

/// Adds a name, unless it is there.
fn add_name<'a>(names: &mut Vec<&'a [u8]>, name: &'a [u8]) -> Result<(), AllocError>
    ensures { OnOk result (map (λ n. n.now) names.new.items ≡ add_name (map (λ n. n.now) names.old.items) name.now) }
{
    if index_of(names.as_slice(), name) == names.len() {
        names.push(name)?;
    }
    Ok(())
}

/// Adds the names of a text.
fn add_names<'a>(names: &mut Vec<&'a [u8]>, text: &'a SplitText) -> Result<(), AllocError>
    requires { HasSplits text.now }
    ensures { OnOk result (map (λ n. n.now) names.new.items
        ≡ names_after (map (λ n. n.now) names.old.items) (names_of text.now)) }
{
    'splits: for i in 0..split_count(text) {
        add_name(names, name_at(text.bytes.as_slice(), split_at(text, i)))?;
    }
    Ok(())
}

/// The names of all segments.
pub(crate) fn segment_names(
    alloc: Global,
    dependents: &[Dependent],
) -> Result<Vec<&[u8]>, AllocError>
    requires { AllByRecursion IsSplit dependents.now }
    ensures { IfOk result (λ v. map (λ n. n.now) v.items ≡ segments dependents.now) }
{
    let mut names = Vec::new(alloc);
    'messages: for i in 0..dependents.len() {
        let message = message_at(dependents, i);
        add_names(&mut names, &message.original)?;
        add_names(&mut names, &message.translation)?;
    }
    Ok(names)
}

/// The strings of the segments, each with a NUL after it.
pub(crate) fn name_pool(alloc: Global, names: &[&[u8]]) -> Result<Vec<u8>, AllocError>
    ensures { IfOk result (λ v. v.items ≡ pool (map (λ n. n.now) names.now)) }
{
    let mut out = Vec::new(alloc);
    'names: for i in 0..names.len() {
        out.extend_from_slice(name_of(names, i))?;
        out.push(0)?;
    }
    Ok(out)
}

/// Appends the table of the segments, whose strings begin at the offset `at`.
pub(crate) fn push_segments(
    out: &mut Vec<u8>,
    names: &[&[u8]],
    mut at: usize,
) -> Result<(), AllocError>
    requires { at + length (pool (map (λ n. n.now) names.now)) < 2 ^ 32 }
    ensures { OnOk result (out.new.items ≡ out.old.items ++ segment_rows at (map (λ n. n.now) names.now)) }
{
    'names: for i in 0..names.len() {
        let len = name_of(names, i).len() + 1;
        push_word(out, len)?;
        push_word(out, at)?;
        at += len;
    }
    Ok(())
}
