//! Writes a file.
ghost use Rattle.std.specs.Prelude.{◌≡◌, ◌++◌, ◌≤◌, length, IfOk, IfErr, OnOk};
ghost use Rattle.std.specs.List.{AllByRecursion};
ghost use Rattle.mo_image.specs.MoFile.{most_file};
ghost use Rattle.mo_dependent.specs.Splits.{IsSplit};
ghost use Rattle.mo_dependent.specs.Layout.{IsDependentFile, IsWriteFault};
ghost use Rattle.mo_dependent.specs.FilePieces.{AreParts, file_of_parts};

use crate::descriptors::{descriptors_len, push_descriptors, push_pointers, text_pool};
use crate::fault::WriteFault;
use crate::hashing::{hash_table, push_slots};
use crate::header::{Sizes, file_len, push_header};
use crate::names::{index_of, name_pool, push_segments, segment_names};
use crate::slots::hash_size;
use crate::split::Dependent;
use crate::statics::{push_strings, string_pool};
use mo_image::{Image, MAX_LEN};
use std::alloc::{AllocError, Global};

/// The parts of a file.
#[derive(Clone, Copy)]
struct Parts<'a> {
    statics: &'a Image,
    dependents: &'a [Dependent],
    names: &'a [&'a [u8]],
    slots: &'a [u32],
    name_pool: &'a [u8],
    text_pool: &'a [u8],
    sizes: Sizes,
    descriptors_len: usize,
}

/// Appends all parts.
fn push_parts(out: &mut Vec<u8>, parts: &Parts<'_>) -> Result<(), AllocError>
    requires { AreParts parts.now }
    ensures { OnOk result (out.new.items ≡ out.old.items ++ file_of_parts parts.now) }
{
    let strings = string_pool(parts.statics);
    let descriptors_at = parts.sizes.descriptors_at();
    let strings_at = descriptors_at + parts.descriptors_len;
    let names_at = strings_at + strings.len();
    let texts_at = names_at + parts.name_pool.len();
    let has_flag = index_of(parts.names, b"I") < parts.names.len();
    push_header(out, parts.sizes, has_flag)?;
    push_strings(out, parts.statics, strings_at)?;
    push_slots(out, parts.slots)?;
    push_segments(out, parts.names, names_at)?;
    push_pointers(out, parts.dependents, descriptors_at)?;
    push_descriptors(out, parts.names, parts.dependents, texts_at)?;
    out.extend_from_slice(strings)?;
    out.extend_from_slice(parts.name_pool)?;
    out.extend_from_slice(parts.text_pool)?;
    Ok(())
}

/// The file of the parts, which has this length.
fn filled(alloc: Global, len: usize, parts: &Parts<'_>) -> Result<Vec<u8>, AllocError>
    requires { AreParts parts.now }
    ensures file { IfOk result (λ v. v.items ≡ file_of_parts parts.now) }
    ensures fits { IfOk result (λ v. length v.items ≤ most_file) }
{
    let mut out = Vec::with_capacity(alloc, len)?;
    push_parts(&mut out, parts)?;
    Ok(out)
}

/// Writes the MO file of static messages, which `statics` has, and system-dependent ones: revision 0.1, or 1.1 if a
/// segment is the flag `I`; little-endian; with a hash table; without padding.
///
/// The static messages are in rising order of their keys, and the system-dependent ones in the order given. Without
/// any of these the file has an empty system-dependent part; msgfmt writes revision 0.0 then, as
/// [`Image::file`](mo_image::Image::file) has it.
pub fn write_dependent(
    alloc: Global,
    statics: &Image,
    dependents: &[Dependent],
) -> Result<Vec<u8>, WriteFault>
    requires { AllByRecursion IsSplit dependents.now }
    ensures file { IfOk result (λ v. IsDependentFile statics.now dependents.now v.items) }
    ensures fits { IfOk result (λ v. length v.items ≤ most_file) }
    ensures err { IfErr result (IsWriteFault statics.now dependents.now) }
{
    if MAX_LEN / 8 < dependents.len() {
        return Err(WriteFault::TooLarge);
    }
    let Some(descriptors_len) = descriptors_len(dependents) else {
        return Err(WriteFault::TooLarge);
    };
    let count = statics.len();
    let Some(size) = hash_size(count + dependents.len()) else {
        return Err(WriteFault::TooLarge);
    };
    let names = segment_names(alloc, dependents)?;
    let name_pool = name_pool(alloc, names.as_slice())?;
    let text_pool = text_pool(alloc, dependents)?;
    let sizes = Sizes {
        statics: count,
        slots: size,
        segments: names.len(),
        dependents: dependents.len(),
    };
    let strings = descriptors_len + string_pool(statics).len();
    let Some(len) = file_len(sizes, strings, name_pool.len(), text_pool.len()) else {
        return Err(WriteFault::TooLarge);
    };
    let slots = hash_table(alloc, statics, size)?;
    let parts = Parts {
        statics,
        dependents,
        names: names.as_slice(),
        slots: slots.as_slice(),
        name_pool: name_pool.as_slice(),
        text_pool: text_pool.as_slice(),
        sizes,
        descriptors_len,
    };
    Ok(filled(alloc, len, &parts)?)
}
