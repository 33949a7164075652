//! Sets of catalogues as C holds them. A set never changes: adding a catalogue makes a new set. A reader of a live
//! store is the set of the version that it entered last, or the empty set once it has left.
ghost use Rattle.std.specs.Prelude.{◌≡◌, ◌≤◌, ◌↔◌, IfOk, IsTrue, option_map};
ghost use Rattle.std.specs.Arc.{arc_value};
ghost use Rattle.live_set.specs.Names.{IsName};
ghost use Rattle.live_set.specs.Sets.{HasAbsorbed, no_loads};
ghost use denote.Param.{layout};
ghost use prog.Memory.{align, size};
ghost use Rattle.c_answers.specs.Answering.{question};
ghost use Rattle.c_sets.specs.contracts.sets.HeldSet.{the_row};
ghost use Rattle.c_sets.specs.Making.{AreNames, IsAnswerIn, IsEmpty, IsMade, IsWith, IsWithSet, IsWithout, load_of};
ghost use Rattle.c_sets.specs.Making.{IsSetAnswer, name_number, set_in, set_number, version_in};

use c_answers::numbers::{BAD_NAME, FAULT, MEMORY, NO_FAULT, VERSION};
use c_answers::{Opened, context_in, number_in};
use catalogue::Catalogue;
use live_set::{CatalogueSet, Load, Name, NameFault, is_name};
use snapshot_store::{Away, Reader};
use std::alloc::Global;
use std::str::from_utf8;
use std::sync::Arc;

/// Where a set comes from.
#[derive(Drop)]
pub enum Origin {
    /// C made it.
    Made(CatalogueSet),
    /// It is that of the version that this reader entered last.
    Lent(Reader),
    /// It is empty, since its reader left.
    Left(Away, CatalogueSet),
    /// There is none.
    Refused,
}

/// A set, or a reader that lends one, or why there is none.
#[derive(Drop)]
pub struct HeldSet {
    pub origin: Origin,
    /// The number (`c_answers::numbers`) of why there is no set, or of why the reader's last call failed; otherwise
    /// `NO_FAULT`.
    pub fault: u32,
}

/// The number of bytes that C allocates for a set. `malloc` aligns them well enough.
pub fn set_size() -> usize
    ensures size { result ≡ size (layout the_row) }
    ensures alignment { align (layout the_row) ≤ 16 }
{
    std::mem::size_of::<HeldSet>()
}

/// The set, unless it was refused.
#[inline(always)]
pub fn set_of(held: &HeldSet) -> Option<&CatalogueSet>
    ensures { option_map (λ set. set.now) result ≡ set_in held.now.origin }
{
    match &held.origin {
        Origin::Made(set) => Some(set),
        Origin::Lent(reader) => Some(reader.set()),
        Origin::Left(_, set) => Some(set),
        Origin::Refused => None,
    }
}

/// The number in `kobdzila.h` of what is wrong with a name.
fn name_number(fault: NameFault) -> u32
    ensures { result ≡ name_number fault }
{
    match fault {
        NameFault::BadName => BAD_NAME,
        NameFault::Memory => MEMORY,
    }
}

/// No set, for this reason.
pub fn without(fault: u32) -> HeldSet
    ensures { IsWithout fault result }
{
    HeldSet {
        origin: Origin::Refused,
        fault,
    }
}

/// A set that C made.
fn made(set: CatalogueSet) -> HeldSet
    ensures { IsMade (λ value. value ≡ set) result }
{
    HeldSet {
        origin: Origin::Made(set),
        fault: NO_FAULT,
    }
}

/// The set of no catalogues.
pub fn new_set(alloc: Global) -> HeldSet
    ensures { IsEmpty result }
{
    made(CatalogueSet::new(alloc))
}

/// Whether these bytes are a name.
pub fn is_name_of(bytes: &[u8]) -> bool
    ensures { IsTrue result ↔ IsName bytes.now }
{
    match from_utf8(bytes) {
        Ok(text) => is_name(text),
        Err(_) => false,
    }
}

/// Whether both are names.
fn are_names(domain: &[u8], locale: &[u8]) -> bool
    ensures { IsTrue result ↔ AreNames domain.now locale.now }
{
    is_name_of(domain) && is_name_of(locale)
}

/// Makes a name of these bytes.
fn name_of(alloc: Global, bytes: &[u8]) -> Result<Name, NameFault>
    ensures { IfOk result (λ name. name ≡ bytes.now) }
{
    match from_utf8(bytes) {
        Ok(text) => Name::new(alloc, text),
        Err(_) => Err(NameFault::BadName),
    }
}

/// A load that shares a catalogue, for a text domain and a locale.
fn load_of(
    alloc: Global,
    domain: &[u8],
    locale: &[u8],
    catalogue: &Arc<Catalogue>,
) -> Result<Load, NameFault>
    ensures { IfOk result (λ load. load ≡ load_of domain.now locale.now (arc_value catalogue.now)) }
{
    Ok(Load {
        domain: name_of(alloc, domain)?,
        locale: name_of(alloc, locale)?,
        catalogue: Arc::try_clone(catalogue)?,
    })
}

/// The set with one more load. It shares all catalogues with `set`.
fn more(
    alloc: Global,
    set: &CatalogueSet,
    domain: &[u8],
    locale: &[u8],
    catalogue: &Arc<Catalogue>,
) -> Result<CatalogueSet, NameFault>
    ensures { IfOk result (HasAbsorbed (load_of domain.now locale.now (arc_value catalogue.now)) set.now) }
{
    let load = load_of(alloc, domain, locale, catalogue)?;
    let mut more = set.try_clone(alloc)?;
    more.absorb(&load)?;
    Ok(more)
}

/// The set with one more catalogue, which replaces the one for its text domain and locale. Memory is taken only if the
/// catalogue was opened and both are names.
fn with_one_in(
    alloc: Global,
    set: &CatalogueSet,
    domain: &[u8],
    locale: &[u8],
    opened: &Opened,
) -> HeldSet
    ensures { IsWithSet set.now domain.now locale.now opened.now result }
{
    let Some(catalogue) = &opened.catalogue else {
        return without(opened.fault);
    };
    if !are_names(domain, locale) {
        return without(name_number(NameFault::BadName));
    }
    match more(alloc, set, domain, locale, catalogue) {
        Ok(set) => HeldSet {
            origin: Origin::Made(set),
            fault: NO_FAULT,
        },
        Err(_) => without(name_number(NameFault::Memory)),
    }
}

/// Like `with_one_in`, for a set that C holds.
pub fn with_one(
    alloc: Global,
    held: &HeldSet,
    domain: &[u8],
    locale: &[u8],
    opened: &Opened,
) -> HeldSet
    ensures { IsWith held.now domain.now locale.now opened.now result }
{
    match set_of(held) {
        Some(set) => with_one_in(alloc, set, domain, locale, opened),
        None => without(held.fault),
    }
}

/// Drops a set or a reader.
pub fn close_set(held: HeldSet) {
    drop(held);
}

/// How many catalogues were added to the set, replaced ones included: in the version that a reader entered last, how
/// many loads are published.
fn version(held: &HeldSet) -> u64
    ensures { result ≡ version_in held.now.origin }
{
    match &held.origin {
        Origin::Made(set) => set.version(),
        Origin::Lent(reader) => reader.version(),
        Origin::Left(away, _) => away.version(),
        Origin::Refused => 0,
    }
}

/// A number of a set or a reader: its `FAULT`, or its `VERSION`.
pub fn set_number(held: &HeldSet, which: u32) -> u64
    ensures { result ≡ set_number held.now which }
{
    match which {
        FAULT => u64::from(held.fault),
        VERSION => version(held),
        _ => 0,
    }
}

/// The string that answers a question to a set, with its terminating NUL, or no bytes if there is none.
#[inline(always)]
fn answer_in<'k>(
    set: &'k CatalogueSet,
    domain: &[u8],
    languages: &[u8],
    context: &[u8],
    id: &[u8],
    call: u32,
    n: u64,
) -> &'k [u8]
    ensures { IsAnswerIn set.now domain.now languages.now (question call context.now id.now n) result.now }
{
    let (Ok(domain), Ok(languages)) = (from_utf8(domain), from_utf8(languages)) else {
        return &[];
    };
    let context = context_in(call, context);
    let n = number_in(call, n);
    match set.translated_with_nul(domain, languages, context, id, n) {
        Some(text) => text,
        None => &[],
    }
}

/// Like `answer_in`, for a set that C holds.
#[tactic(auto, using(crate::proofs::Reading::answered_from))]
pub fn set_answer<'k>(
    held: &'k HeldSet,
    domain: &[u8],
    languages: &[u8],
    context: &[u8],
    id: &[u8],
    call: u32,
    n: u64,
) -> &'k [u8]
    ensures { IsSetAnswer held.now domain.now languages.now (question call context.now id.now n) result.now }
{
    match set_of(held) {
        Some(set) => answer_in(set, domain, languages, context, id, call, n),
        None => &[],
    }
}
