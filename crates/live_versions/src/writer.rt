//! The writer of the two copies, whose log holds the pending loads.
ghost use Rattle.std.specs.Prelude.{◌≡◌, ◌+◌, ◌^◌, ◌<◌, [], ◌∷◌, ◌++◌, length, drop, OnOk, OnErr};
ghost use Rattle.left_right.specs.Sides.{view};
ghost use Rattle.live_loads.specs.Batches.{version_of};
ghost use Rattle.live_versions.specs.Changes.{loads_of, EndsIn};

use crate::rule::{Change, Shown, Versions, View};
use crate::seal::Seal;
use crate::seen::Seen;
use core::mem::replace_with;
use crossbeam_utils::rule::Outcome;
use left_right::writer::Writer;
use live_set::Load;
use std::alloc::AllocError;
use std::snapshot::Snapshot;
use std::sync::Wait;

pub(crate) type StoreWriter = Writer<Shown, Change, View, Versions>;

/// Publishing: the writer's view becomes what the new copy shows.
struct Publishing;

impl Outcome<Shown, View> for Publishing {
    ghost then = { λ v x y w. w ≡ record { books = y.seen.book ∷ []; batches = y.seen.batches } };
}

/// Publishes with nothing pending, so that the writer's view has its book.
pub(crate) fn name_book<R: Wait>(
    rt: &R,
    writer: StoreWriter,
) -> (StoreWriter, Result<(), AllocError>)
    requires { drop writer.behind writer.log.items ≡ [] }
    ensures pending { drop result.0.behind result.0.log.items ≡ [] }
    ensures shown { result.0.desk.shown.value.seen ≡ writer.desk.shown.value.seen }
    ensures book { OnOk result.1 ((view result.0.desk.place).books ≡ writer.desk.shown.value.seen.book ∷ []) }
{
    writer.publish_as::<Publishing, R>(rt)
}

/// Publishes the pending loads, up to the seal that ends them.
fn publish_sealed<R: Wait>(
    rt: &R,
    writer: StoreWriter,
    seal: &Snapshot<Seal>,
) -> (StoreWriter, Result<(), AllocError>)
    requires sealed { EndsIn seal.now.value (drop writer.behind writer.log.items) }
    requires bound { seal.now.value ≡ record {
      book = writer.desk.shown.value.seen.book;
      batches = writer.desk.shown.value.seen.batches ++ loads_of (drop writer.behind writer.log.items) ∷ [];
    } }
    requires some { 0 < length (loads_of (drop writer.behind writer.log.items)) }
    requires room { version_of writer.desk.shown.value.seen.batches
        + length (loads_of (drop writer.behind writer.log.items)) < 2 ^ 64 }
    ensures sum { version_of seal.now.value.batches
        ≡ version_of writer.desk.shown.value.seen.batches + length (loads_of (drop writer.behind writer.log.items)) }
    ensures ok { OnOk result.1
        ((result.0.desk.shown.value.seen ≡ seal.now.value) × (drop result.0.behind result.0.log.items ≡ [])) }
    ensures err { OnErr result.1
        ((result.0.desk.shown.value ≡ writer.desk.shown.value)
        × (drop result.0.behind result.0.log.items ≡ drop writer.behind writer.log.items)) }
{
    writer.publish_as::<Publishing, R>(rt)
}

/// Like `publish_sealed`, through a `&mut`.
pub(crate) fn publish_at<R: Wait>(
    rt: &R,
    writer: &mut StoreWriter,
    seal: &Snapshot<Seal>,
) -> Result<(), AllocError>
    requires sealed { EndsIn seal.now.value (drop writer.old.behind writer.old.log.items) }
    requires bound { seal.now.value
        ≡ record {
          book = writer.old.desk.shown.value.seen.book;
          batches = writer.old.desk.shown.value.seen.batches
              ++ loads_of (drop writer.old.behind writer.old.log.items) ∷ [];
        } }
    requires some { 0 < length (loads_of (drop writer.old.behind writer.old.log.items)) }
    requires room { version_of writer.old.desk.shown.value.seen.batches
        + length (loads_of (drop writer.old.behind writer.old.log.items)) < 2 ^ 64 }
    ensures sum { version_of seal.now.value.batches
        ≡ version_of writer.old.desk.shown.value.seen.batches
        + length (loads_of (drop writer.old.behind writer.old.log.items)) }
    ensures ok { OnOk result
        ((writer.new.desk.shown.value.seen ≡ seal.now.value) × (drop writer.new.behind writer.new.log.items ≡ [])) }
    ensures err { OnErr result
        ((writer.new.desk.shown.value ≡ writer.old.desk.shown.value)
        × (drop writer.new.behind writer.new.log.items ≡ drop writer.old.behind writer.old.log.items)) }
{
    replace_with(writer, rt, |writer, rt| publish_sealed(rt, writer, seal))
}

/// Appends a load to the pending ones.
pub(crate) fn append_load(writer: &mut StoreWriter, load: Load) -> Result<(), AllocError>
    ensures desk { writer.new.desk ≡ writer.old.desk }
    ensures ok { OnOk result
        (loads_of (drop writer.new.behind writer.new.log.items)
        ≡ loads_of (drop writer.old.behind writer.old.log.items) ++ load ∷ []) }
    ensures err { OnErr result
        (drop writer.new.behind writer.new.log.items ≡ drop writer.old.behind writer.old.log.items) }
{
    match writer.append(Change::Load(load)) {
        Ok(()) => Ok(()),
        Err(_) => Err(AllocError),
    }
}

/// Appends the seal to the pending loads.
pub(crate) fn append_seal(writer: &mut StoreWriter, seal: Seal) -> Result<(), AllocError>
    ensures desk { writer.new.desk ≡ writer.old.desk }
    ensures loads { loads_of (drop writer.new.behind writer.new.log.items)
        ≡ loads_of (drop writer.old.behind writer.old.log.items) }
    ensures ok { OnOk result (EndsIn seal (drop writer.new.behind writer.new.log.items)) }
{
    match writer.append(Change::Seal(seal)) {
        Ok(()) => Ok(()),
        Err(_) => Err(AllocError),
    }
}

/// The batches that were just shown, as seen in the book. The copy's last change was their seal, so it has a token; no
/// contract says so, and without one this would not return.
pub(crate) fn just_shown<R: Wait>(rt: &R, writer: &StoreWriter) -> Seen
    ensures { result ≡ writer.now.desk.shown.value.seen }
{
    for _ in rt.forever() {
        if let Some(seen) = writer.published().seen.token() {
            return seen;
        }
    }
    unreachable!()
}
