//! Opening a store.
ghost use Rattle.std.specs.Prelude.{◌≡◌, ◌≢◌, ◌<◌, ◌≤◌, ◌↔◌, ◌⊎◌, [], ◌∷◌, All, IfOk, IfErr, vec_len};
ghost use Rattle.live_set.specs.Sets.{no_loads};
ghost use Rattle.live_versions.specs.declared.fault.OpenFault.TheVariants.{BadCount};
ghost use Rattle.left_right.specs.Sides.{view};

use crate::fault::OpenFault;
use crate::publisher::Publisher;
use crate::reader::Lookups;
use crate::rule::{Shown, View};
use crate::seal::{Cover, Sealing};
use crate::seen::{Seen, open_book};
use crate::writer::{StoreWriter, name_book};
use atomic_table::{Join, Split};
use left_right::writer::Writer;
use live_set::CatalogueSet;
use std::alloc::Global;
use std::sync::atomic::AtomicU64;
use std::sync::{Arc, Wait};

/// The most readers that a store may have.
const MOST_READERS: u32 = 16;

/// How a new reader learns the writer's view: the writer keeps it, and the reader takes it over.
struct Same;

impl Split<View> for Same {
    ghost left = { λ v. v };

    ghost right = { λ v. v };
}

impl Join<View> for Same {
    ghost use Rattle.live_versions.specs.SeatViews.{fresh_view};

    ghost both = { λ v w. w };

    ghost spent = { fresh_view };
}

/// Makes a reader of the writer's book that has seen these batches.
fn new_reader(writer: &mut StoreWriter, seen: &Seen) -> Result<Lookups, OpenFault>
    requires { (view writer.old.desk.place).books ≡ seen.now.book ∷ [] }
    ensures reader { IfOk result (λ l. l ≡ seen.now) }
    ensures fault { IfErr result (λ fault. fault ≢ BadCount) }
    ensures kept { (writer.new.desk.shown ≡ writer.old.desk.shown) × (writer.new.log ≡ writer.old.log)
        × (writer.new.behind ≡ writer.old.behind) × (view writer.new.desk.place ≡ view writer.old.desk.place) }
{
    let Ok(mut reader) = writer.factory().reader() else {
        return Err(OpenFault::NoPlace);
    };
    reader.learn::<Same>(writer.tell::<Same>());
    Ok(Lookups::new(reader, seen.again()))
}

/// Makes `readers` readers of this book that have seen these batches.
fn new_readers(
    alloc: Global,
    writer: &mut StoreWriter,
    seen: &Seen,
    readers: u32,
) -> Result<Vec<Lookups>, OpenFault>
    requires { (view writer.old.desk.place).books ≡ seen.now.book ∷ [] }
    ensures readers { IfOk result (λ v. (vec_len v ≡ readers) × All (λ l. l ≡ seen.now) v.items) }
    ensures fault { IfErr result (λ fault. fault ≢ BadCount) }
    ensures kept { (writer.new.desk.shown ≡ writer.old.desk.shown) × (writer.new.log ≡ writer.old.log)
        × (writer.new.behind ≡ writer.old.behind) }
{
    let mut lookups = Vec::new(alloc);
    for _ in 0..readers {
        let lookup = new_reader(writer, seen)?;
        if lookups.push(lookup).is_err() {
            return Err(OpenFault::Memory);
        }
    }
    Ok(lookups)
}

/// One of the two copies of a new store.
fn first_shown(alloc: Global, seen: &Seen) -> Shown
    ensures set { result.set ≡ no_loads }
    ensures seen { result.seen ≡ seen.now }
{
    Shown {
        set: CatalogueSet::new(alloc),
        seen: Cover::first(seen),
    }
}

/// Opens a store with `readers` readers that accepts at most `most` loads.
///
/// Returns `BadCount` exactly if `readers` isn't 1 to 16, before it allocates anything, and `NoPlace` if no seat was
/// left for a reader. No reader has entered yet, so there is none that it could wait for.
pub fn open_store<R: Wait>(
    rt: &R,
    alloc: Global,
    readers: u32,
    most: u64,
) -> Result<(Publisher, Vec<Lookups>), OpenFault>
    ensures publisher { IfOk result (λ t. (t.0.seen.batches ≡ []) × (t.0.pending ≡ []) × (t.0.most ≡ most)) }

    // Each reader belongs to this store, and has seen nothing.
    ensures readers { IfOk result (λ t. (vec_len t.1 ≡ readers) × All (λ l. l ≡ t.0.seen) t.1.items) }
    ensures counted { IfOk result (λ _. (1 ≤ readers) × (readers ≤ 16)) }
    ensures bad_count { IfErr result (λ fault. (fault ≡ BadCount) ↔ ((readers ≡ 0) ⊎ (16 < readers))) }
{
    if readers == 0 || readers > MOST_READERS {
        return Err(OpenFault::BadCount);
    }
    let (head, seen) = open_book();
    let live = AtomicU64::new(0);
    let Ok(sealing) = Arc::new(alloc, Sealing { head, live }) else {
        return Err(OpenFault::Memory);
    };
    let (first, second) = (first_shown(alloc, &seen), first_shown(alloc, &seen));
    let Ok(writer) = Writer::new(alloc, first, second, readers as usize) else {
        return Err(OpenFault::Memory);
    };
    let (mut writer, named) = name_book(rt, writer);
    if named.is_err() {
        drop(writer.take(rt));
        return Err(OpenFault::Memory);
    }
    match new_readers(alloc, &mut writer, &seen, readers) {
        Ok(lookups) => Ok((Publisher::new(writer, sealing, seen, most), lookups)),
        Err(fault) => {
            drop(writer.take(rt));
            Err(fault)
        }
    }
}
