//! Live stores, readers and notices as C holds them. A reader is a set (`c_sets`), that of its version.
ghost use Rattle.std.specs.Prelude.{◌≡◌, ◌≤◌, Some, None, IfErr, OnErr, OnOk};
ghost use Rattle.std.specs.Arc.{arc_value};
ghost use denote.Param.{layout};
ghost use prog.Memory.{align, size};
ghost use Rattle.live_loads.specs.Store.{AddsLoad};
ghost use Rattle.snapshot_store.specs.Holding.{IsRefusedShared};
ghost use Rattle.c_answers.specs.Numbers.{busy_fault, memory_fault, no_fault};
ghost use Rattle.c_stores.specs.Storing.{AreOfOne, IsAfter, IsBack, IsBackAfter, IsEntered, IsEnteredAfter, IsLater};
ghost use Rattle.c_stores.specs.Storing.{HasLeft, IsLeft, IsLoadIn, IsLoaded, IsReclaimed, IsEntranceOf, IsNewStore};
ghost use Rattle.c_stores.specs.Storing.{IsNoticeOf, IsPublished, IsPublishedIn, IsReaderFrom, IsStoreNumber};
ghost use Rattle.c_stores.specs.Storing.{load_number, publish_number, store_pending, store_version};
ghost use Rattle.c_sets.specs.declared.sets.Origin.TheVariants.{Left, Lent};
ghost use Rattle.c_stores.specs.contracts.stores.HeldStore.{the_row as store_row};
ghost use Rattle.c_stores.specs.contracts.stores.HeldNotice.{the_row as notice_row};
ghost use Rattle.c_stores.specs.contracts.stores.HeldEntrance.{the_row as entrance_row};

use c_answers::Opened;
use c_answers::numbers::{
    BAD_NAME, BUSY, FAULT, MEMORY, NO_FAULT, PENDING, RETAINED, VERSION, VERSIONS_SPENT,
};
use c_sets::{HeldSet, Origin, without};
use catalogue::Catalogue;
use live_loads::StoreFault;
use live_set::CatalogueSet;
use snapshot_store::{Away, Entrance, Notice, PublishFault, Publisher, Reader, open_store};
use std::alloc::Global;
use std::str::from_utf8;
use std::sync::Arc;

/// A store, or none if it couldn't be opened.
#[derive(Drop)]
pub struct HeldStore {
    pub publisher: Option<Publisher>,
    /// The number of why the last call was refused (`c_answers::numbers`); `NO_FAULT` if it wasn't.
    pub fault: u32,
}

/// A notice, or none if its store wasn't opened.
#[derive(Drop)]
pub struct HeldNotice {
    pub notice: Option<Notice>,
}

/// An entrance to a store, or none if it couldn't be made.
#[derive(Drop)]
pub struct HeldEntrance {
    pub entrance: Option<Entrance>,
}

/// The number of bytes that C allocates for a live store. `malloc` aligns them well enough.
pub fn store_size() -> usize
    ensures size { result ≡ size (layout store_row) }
    ensures alignment { align (layout store_row) ≤ 16 }
{
    std::mem::size_of::<HeldStore>()
}

/// The number of bytes that C allocates for a notice. `malloc` aligns them well enough.
pub fn notice_size() -> usize
    ensures size { result ≡ size (layout notice_row) }
    ensures alignment { align (layout notice_row) ≤ 16 }
{
    std::mem::size_of::<HeldNotice>()
}

/// The number of bytes that C allocates for an entrance. `malloc` aligns them well enough.
pub fn entrance_size() -> usize
    ensures size { result ≡ size (layout entrance_row) }
    ensures alignment { align (layout entrance_row) ≤ 16 }
{
    std::mem::size_of::<HeldEntrance>()
}

fn store_of(publisher: Publisher, fault: u32) -> HeldStore
    ensures { (result.publisher ≡ Some publisher) × (result.fault ≡ fault) }
{
    HeldStore {
        publisher: Some(publisher),
        fault,
    }
}

fn no_store() -> HeldStore
    ensures { (result.publisher ≡ None) × (result.fault ≡ memory_fault) }
{
    HeldStore {
        publisher: None,
        fault: MEMORY,
    }
}

fn reader_of(reader: Reader, fault: u32) -> HeldSet
    ensures { (result.origin ≡ Lent reader) × (result.fault ≡ fault) }
{
    HeldSet {
        origin: Origin::Lent(reader),
        fault,
    }
}

/// Opens a store in which nothing is published.
pub fn open(alloc: Global) -> HeldStore
    ensures { IsNewStore result }
{
    match open_store(alloc) {
        Ok(publisher) => store_of(publisher, NO_FAULT),
        Err(_) => no_store(),
    }
}

/// The number of why a load is refused.
fn load_number(fault: StoreFault) -> u32
    ensures { result ≡ load_number fault }
{
    match fault {
        StoreFault::BadName => BAD_NAME,
        StoreFault::VersionsSpent => VERSIONS_SPENT,
        StoreFault::Refused(_) => MEMORY,
        StoreFault::RefusedMo(_) => MEMORY,
        StoreFault::Memory => MEMORY,
    }
}

/// Adds a load of this catalogue to the pending ones, or returns why it is refused.
#[tactic(auto, using(crate::proofs::Naming::domain_is_text, crate::proofs::Naming::locale_is_text))]
fn loaded(
    alloc: Global,
    publisher: &mut Publisher,
    domain: &[u8],
    locale: &[u8],
    catalogue: &Arc<Catalogue>,
) -> Result<(), StoreFault>
    ensures ok { OnOk result (AddsLoad publisher.old domain.now locale.now (arc_value catalogue.now) publisher.new) }
    ensures err { IfErr result (IsRefusedShared publisher.old domain.now locale.now) }
    ensures unchanged { OnErr result (publisher.new ≡ publisher.old) }
{
    let Ok(domain) = from_utf8(domain) else {
        return Err(StoreFault::BadName);
    };
    let Ok(locale) = from_utf8(locale) else {
        return Err(StoreFault::BadName);
    };
    publisher.load_shared(alloc, domain, locale, catalogue)
}

/// Adds a load of what was opened to the pending ones, or refuses it.
fn load_in(
    alloc: Global,
    mut publisher: Publisher,
    domain: &[u8],
    locale: &[u8],
    opened: &Opened,
) -> HeldStore
    ensures { IsLoadIn publisher domain.now locale.now opened.now result }
{
    let fault = match &opened.catalogue {
        None => opened.fault,
        Some(catalogue) => match loaded(alloc, &mut publisher, domain, locale, catalogue) {
            Ok(()) => NO_FAULT,
            Err(fault) => load_number(fault),
        },
    };
    store_of(publisher, fault)
}

/// Adds a load of what was opened to the pending ones, or refuses it.
pub fn load(
    alloc: Global,
    domain: &[u8],
    locale: &[u8],
    opened: &Opened,
    store: HeldStore,
) -> HeldStore
    ensures { IsLoaded store domain.now locale.now opened.now result }
{
    match store.publisher {
        Some(publisher) => load_in(alloc, publisher, domain, locale, opened),
        None => no_store(),
    }
}

/// The number of why nothing is published.
fn publish_number(fault: PublishFault) -> u32
    ensures { result ≡ publish_number fault }
{
    match fault {
        PublishFault::Memory => MEMORY,
        PublishFault::Busy => BUSY,
        PublishFault::Spent => VERSIONS_SPENT,
    }
}

fn published(alloc: Global, mut publisher: Publisher) -> HeldStore
    ensures { IsPublishedIn publisher result }
{
    let fault = match publisher.publish(alloc) {
        Ok(_) => NO_FAULT,
        Err(fault) => publish_number(fault),
    };
    store_of(publisher, fault)
}

/// Publishes all pending loads in one step, or changes nothing.
pub fn publish(alloc: Global, store: HeldStore) -> HeldStore
    ensures { IsPublished store result }
{
    match store.publisher {
        Some(publisher) => published(alloc, publisher),
        None => no_store(),
    }
}

fn reclaimed(mut publisher: Publisher, fault: u32) -> HeldStore
    ensures { (result.publisher ≡ Some publisher) × (result.fault ≡ fault) }
{
    publisher.reclaim();
    store_of(publisher, fault)
}

/// Frees the replaced versions that no reader has.
pub fn reclaim(store: HeldStore) -> HeldStore
    ensures { IsReclaimed store result }
{
    let HeldStore { publisher, fault } = store;
    match publisher {
        Some(publisher) => reclaimed(publisher, fault),
        None => HeldStore {
            publisher: None,
            fault,
        },
    }
}

/// The number of loads that are published.
fn version(store: &HeldStore) -> u64
    ensures { result ≡ store_version store.now.publisher }
{
    match &store.publisher {
        Some(publisher) => publisher.version(),
        None => 0,
    }
}

/// The number of loads that are pending.
fn pending(store: &HeldStore) -> u64
    ensures { result ≡ store_pending store.now.publisher }
{
    match &store.publisher {
        Some(publisher) => publisher.pending(),
        None => 0,
    }
}

/// The number of replaced versions that aren't freed.
fn retained(store: &HeldStore) -> u64 {
    match &store.publisher {
        Some(publisher) => publisher.retained() as u64,
        None => 0,
    }
}

/// A number of a store: the `FAULT` of the last call, its `VERSION`, which is how many loads are published, how many
/// are `PENDING`, or how many replaced versions aren't freed (`RETAINED`).
pub fn store_number(store: &HeldStore, which: u32) -> u64
    ensures { IsStoreNumber store.now which result }
{
    match which {
        FAULT => u64::from(store.fault),
        VERSION => version(store),
        PENDING => pending(store),
        RETAINED => retained(store),
        _ => 0,
    }
}

/// Drops a store. Its readers stay.
pub fn close_store(store: HeldStore) {
    drop(store);
}

/// A notice of what is published in a store.
pub fn notice(store: &HeldStore) -> HeldNotice
    ensures { IsNoticeOf store.now result }
{
    HeldNotice {
        notice: match &store.publisher {
            Some(publisher) => Some(publisher.tell()),
            None => None,
        },
    }
}

/// Drops a notice.
pub fn close_notice(notice: HeldNotice) {
    drop(notice);
}

/// An entrance to a store.
pub fn entrance(store: &HeldStore) -> HeldEntrance
    ensures { IsEntranceOf store.now result }
{
    HeldEntrance {
        entrance: match &store.publisher {
            Some(publisher) => publisher.entrance().ok(),
            None => None,
        },
    }
}

/// A reader of an entrance's store, in the newest version.
pub fn reader_from(entrance: &HeldEntrance) -> HeldSet
    ensures { IsReaderFrom entrance.now result }
{
    let reader = match &entrance.entrance {
        Some(entrance) => entrance.reader().ok(),
        None => None,
    };
    match reader {
        Some(reader) => reader_of(reader, NO_FAULT),
        None => without(MEMORY),
    }
}

/// Drops an entrance.
pub fn close_entrance(entrance: HeldEntrance) {
    drop(entrance);
}

/// Whether an entry of the reader would find nothing new, as 1 or 0.
pub fn is_current(held: &HeldSet) -> u32
    ensures { result ≤ 1 }
{
    match &held.origin {
        Origin::Lent(reader) => u32::from(reader.is_current()),
        _ => 0,
    }
}

fn entered(mut reader: Reader) -> HeldSet
    ensures later { IsLater reader result }
    ensures fault { result.fault ≡ no_fault }
{
    reader.enter();
    reader_of(reader, NO_FAULT)
}

/// A reader that left and couldn't enter.
fn still_out(away: Away, set: CatalogueSet) -> HeldSet
    ensures { (result.origin ≡ Left away set) × (result.fault ≡ busy_fault) }
{
    HeldSet {
        origin: Origin::Left(away, set),
        fault: BUSY,
    }
}

fn back(away: Away, set: CatalogueSet) -> HeldSet
    ensures { IsBack away result }
{
    match away.enter() {
        Ok(reader) => reader_of(reader, NO_FAULT),
        Err(away) => still_out(away, set),
    }
}

/// Enters the newest version.
pub fn enter(held: HeldSet) -> HeldSet
    ensures { IsEntered held result }
{
    let HeldSet { origin, fault } = held;
    match origin {
        Origin::Lent(reader) => entered(reader),
        Origin::Left(away, set) => back(away, set),
        origin => HeldSet { origin, fault },
    }
}

fn left(alloc: Global, away: Away) -> HeldSet
    ensures { HasLeft away result.origin × (result.fault ≡ no_fault) }
{
    HeldSet {
        origin: Origin::Left(away, CatalogueSet::new(alloc)),
        fault: NO_FAULT,
    }
}

/// Leaves the version that was entered last.
pub fn leave(alloc: Global, held: HeldSet) -> HeldSet
    ensures { IsLeft held result }
{
    let HeldSet { origin, fault } = held;
    match origin {
        Origin::Lent(reader) => left(alloc, reader.leave()),
        Origin::Left(away, _) => left(alloc, away),
        origin => HeldSet { origin, fault },
    }
}

fn entered_after(mut reader: Reader, notice: &Notice) -> HeldSet
    requires { notice.now.book ≡ reader.book }
    ensures later { IsLater reader result }
    ensures after { IsAfter reader notice.now result }
{
    if reader.enter_after(notice) {
        reader_of(reader, NO_FAULT)
    } else {
        reader_of(reader, BUSY)
    }
}

fn back_after(away: Away, set: CatalogueSet, notice: &Notice) -> HeldSet
    requires { notice.now.book ≡ away.book }
    ensures { IsBackAfter away notice.now result }
{
    match away.enter_after(notice) {
        Ok(reader) => reader_of(reader, NO_FAULT),
        Err(away) => still_out(away, set),
    }
}

/// Enters the newest version, which isn't older than the notice.
pub fn enter_after(held: HeldSet, notice: &HeldNotice) -> HeldSet
    requires { AreOfOne held notice.now }
    ensures { IsEnteredAfter held notice.now result }
{
    let HeldSet { origin, fault } = held;
    match origin {
        Origin::Lent(reader) => match &notice.notice {
            Some(notice) => entered_after(reader, notice),
            None => entered(reader),
        },
        Origin::Left(away, set) => match &notice.notice {
            Some(notice) => back_after(away, set, notice),
            None => back(away, set),
        },
        origin => HeldSet { origin, fault },
    }
}

/// A value that may go to another thread.
fn may_go<T: Send>(_: &T) {}

/// A value that threads may share.
fn may_be_shared<T: Sync>(_: &T) {}

/// That all of these may go to other threads, and that threads may share each but a store. It does nothing.
pub fn all_may_go(store: &HeldStore, set: &HeldSet, notice: &HeldNotice, entrance: &HeldEntrance) {
    may_go(store);
    may_go(set);
    may_go(notice);
    may_go(entrance);
    may_be_shared(set);
    may_be_shared(notice);
    may_be_shared(entrance);
}
