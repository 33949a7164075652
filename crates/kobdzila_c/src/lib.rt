//! Message catalogues for C, and for every language that can call C.
//!
//! C allocates the memory of a catalogue or a set and holds a pointer to it. These exports are what the C files of
//! `kobdzila.h` are built on; programs call the functions of that header.
#![tactic(auto)]

ghost use Rattle.std.specs.Prelude.{◌≡◌, ◌≤◌, ◌↔◌, [], IsTrue, nat_lt};
ghost use base.Fml.{Lft, Share, flft};
ghost use denote.Param.{layout};
ghost use denote.RawPtr.{room_at};
ghost use prog.Memory.{align, size};
ghost use types.Logic.{sem};
ghost use Rattle.live_set.specs.Names.{IsName};
ghost use Rattle.live_set.specs.contracts.places.Places.{the_row as places_row};
ghost use Rattle.c_answers.specs.Answering.{question};
ghost use Rattle.c_answers.specs.Listing.{number};
ghost use Rattle.c_answers.specs.contracts.opened.Opened.{the_row};
ghost use Rattle.c_answers.specs.declared.opened.Opened.{Opened as Held};
ghost use Rattle.c_opening.specs.Handing.{IsExtended, IsHanded, IsOpenedHandedMo, IsOpenedHandedPo};
ghost use Rattle.c_opening.specs.Opening.{options_of};
ghost use Rattle.c_outputs.specs.Outputs.{IsFormatFaults, IsPoText, IsRecodedText, output_number};
ghost use Rattle.c_outputs.specs.contracts.outputs.HeldOutput.{the_row as output_row};
ghost use Rattle.c_outputs.specs.declared.outputs.HeldOutput.{HeldOutput as AnOutput};
ghost use Rattle.c_sets.specs.Making.{IsEmpty, IsWith, set_number};
ghost use Rattle.c_sets.specs.NamedPlaces.{AreSetPlaces};
ghost use Rattle.c_sets.specs.contracts.sets.HeldSet.{the_row as set_row};
ghost use Rattle.c_sets.specs.declared.sets.HeldSet.{HeldSet as ASet};
ghost use Rattle.c_stores.specs.Storing.{AreOfOne, IsEntered, IsEnteredAfter, IsLoaded, IsNewStore, IsNoticeOf};
ghost use Rattle.c_stores.specs.Storing.{IsEntranceOf, IsPublished, IsReaderFrom, IsStoreNumber, IsLeft, IsReclaimed};
ghost use Rattle.c_stores.specs.contracts.stores.HeldStore.{the_row as store_row};
ghost use Rattle.c_stores.specs.declared.stores.HeldStore.{HeldStore as AStore};
ghost use Rattle.c_stores.specs.contracts.stores.HeldNotice.{the_row as notice_row};
ghost use Rattle.c_stores.specs.declared.stores.HeldNotice.{HeldNotice as ANotice};
ghost use Rattle.c_stores.specs.contracts.stores.HeldEntrance.{the_row as entrance_row};
ghost use Rattle.c_stores.specs.declared.stores.HeldEntrance.{HeldEntrance as AnEntrance};
ghost use Rattle.kobdzila_c.specs.Shared.{Text, answer_at, holds, opened_at, string_at, po_opened_at, reads};
ghost use Rattle.kobdzila_c.specs.Shared.{holds_set, places_at, reads_set, set_answered, set_answered_at, set_at};
ghost use Rattle.kobdzila_c.specs.Shared.{holds_store, reads_store, store_at, holds_notice, notice_at, reads_notice};
ghost use Rattle.kobdzila_c.specs.Shared.{entrance_at, holds_entrance, reads_entrance, holds_output, output_at};
ghost use Rattle.kobdzila_c.specs.Shared.{reads_output, text_lent};

use c_answers::Opened;
use c_outputs::HeldOutput;
use c_sets::HeldSet;
use c_stores::{HeldEntrance, HeldNotice, HeldStore};
use live_set::Places;
use std::alloc::Global;

/// The type that C's pointers to a catalogue have. C must not read or write its bytes.
pub struct Opaque {
    byte: u8,
}

/// The number of bytes that C allocates for a catalogue. `malloc` aligns them well enough.
#[unsafe(no_mangle)]
pub extern "C" fn kobdzila_size() -> usize
    ensures size { result ≡ size (layout the_row) }
    ensures alignment { align (layout the_row) ≤ 16 }
{
    c_answers::opened_size()
}

/// Compiles a PO text, and writes its catalogue, or why it is refused, to `out`. An option is on if its argument isn't
/// 0. With `strict` the text must be UTF-8, and no format may name a macro; otherwise it may be in any charset of
/// `charsets`, and have macros. With `without_index` the catalogue gets no index.
#[unsafe(no_mangle)]
pub unsafe extern "C" fn kobdzila_open_po(
    alloc: Global,
    bytes: &[u8],
    checked: u32,
    use_fuzzy: u32,
    strict: u32,
    without_index: u32,
    out: *mut Opaque,
)
    requires* { sem 𝓛 (room_at the_row out) }
    ensures* { sem 𝓛 (po_opened_at out bytes.now (options_of checked use_fuzzy) (nat_lt 0 strict)) }
{
    (out as *mut Opened).write(c_opening::open_po(
        alloc,
        bytes,
        checked,
        use_fuzzy,
        strict,
        without_index,
    ));
}

/// Writes to `out` that no bytes were handed over yet, with room for `len`, or that memory ran out.
#[unsafe(no_mangle)]
pub unsafe extern "C" fn kobdzila_bytes_new(alloc: Global, len: u64, out: *mut Opaque)
    requires* { sem 𝓛 (room_at the_row out) }
    ensures* { sem 𝓛 (opened_at out (IsHanded [])) }
{
    (out as *mut Opened).write(c_opening::new_bytes(alloc, len));
}

/// Adds a piece to the bytes that were handed over to `held`.
#[unsafe(no_mangle)]
pub unsafe extern "C" fn kobdzila_bytes_add(piece: &[u8], held: *mut Opaque)
    ghost value: { Held }
    requires* { sem 𝓛 (holds held value) }
    ensures* { sem 𝓛 (opened_at held (IsExtended value piece.now)) }
{
    (held as *mut Opened).write(c_opening::add_piece(piece, (held as *mut Opened).read()));
}

/// Opens the MO file that was handed over to `held`, in its memory. An option is on if its argument isn't 0. With
/// `strict` its revision must be 0.0; otherwise it may be any that `mo_revisions` reads. With `without_index` the
/// catalogue gets no index.
#[unsafe(no_mangle)]
pub unsafe extern "C" fn kobdzila_bytes_open_mo(
    alloc: Global,
    strict: u32,
    without_index: u32,
    held: *mut Opaque,
)
    ghost value: { Held }
    requires* { sem 𝓛 (holds held value) }
    ensures* { sem 𝓛 (opened_at held (IsOpenedHandedMo value (nat_lt 0 strict))) }
{
    (held as *mut Opened).write(c_opening::open_handed_mo(
        alloc,
        strict,
        without_index,
        (held as *mut Opened).read(),
    ));
}

/// Opens the PO text that was handed over to `held` as `kobdzila_open_po` does, in its memory. The fault is
/// `WANTED_AGAIN` where that function may open the text in another charset, or with macros or the flag `I`.
#[unsafe(no_mangle)]
pub unsafe extern "C" fn kobdzila_bytes_open_po(
    alloc: Global,
    checked: u32,
    use_fuzzy: u32,
    strict: u32,
    without_index: u32,
    held: *mut Opaque,
)
    ghost value: { Held }
    requires* { sem 𝓛 (holds held value) }
    ensures* { sem 𝓛 (opened_at held (IsOpenedHandedPo value (options_of checked use_fuzzy) (nat_lt 0 strict))) }
{
    (held as *mut Opened).write(c_opening::open_handed_po(
        alloc,
        checked,
        use_fuzzy,
        strict,
        without_index,
        (held as *mut Opened).read(),
    ));
}

/// Drops the catalogue at `held`, and gives its memory back to C.
#[unsafe(no_mangle)]
pub unsafe extern "C" fn kobdzila_close(held: *mut Opaque)
    ghost value: { Held }
    requires* { sem 𝓛 (holds held value) }
    ensures* { sem 𝓛 (room_at the_row held) }
{
    c_answers::close((held as *mut Opened).read());
}

/// A number (`c_answers::numbers`) of what is at `held`: its `FAULT`, the fault's `LINE`, the `COUNT` of its entries,
/// or how many entries of its PO text, the header aside, are `TRANSLATED`, `FUZZY` or `UNTRANSLATED`; those three are 0
/// for an MO file. For entry `i` it is the number of `FORMS`, or 1 if it `HAS_CONTEXT` or `HAS_PLURAL`. Any other
/// number is 0, and so is one of an entry that isn't there.
#[unsafe(no_mangle)]
pub unsafe extern "C" fn kobdzila_number(held: *const Opaque, which: u32, i: u64) -> u64
    ghost g: { Lft × Share × Held }
    requires* { sem 𝓛 (reads g.0 g.1 held g.2) }
    ensures* { sem 𝓛 (flft g.0 g.1) ∗ ⌜ result ≡ number g.2 which i ⌝ }
{
    c_answers::number(&*(held as *const Opened), which, i)
}

/// Writes a string (`c_answers::numbers`) of what is at `held` to `out`: its MO file is `FILE_BYTES`. For entry `i` it
/// is the `CONTEXT`, the `MSGID`, the `PLURAL`, or `FORM` `k`. If there is no such string, it is empty. None of them
/// includes a terminating NUL.
#[unsafe(no_mangle)]
pub unsafe extern "C" fn kobdzila_text(
    held: *const Opaque,
    part: u32,
    i: u64,
    k: u64,
    out: *mut &[u8],
)
    ghost g: { Lft × Share × Held }
    requires* { sem 𝓛 (reads g.0 g.1 held g.2) ∗ sem 𝓛 (room_at (Text g.0) out) }
    ensures* { sem 𝓛 (flft g.0 g.1) ∗ sem 𝓛 (string_at g.0 out g.2 part i k) }
{
    *out = c_answers::text(&*(held as *const Opened), part, i, k);
}

/// Returns a hint for `kobdzila_answer`: a number with which it takes less time. To answer many calls, first get the
/// hints of all of them: a processor waits for the memory of several of them at once.
#[unsafe(no_mangle)]
pub unsafe extern "C" fn kobdzila_hint(
    held: *const Opaque,
    context: &[u8],
    id: &[u8],
    call: u32,
) -> u64
    ghost g: { Lft × Share × Held }
    requires* { sem 𝓛 (reads g.0 g.1 held g.2) }
    ensures* { sem 𝓛 (flft g.0 g.1) }
{
    c_answers::hint(&*(held as *const Opened), context, id, call)
}

/// Writes the answer to a call to `out`, with its terminating NUL, or no bytes if there is no such entry. The calls are
/// 0 for gettext, 1 for pgettext, 2 for ngettext and 3 for npgettext; the context and the number are used only by those
/// that have them. The answer is the same whatever the hint is.
#[unsafe(no_mangle)]
pub unsafe extern "C" fn kobdzila_answer(
    held: *const Opaque,
    context: &[u8],
    id: &[u8],
    call: u32,
    n: u64,
    hint: u64,
    out: *mut &[u8],
)
    ghost g: { Lft × Share × Held }
    requires* { sem 𝓛 (reads g.0 g.1 held g.2) ∗ sem 𝓛 (room_at (Text g.0) out) }
    ensures* { sem 𝓛 (flft g.0 g.1) ∗ sem 𝓛 (answer_at g.0 out g.2 (question call context.now id.now n)) }
{
    *out = c_answers::answer(&*(held as *const Opened), context, id, call, n, hint);
}

/// Like `kobdzila_answer` for gettext, the call that programs make most.
#[unsafe(no_mangle)]
pub unsafe extern "C" fn kobdzila_gettext(held: *const Opaque, id: &[u8], out: *mut &[u8])
    ghost g: { Lft × Share × Held }
    requires* { sem 𝓛 (reads g.0 g.1 held g.2) ∗ sem 𝓛 (room_at (Text g.0) out) }
    ensures* { sem 𝓛 (flft g.0 g.1) ∗ sem 𝓛 (answer_at g.0 out g.2 (question 0 [] id.now 0)) }
{
    *out = c_answers::gettext(&*(held as *const Opened), id);
}

/// The type that C's pointers to a set have. C must not read or write its bytes.
pub struct OpaqueSet {
    byte: u8,
}

/// Whether these bytes are a name of a text domain or a locale.
#[unsafe(no_mangle)]
pub extern "C" fn kobdzila_is_name(bytes: &[u8]) -> bool
    ensures { IsTrue result ↔ IsName bytes.now }
{
    c_sets::is_name_of(bytes)
}

/// The number of bytes that C allocates for a set of catalogues. `malloc` aligns them well enough.
#[unsafe(no_mangle)]
pub extern "C" fn kobdzila_set_size() -> usize
    ensures size { result ≡ size (layout set_row) }
    ensures alignment { align (layout set_row) ≤ 16 }
{
    c_sets::set_size()
}

/// Writes the empty set to `out`.
#[unsafe(no_mangle)]
pub unsafe extern "C" fn kobdzila_set_new(alloc: Global, out: *mut OpaqueSet)
    requires* { sem 𝓛 (room_at set_row out) }
    ensures* { sem 𝓛 (set_at out IsEmpty) }
{
    (out as *mut HeldSet).write(c_sets::new_set(alloc));
}

/// Writes to `out` the set at `held` with one more catalogue, that at `catalogue`, or why there is none. The catalogue
/// replaces the one for its text domain and locale; all others are shared by both sets.
#[unsafe(no_mangle)]
pub unsafe extern "C" fn kobdzila_set_with(
    alloc: Global,
    held: *const OpaqueSet,
    domain: &[u8],
    locale: &[u8],
    catalogue: *const Opaque,
    out: *mut OpaqueSet,
)
    ghost g: { Lft × Share × ASet × Lft × Share × Held }
    requires* { (sem 𝓛 (reads_set g.0 g.1 held g.2) ∗ sem 𝓛 (reads g.3 g.4 catalogue g.5))
        ∗ sem 𝓛 (room_at set_row out) }
    ensures* { (sem 𝓛 (flft g.0 g.1) ∗ sem 𝓛 (flft g.3 g.4))
        ∗ sem 𝓛 (set_at out (IsWith g.2 domain.now locale.now g.5)) }
{
    (out as *mut HeldSet).write(c_sets::with_one(
        alloc,
        &*(held as *const HeldSet),
        domain,
        locale,
        &*(catalogue as *const Opened),
    ));
}

/// Drops the set at `held`, and gives its memory back to C.
#[unsafe(no_mangle)]
pub unsafe extern "C" fn kobdzila_set_close(held: *mut OpaqueSet)
    ghost value: { ASet }
    requires* { sem 𝓛 (holds_set held value) }
    ensures* { sem 𝓛 (room_at set_row held) }
{
    c_sets::close_set((held as *mut HeldSet).read());
}

/// A number (`c_answers::numbers`) of the set at `held`: its `FAULT`, or its `VERSION`, which is how many catalogues
/// were added to it, replaced ones included.
#[unsafe(no_mangle)]
pub unsafe extern "C" fn kobdzila_set_number(held: *const OpaqueSet, which: u32) -> u64
    ghost g: { Lft × Share × ASet }
    requires* { sem 𝓛 (reads_set g.0 g.1 held g.2) }
    ensures* { sem 𝓛 (flft g.0 g.1) ∗ ⌜ result ≡ set_number g.2 which ⌝ }
{
    c_sets::set_number(&*(held as *const HeldSet), which)
}

/// Writes the answer to a call in a text domain and a list of languages to `out`, with its terminating NUL, or no bytes
/// if no catalogue named has such an entry. The calls are numbered as for `kobdzila_answer`.
#[unsafe(no_mangle)]
pub unsafe extern "C" fn kobdzila_set_answer(
    held: *const OpaqueSet,
    domain: &[u8],
    languages: &[u8],
    context: &[u8],
    id: &[u8],
    call: u32,
    n: u64,
    out: *mut &[u8],
)
    ghost g: { Lft × Share × ASet }
    requires* { sem 𝓛 (reads_set g.0 g.1 held g.2) ∗ sem 𝓛 (room_at (Text g.0) out) }
    ensures* { sem 𝓛 (flft g.0 g.1) ∗ sem 𝓛 (set_answered g.0 out g.2 domain.now languages.now
        (question call context.now id.now n)) }
{
    *out = c_sets::set_answer(
        &*(held as *const HeldSet),
        domain,
        languages,
        context,
        id,
        call,
        n,
    );
}

/// Writes to `out` the places of the catalogues that a list of languages names in a text domain of the set at `held`.
/// If there are more than 16, the count is larger than that.
#[unsafe(no_mangle)]
pub unsafe extern "C" fn kobdzila_set_languages(
    held: *const OpaqueSet,
    domain: &[u8],
    languages: &[u8],
    out: *mut Places,
)
    ghost g: { Lft × Share × ASet }
    requires* { sem 𝓛 (reads_set g.0 g.1 held g.2) ∗ sem 𝓛 (room_at places_row out) }
    ensures* { sem 𝓛 (flft g.0 g.1) ∗ sem 𝓛 (places_at out (AreSetPlaces g.2 domain.now languages.now)) }
{
    out.write(c_sets::set_places(&*(held as *const HeldSet), domain, languages));
}

/// Returns a hint for `kobdzila_set_answer_at`, as `kobdzila_hint` does for `kobdzila_answer`.
#[unsafe(no_mangle)]
pub unsafe extern "C" fn kobdzila_set_hint(
    held: *const OpaqueSet,
    places: &[u32],
    context: &[u8],
    id: &[u8],
    call: u32,
) -> u64
    ghost g: { Lft × Share × ASet }
    requires* { sem 𝓛 (reads_set g.0 g.1 held g.2) }
    ensures* { sem 𝓛 (flft g.0 g.1) }
{
    c_sets::set_hint(&*(held as *const HeldSet), places, context, id, call)
}

/// Like `kobdzila_set_answer`, from the first of these places that has such an entry. A place where there is no
/// catalogue is passed over. The answer is the same whatever the hint is.
#[unsafe(no_mangle)]
pub unsafe extern "C" fn kobdzila_set_answer_at(
    held: *const OpaqueSet,
    places: &[u32],
    context: &[u8],
    id: &[u8],
    call: u32,
    n: u64,
    hint: u64,
    out: *mut &[u8],
)
    ghost g: { Lft × Share × ASet }
    requires* { sem 𝓛 (reads_set g.0 g.1 held g.2) ∗ sem 𝓛 (room_at (Text g.0) out) }
    ensures* { sem 𝓛 (flft g.0 g.1) ∗ sem 𝓛 (set_answered_at g.0 out g.2 places.now
        (question call context.now id.now n)) }
{
    *out = c_sets::set_answer_at(
        &*(held as *const HeldSet),
        places,
        context,
        id,
        call,
        n,
        hint,
    );
}

/// The type that C's pointers to a live store have. C must not read or write its bytes.
pub struct OpaqueStore {
    byte: u8,
}

/// The type that C's pointers to a notice of a live store have. C must not read or write its bytes.
pub struct OpaqueNotice {
    byte: u8,
}

/// The type that C's pointers to an entrance to a live store have. C must not read or write its bytes.
pub struct OpaqueEntrance {
    byte: u8,
}

/// The number of bytes that C allocates for a live store. `malloc` aligns them well enough.
#[unsafe(no_mangle)]
pub extern "C" fn kobdzila_store_size() -> usize
    ensures size { result ≡ size (layout store_row) }
    ensures alignment { align (layout store_row) ≤ 16 }
{
    c_stores::store_size()
}

/// The number of bytes that C allocates for a notice. `malloc` aligns them well enough.
#[unsafe(no_mangle)]
pub extern "C" fn kobdzila_notice_size() -> usize
    ensures size { result ≡ size (layout notice_row) }
    ensures alignment { align (layout notice_row) ≤ 16 }
{
    c_stores::notice_size()
}

/// The number of bytes that C allocates for an entrance. `malloc` aligns them well enough.
#[unsafe(no_mangle)]
pub extern "C" fn kobdzila_entrance_size() -> usize
    ensures size { result ≡ size (layout entrance_row) }
    ensures alignment { align (layout entrance_row) ≤ 16 }
{
    c_stores::entrance_size()
}

/// Writes a store in which nothing is published to `out`, or none if memory runs out.
#[unsafe(no_mangle)]
pub unsafe extern "C" fn kobdzila_store_open(alloc: Global, out: *mut OpaqueStore)
    requires* { sem 𝓛 (room_at store_row out) }
    ensures* { sem 𝓛 (store_at out IsNewStore) }
{
    (out as *mut HeldStore).write(c_stores::open(alloc));
}

/// Makes the catalogue at `catalogue` pending in the store at `held`, or refuses it, which changes nothing. The store
/// shares the catalogue.
#[unsafe(no_mangle)]
pub unsafe extern "C" fn kobdzila_store_load(
    alloc: Global,
    domain: &[u8],
    locale: &[u8],
    catalogue: *const Opaque,
    held: *mut OpaqueStore,
)
    ghost g: { Lft × Share × Held × AStore }
    requires* { sem 𝓛 (holds_store held g.3) ∗ sem 𝓛 (reads g.0 g.1 catalogue g.2) }
    ensures* { sem 𝓛 (flft g.0 g.1) ∗ sem 𝓛 (store_at held (IsLoaded g.3 domain.now locale.now g.2)) }
{
    (held as *mut HeldStore).write(c_stores::load(
        alloc,
        domain,
        locale,
        &*(catalogue as *const Opened),
        (held as *mut HeldStore).read(),
    ));
}

/// Publishes all pending loads of the store at `held` in one step, or changes nothing.
#[unsafe(no_mangle)]
pub unsafe extern "C" fn kobdzila_store_publish(alloc: Global, held: *mut OpaqueStore)
    ghost value: { AStore }
    requires* { sem 𝓛 (holds_store held value) }
    ensures* { sem 𝓛 (store_at held (IsPublished value)) }
{
    (held as *mut HeldStore).write(c_stores::publish(alloc, (held as *mut HeldStore).read()));
}

/// Frees the replaced versions of the store at `held` that no reader has. The store is as it was.
#[unsafe(no_mangle)]
pub unsafe extern "C" fn kobdzila_store_reclaim(held: *mut OpaqueStore)
    ghost value: { AStore }
    requires* { sem 𝓛 (holds_store held value) }
    ensures* { sem 𝓛 (store_at held (IsReclaimed value)) }
{
    (held as *mut HeldStore).write(c_stores::reclaim((held as *mut HeldStore).read()));
}

/// A number (`c_answers::numbers`) of the store at `held`: the `FAULT` of the last call, its `VERSION`, which is how
/// many loads are published, how many are `PENDING`, or how many replaced versions aren't freed (`RETAINED`).
#[unsafe(no_mangle)]
pub unsafe extern "C" fn kobdzila_store_number(held: *const OpaqueStore, which: u32) -> u64
    ghost g: { Lft × Share × AStore }
    requires* { sem 𝓛 (reads_store g.0 g.1 held g.2) }
    ensures* { sem 𝓛 (flft g.0 g.1) ∗ ⌜ IsStoreNumber g.2 which result ⌝ }
{
    c_stores::store_number(&*(held as *const HeldStore), which)
}

/// Drops the store at `held`, and gives its memory back to C. Its readers and notices stay.
#[unsafe(no_mangle)]
pub unsafe extern "C" fn kobdzila_store_close(held: *mut OpaqueStore)
    ghost value: { AStore }
    requires* { sem 𝓛 (holds_store held value) }
    ensures* { sem 𝓛 (room_at store_row held) }
{
    c_stores::close_store((held as *mut HeldStore).read());
}

/// Writes a notice of what is published in the store at `held` to `out`.
#[unsafe(no_mangle)]
pub unsafe extern "C" fn kobdzila_store_notice(held: *const OpaqueStore, out: *mut OpaqueNotice)
    ghost g: { Lft × Share × AStore }
    requires* { sem 𝓛 (reads_store g.0 g.1 held g.2) ∗ sem 𝓛 (room_at notice_row out) }
    ensures* { sem 𝓛 (flft g.0 g.1) ∗ sem 𝓛 (notice_at out (IsNoticeOf g.2)) }
{
    (out as *mut HeldNotice).write(c_stores::notice(&*(held as *const HeldStore)));
}

/// Drops the notice at `held`, and gives its memory back to C.
#[unsafe(no_mangle)]
pub unsafe extern "C" fn kobdzila_notice_close(held: *mut OpaqueNotice)
    ghost value: { ANotice }
    requires* { sem 𝓛 (holds_notice held value) }
    ensures* { sem 𝓛 (room_at notice_row held) }
{
    c_stores::close_notice((held as *mut HeldNotice).read());
}

/// Writes an entrance to the store at `held` to `out`, or none if memory runs out. Readers are made there while the
/// store is in another call.
#[unsafe(no_mangle)]
pub unsafe extern "C" fn kobdzila_store_entrance(held: *const OpaqueStore, out: *mut OpaqueEntrance)
    ghost g: { Lft × Share × AStore }
    requires* { sem 𝓛 (reads_store g.0 g.1 held g.2) ∗ sem 𝓛 (room_at entrance_row out) }
    ensures* { sem 𝓛 (flft g.0 g.1) ∗ sem 𝓛 (entrance_at out (IsEntranceOf g.2)) }
{
    (out as *mut HeldEntrance).write(c_stores::entrance(&*(held as *const HeldStore)));
}

/// Writes a reader of the store of the entrance at `held`, in the newest version, to `out`, or none if memory runs out.
#[unsafe(no_mangle)]
pub unsafe extern "C" fn kobdzila_entrance_reader(held: *const OpaqueEntrance, out: *mut OpaqueSet)
    ghost g: { Lft × Share × AnEntrance }
    requires* { sem 𝓛 (reads_entrance g.0 g.1 held g.2) ∗ sem 𝓛 (room_at set_row out) }
    ensures* { sem 𝓛 (flft g.0 g.1) ∗ sem 𝓛 (set_at out (IsReaderFrom g.2)) }
{
    (out as *mut HeldSet).write(c_stores::reader_from(&*(held as *const HeldEntrance)));
}

/// Drops the entrance at `held`, and gives its memory back to C.
#[unsafe(no_mangle)]
pub unsafe extern "C" fn kobdzila_entrance_close(held: *mut OpaqueEntrance)
    ghost value: { AnEntrance }
    requires* { sem 𝓛 (holds_entrance held value) }
    ensures* { sem 𝓛 (room_at entrance_row held) }
{
    c_stores::close_entrance((held as *mut HeldEntrance).read());
}

/// Whether an entry of the reader at `held` would find nothing new, as 1 or 0. It moves nothing, so it costs less than
/// an entry.
#[unsafe(no_mangle)]
pub unsafe extern "C" fn kobdzila_reader_is_current(held: *const OpaqueSet) -> u32
    ghost g: { Lft × Share × ASet }
    requires* { sem 𝓛 (reads_set g.0 g.1 held g.2) }
    ensures* { sem 𝓛 (flft g.0 g.1) ∗ ⌜ result ≤ 1 ⌝ }
{
    c_stores::is_current(&*(held as *const HeldSet))
}

/// The reader at `held` leaves its version, so that it keeps none alive. Its set is empty until it enters again.
#[unsafe(no_mangle)]
pub unsafe extern "C" fn kobdzila_reader_leave(alloc: Global, held: *mut OpaqueSet)
    ghost value: { ASet }
    requires* { sem 𝓛 (holds_set held value) }
    ensures* { sem 𝓛 (set_at held (IsLeft value)) }
{
    (held as *mut HeldSet).write(c_stores::leave(alloc, (held as *mut HeldSet).read()));
}

/// The reader at `held` enters the newest version of its store.
#[unsafe(no_mangle)]
pub unsafe extern "C" fn kobdzila_reader_enter(held: *mut OpaqueSet)
    ghost value: { ASet }
    requires* { sem 𝓛 (holds_set held value) }
    ensures* { sem 𝓛 (set_at held (IsEntered value)) }
{
    (held as *mut HeldSet).write(c_stores::enter((held as *mut HeldSet).read()));
}

/// The reader at `held` enters the newest version of its store, which isn't older than the notice at `notice`. Both
/// must be of one store.
#[unsafe(no_mangle)]
pub unsafe extern "C" fn kobdzila_reader_enter_after(
    held: *mut OpaqueSet,
    notice: *const OpaqueNotice,
)
    ghost g: { ASet × Lft × Share × ANotice }
    requires* { (sem 𝓛 (holds_set held g.0) ∗ sem 𝓛 (reads_notice g.1 g.2 notice g.3)) ∗ ⌜ AreOfOne g.0 g.3 ⌝ }
    ensures* { sem 𝓛 (flft g.1 g.2) ∗ sem 𝓛 (set_at held (IsEnteredAfter g.0 g.3)) }
{
    (held as *mut HeldSet).write(c_stores::enter_after(
        (held as *mut HeldSet).read(),
        &*(notice as *const HeldNotice),
    ));
}

/// The type that C's pointers to an output have: to what was made of a catalogue or a PO text. C must not read or write
/// its bytes.
pub struct OpaqueOutput {
    byte: u8,
}

/// The number of bytes that C allocates for an output. `malloc` aligns them well enough.
#[unsafe(no_mangle)]
pub extern "C" fn kobdzila_output_size() -> usize
    ensures size { result ≡ size (layout output_row) }
    ensures alignment { align (layout output_row) ≤ 16 }
{
    c_outputs::output_size()
}

/// Writes the PO text of the catalogue at `held` to `out`, or why there is none. If `escape` isn't 0, bytes other than
/// printable ASCII are octal escapes.
#[unsafe(no_mangle)]
pub unsafe extern "C" fn kobdzila_write_po(
    alloc: Global,
    held: *const Opaque,
    escape: u32,
    out: *mut OpaqueOutput,
)
    ghost g: { Lft × Share × Held }
    requires* { sem 𝓛 (reads g.0 g.1 held g.2) ∗ sem 𝓛 (room_at output_row out) }
    ensures* { sem 𝓛 (flft g.0 g.1) ∗ sem 𝓛 (output_at out (IsPoText (nat_lt 0 escape) g.2)) }
{
    (out as *mut HeldOutput).write(c_outputs::write_text(alloc, &*(held as *const Opened), escape));
}

/// Writes the faults of the formats in a PO text to `out`, or why it is refused. An option is on if its
/// argument isn't 0. The text may be in any charset of `charsets`.
#[unsafe(no_mangle)]
pub unsafe extern "C" fn kobdzila_format_faults(
    alloc: Global,
    bytes: &[u8],
    checked: u32,
    use_fuzzy: u32,
    out: *mut OpaqueOutput,
)
    requires* { sem 𝓛 (room_at output_row out) }
    ensures* { sem 𝓛 (output_at out (IsFormatFaults bytes.now (options_of checked use_fuzzy))) }
{
    (out as *mut HeldOutput).write(c_outputs::check_formats(alloc, bytes, checked, use_fuzzy));
}

/// Writes a PO text in UTF-8 to `out`, decoded from the charset of `charsets` that it declares, or why there is none.
#[unsafe(no_mangle)]
pub unsafe extern "C" fn kobdzila_recode(alloc: Global, bytes: &[u8], out: *mut OpaqueOutput)
    requires* { sem 𝓛 (room_at output_row out) }
    ensures* { sem 𝓛 (output_at out (IsRecodedText bytes.now)) }
{
    (out as *mut HeldOutput).write(c_outputs::recode(alloc, bytes));
}

/// A number (`c_answers::numbers`) of the output at `held`: its `FAULT`, the fault's `LINE`, or the `COUNT` of the
/// faults in it. For fault `place` it is its `FAULT_LINE`, `FAULT_LANGUAGE`, `FAULT_FORM` or `FAULT_DIFFERENCE`. Any
/// other number is 0, and so is one of a fault that isn't there.
#[unsafe(no_mangle)]
pub unsafe extern "C" fn kobdzila_output_number(
    held: *const OpaqueOutput,
    which: u32,
    place: u64,
) -> u64
    ghost g: { Lft × Share × AnOutput }
    requires* { sem 𝓛 (reads_output g.0 g.1 held g.2) }
    ensures* { sem 𝓛 (flft g.0 g.1) ∗ ⌜ result ≡ output_number g.2 which place ⌝ }
{
    c_outputs::output_number(&*(held as *const HeldOutput), which, place)
}

/// Writes the bytes of the PO text at `held` to `out`; none if there is no PO text.
#[unsafe(no_mangle)]
pub unsafe extern "C" fn kobdzila_output_text(held: *const OpaqueOutput, out: *mut &[u8])
    ghost g: { Lft × Share × AnOutput }
    requires* { sem 𝓛 (reads_output g.0 g.1 held g.2) ∗ sem 𝓛 (room_at (Text g.0) out) }
    ensures* { sem 𝓛 (flft g.0 g.1) ∗ sem 𝓛 (text_lent g.0 out g.2) }
{
    *out = c_outputs::output_text(&*(held as *const HeldOutput));
}

/// Drops the output at `held`, and gives its memory back to C.
#[unsafe(no_mangle)]
pub unsafe extern "C" fn kobdzila_output_close(held: *mut OpaqueOutput)
    ghost value: { AnOutput }
    requires* { sem 𝓛 (holds_output held value) }
    ensures* { sem 𝓛 (room_at output_row held) }
{
    c_outputs::close_output((held as *mut HeldOutput).read());
}
