//! Readers: they enter, look up and leave without waiting.
ghost use Rattle.std.specs.Prelude.{◌≡◌, [], ◌∷◌, ◌<◌, ◌≤◌, ◌⊎◌, IfOk, IfErr, string_bytes};
ghost use Rattle.std.specs.String.{string_capacity};
ghost use Rattle.std.specs.Borrow.{sem, RestsIfErr};
ghost use Rattle.left_right.specs.Sides.{view};
ghost use Rattle.live_set.specs.Asks.{IsAnswer};
ghost use Rattle.live_loads.specs.Batches.{joined_loads, version_of, StartsWith};
ghost use Rattle.live_versions.specs.AnswerRoom.{IsLonger};
ghost use Rattle.live_versions.specs.Entering.{visit_of, home_name};
ghost use Rattle.live_versions.specs.contracts.reader.Lookups.{the_row};

use crate::Version;
use crate::fault::{Ahead, AskFault, Closed};
use crate::notice::Notice;
use crate::pinned::{Pinned, Visit};
use crate::rule::{Entered, Shown, Versions, View};
use crate::seen::Seen;
use left_right::reader::Reader;
use live_set::Query;
use std::alloc::Global;
use std::marker::Model;

pub(crate) type StoreReader = Reader<Shown, View, Versions>;

/// A reader of a store. Contracts see it as the batches that it has seen: the longest list that it has entered or
/// learnt of, which begins with every other one.
#[derive(Drop)]
pub struct Lookups {
    /// `None` while a `Pinned` borrows it.
    reader: Option<StoreReader>,
    seen: Seen,
    /// Whether the latest batches seen weren't entered: they come from a notice, or the reader is new.
    apart: bool,
}

impl Model for Lookups {
    ghost use Rattle.live_loads.specs.Seen.{SeenValue};

    ghost Value = { SeenValue };

    ghost use Rattle.live_versions.specs.Known.{IsHome};

    ghost view = { λ l. l.seen };

    ghost invariant = { λ l. IsHome l.reader l.apart l.seen };
}

impl Lookups {
    pub(crate) fn new(reader: StoreReader, seen: Seen) -> Lookups
        requires { (view reader.place).books ≡ seen.book ∷ [] }
        ensures { result ≡ seen }
    {
        Lookups {
            reader: Some(reader),
            seen,
            apart: true,
        }
    }

    /// Takes the reader back from a visit that has ended.
    pub(crate) fn come_home(&mut self, reader: StoreReader, seen: Seen)
        requires { ((view reader.place).books ≡ seen.book ∷ []) × ((view reader.place).batches ≡ seen.batches) }
        ensures { self.new ≡ seen }
    {
        self.reader = Some(reader);
        self.seen = seen;
        self.apart = false;
    }

    /// The greatest version that this reader has entered or learnt of; 0 at first.
    pub fn seen(&self) -> Version
        ensures { result ≡ version_of self.now.batches }
    {
        self.seen.version()
    }

    /// Enters what is published now. It neither waits nor allocates, and the visit lasts until the reader leaves.
    ///
    /// The visit's batches begin with all that this reader has seen. Returns `Closed`, and leaves the reader as it was,
    /// if the store is closed because its publisher has ended; no contract says when that is.
    pub fn enter(&mut self) -> Result<Pinned<'_>, Closed>
        ensures* stays { sem 𝓛 (RestsIfErr the_row self.entry home_name result (λ n. n ≡ self.old)) }
        ensures home { IfOk result (λ p. home_name p ≡ self.entry.ghost_name) }
        ensures later { IfOk result (λ p. StartsWith (visit_of p).batches self.old.batches) }
        ensures book { IfOk result (λ p. (visit_of p).book ≡ self.old.book) }
    {
        let Some(reader) = self.reader.take() else {
            return Err(Closed);
        };
        match reader.enter_as::<Entered>() {
            Ok(reading) => {
                // A shown copy is always in the book, and never older than a notice. No contract says so, hence these
                // two branches.
                let Some(seen) = reading.get().seen.token() else {
                    self.apart = true;
                    self.reader = Some(reading.leave());
                    return Err(Closed);
                };
                if self.apart && !self.seen.begins(&seen) {
                    self.reader = Some(reading.leave());
                    return Err(Closed);
                }
                let visit = Visit::new(reading, seen);
                Ok(Pinned { home: self, visit })
            }
            Err(reader) => {
                self.reader = Some(reader);
                Err(Closed)
            }
        }
    }

    /// Enters once, and returns the visit's version with a copy of the query's answer.
    ///
    /// `Closed` leaves the reader as it was. `Memory` is returned only if the answer isn't empty; the reader may have
    /// entered all the same.
    pub fn ask(&mut self, alloc: Global, query: &Query) -> Result<(Version, String), AskFault>
        ensures ok { IfOk result (λ answer.
            (answer.0 ≡ version_of self.new.batches)
            × IsAnswer (joined_loads self.new.batches) query.now (string_bytes answer.1)) }
        ensures closed { IfErr result (λ fault. (fault ≡ AskFault.Closed) → (self.new ≡ self.old)) }
        ensures memory { IfErr result (λ fault. (fault ≡ AskFault.Memory)
            → IsLonger (joined_loads self.new.batches) query.now 0) }
        ensures later { StartsWith self.new.batches self.old.batches }
        ensures book { self.new.book ≡ self.old.book }
    {
        let mut text = String::new(alloc);
        let version = self.ask_into(query, &mut text)?;
        Ok((version, text))
    }

    /// Enters once, returns the visit's version, and replaces `text` by the query's answer. A caller that keeps one
    /// `text` for many queries soon stops allocating: its room is used again, and only a longer answer needs more.
    ///
    /// `Closed` leaves the reader and the text as they were. After `Memory` the text is empty, and the reader may have
    /// entered all the same.
    pub fn ask_into(&mut self, query: &Query, text: &mut String) -> Result<Version, AskFault>
        ensures ok { IfOk result (λ version.
            (version ≡ version_of self.new.batches)
            × IsAnswer (joined_loads self.new.batches) query.now (string_bytes text.new)) }
        ensures closed { IfErr result (λ fault. (fault ≡ AskFault.Closed)
            → (self.new ≡ self.old) × (string_bytes text.new ≡ string_bytes text.old)) }
        ensures memory { IfErr result (λ fault. (fault ≡ AskFault.Memory)
            → (string_bytes text.new ≡ []) × IsLonger (joined_loads self.new.batches) query.now
            (string_capacity text.old)) }
        ensures room { string_capacity text.old ≤ string_capacity text.new }
        ensures later { StartsWith self.new.batches self.old.batches }
        ensures book { self.new.book ≡ self.old.book }
    {
        let Ok(pinned) = self.enter() else {
            return Err(AskFault::Closed);
        };
        let version = pinned.version();
        text.clear();
        let copied = text.push_str(pinned.look(query));
        pinned.leave();
        match copied {
            Ok(()) => Ok(version),
            Err(_) => Err(AskFault::Memory),
        }
    }

    /// Takes in a notice of this reader's own store: the reader has then seen the longer of both lists. It doesn't
    /// allocate.
    pub fn learn(&mut self, notice: &Notice)
        requires { notice.now.book ≡ self.old.book }
        ensures longer { StartsWith self.new.batches self.old.batches × StartsWith self.new.batches notice.now.batches }
        ensures one { (self.new ≡ self.old) ⊎ (self.new ≡ notice.now) }
        ensures book { self.new.book ≡ self.old.book }
    {
        if self.seen.begins(&notice.seen) {
            self.seen = notice.seen.again();
            self.apart = true;
        }
    }

    /// Takes in a notice of this reader's own store, if it is at least as recent as everything the reader has seen, and
    /// returns its version. Otherwise returns `Ahead` and changes nothing. It doesn't allocate.
    pub fn settle(&mut self, notice: &Notice) -> Result<Version, Ahead>
        requires { notice.now.book ≡ self.old.book }
        ensures ok { IfOk result (λ version.
            (version ≡ version_of notice.now.batches) × StartsWith notice.now.batches self.old.batches
            × (self.new ≡ notice.now)) }
        ensures ahead { IfErr result (λ ahead.
            (ahead.seen ≡ version_of self.old.batches) × StartsWith self.old.batches notice.now.batches
            × (version_of notice.now.batches < version_of self.old.batches) × (self.new ≡ self.old)) }
        ensures book { self.new.book ≡ self.old.book }
    {
        if !self.seen.begins(&notice.seen) {
            return Err(Ahead {
                seen: self.seen.version(),
            });
        }
        self.seen = notice.seen.again();
        self.apart = true;
        Ok(notice.version())
    }
}
