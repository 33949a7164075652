//! Loading PO texts and MO files.
ghost use Rattle.std.specs.Prelude.{◌≡◌, IfOk, IfErr, OnErr};
ghost use Rattle.live_loads.specs.Store.{Accepts, AcceptsMo, IsRefused, IsRefusedMo};

use crate::publisher::Publisher;
use catalogue::{Options, Stats};
use live_loads::{StoreFault, admit, compiled, load_of, read};
use std::alloc::Global;

impl Publisher {
    /// Compiles a PO text for a domain and a locale (`catalogue::compile`), builds the index that makes look-ups fast
    /// (`catalogue::Catalogue::index`), and appends the load to the pending ones.
    ///
    /// Returns `BadName` if the domain or the locale isn't a name (`live_set::Name::new`), `VersionsSpent` if as many
    /// loads are published or pending as the store takes, and `Refused` if the text is refused, checked in this order.
    /// Memory is taken only once the names and the room are checked; from then on `Memory` may be returned instead of
    /// any other result. A refused load changes nothing.
    pub fn load(
        &mut self,
        alloc: Global,
        domain: &str,
        locale: &str,
        bytes: &[u8],
        options: Options,
    ) -> Result<Stats, StoreFault>
        ensures ok { IfOk result (λ stats. Accepts self.old domain.now locale.now bytes.now options stats self.new) }
        ensures err { IfErr result (IsRefused self.old domain.now locale.now bytes.now options) }
        ensures unchanged { OnErr result (self.new ≡ self.old) }

        // A load never changes the published batches.
        ensures seen { self.new.seen ≡ self.old.seen }
    {
        let (domain, locale) = admit(alloc, self.room(), domain, locale)?;
        let compiled = compiled(alloc, bytes, options)?;
        self.append(load_of(alloc, domain, locale, compiled.catalogue)?)?;
        Ok(compiled.stats)
    }

    /// As `load`, of an MO file (`mo_file::read_mo`). Returns the number of entries, and `RefusedMo` if the file is
    /// refused.
    pub fn load_mo(
        &mut self,
        alloc: Global,
        domain: &str,
        locale: &str,
        bytes: &[u8],
    ) -> Result<u64, StoreFault>
        ensures ok { IfOk result (λ entries. AcceptsMo self.old domain.now locale.now bytes.now entries self.new) }
        ensures err { IfErr result (IsRefusedMo self.old domain.now locale.now bytes.now) }
        ensures unchanged { OnErr result (self.new ≡ self.old) }

        // A load never changes the published batches.
        ensures seen { self.new.seen ≡ self.old.seen }
    {
        let (domain, locale) = admit(alloc, self.room(), domain, locale)?;
        let catalogue = read(alloc, bytes)?;
        let entries = catalogue.len() as u64;
        self.append(load_of(alloc, domain, locale, catalogue)?)?;
        Ok(entries)
    }
}
