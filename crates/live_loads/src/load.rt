//! The steps of a load.
ghost use Rattle.std.specs.Prelude.{◌≡◌, ◌≤◌, ◌<◌, IfOk, IfErr};
ghost use Rattle.catalogue.specs.Meaning.{Means};
ghost use Rattle.mo_file.specs.MoReading.{Mo};
ghost use Rattle.live_loads.specs.Loading.{OrMemory, IsUnread};
ghost use Rattle.live_loads.specs.Store.{AreNames, IsTextFault, IsFileFault, IsRefusedIn};

use crate::fault::StoreFault;
use catalogue::{Catalogue, Compiled, LoadKind, Options, compile};
use live_set::{Load, Name, is_name};
use mo_file::{MoFault, read_mo};
use std::alloc::{AllocError, Global};
use std::sync::Arc;

/// How many loads a store has accepted, of how many that it takes.
#[derive(Clone, Copy, Debug)]
pub struct Room {
    /// The published loads and the pending ones.
    pub accepted: u64,
    /// The most that it accepts.
    pub most: u64,
}

/// Copies a text that is known to be a name.
fn name_of(alloc: Global, text: &str) -> Result<Name, AllocError>
    ensures { IfOk result (λ name. name ≡ text.now) }
{
    match Name::new(alloc, text) {
        Ok(name) => Ok(name),
        Err(_) => Err(AllocError),
    }
}

/// Checks that both are names and that the store takes one more load, and only then allocates the two names.
///
/// Returns `BadName` if one isn't a name (`live_set::Name::new`), `VersionsSpent` if the store takes no more loads, and
/// `Memory` if memory runs out, checked in this order.
pub fn admit(
    alloc: Global,
    room: Room,
    domain: &str,
    locale: &str,
) -> Result<(Name, Name), StoreFault>
    requires { room.accepted ≤ room.most }
    ensures names { IfOk result (λ names. (names.0 ≡ domain.now) × (names.1 ≡ locale.now)) }
    ensures ok { IfOk result (λ _. AreNames domain.now locale.now × (room.accepted < room.most)) }
    ensures err { IfErr result (IsRefusedIn IsUnread room domain.now locale.now) }
{
    if !(is_name(domain) && is_name(locale)) {
        return Err(StoreFault::BadName);
    }
    if room.accepted == room.most {
        return Err(StoreFault::VersionsSpent);
    }
    Ok((name_of(alloc, domain)?, name_of(alloc, locale)?))
}

/// Compiles a PO text (`catalogue::compile`), and sorts out running out of memory from what is wrong with the text.
pub fn compiled(alloc: Global, bytes: &[u8], options: Options) -> Result<Compiled, StoreFault>
    ensures ok { IfOk result (Means bytes.now options) }
    ensures err { IfErr result (OrMemory (IsTextFault bytes.now options)) }
{
    match compile(alloc, bytes, options) {
        Ok(compiled) => Ok(compiled),
        Err(fault) => match fault.kind {
            LoadKind::Memory => Err(StoreFault::Memory),
            _ => Err(StoreFault::Refused(fault)),
        },
    }
}

/// Reads the catalogue of an MO file (`mo_file::read_mo`), and sorts out running out of memory from what is wrong with
/// the file.
pub fn read(alloc: Global, bytes: &[u8]) -> Result<Catalogue, StoreFault>
    ensures ok { IfOk result (Mo bytes.now) }
    ensures err { IfErr result (OrMemory (IsFileFault bytes.now)) }
{
    match read_mo(alloc, bytes) {
        Ok(catalogue) => Ok(catalogue),
        Err(MoFault::Memory) => Err(StoreFault::Memory),
        Err(fault) => Err(StoreFault::RefusedMo(fault)),
    }
}

/// The load of a catalogue, for which it builds the index that makes look-ups fast (`catalogue::Catalogue::index`).
pub fn load_of(
    alloc: Global,
    domain: Name,
    locale: Name,
    mut catalogue: Catalogue,
) -> Result<Load, AllocError>
    ensures { IfOk result (λ load. load ≡ record { domain = domain; locale = locale; map = catalogue }) }
{
    catalogue.index(alloc)?;
    Ok(Load {
        domain,
        locale,
        catalogue: Arc::new(alloc, catalogue)?,
    })
}
