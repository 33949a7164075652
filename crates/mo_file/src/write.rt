//! Writing MO files.
ghost use Rattle.std.specs.Prelude.{◌≡◌, IfOk};
ghost use Rattle.catalogue.specs.Map.{IsLawful};
ghost use Rattle.catalogue.specs.MoFile.{spelling};

use catalogue::Catalogue;
use std::alloc::{AllocError, Global};

/// Returns the one MO file of a catalogue: revision 0, little-endian, no hash table and no padding (GNU gettext manual,
/// "MO Files"). It is a copy of the file that the catalogue keeps. The only error is a failed allocation.
pub fn write_mo(alloc: Global, catalogue: &Catalogue) -> Result<Vec<u8>, AllocError>
    ensures file { IfOk result (λ v. v.items ≡ spelling catalogue.now) }

    // Every catalogue represents a lawful map.
    ensures lawful { IsLawful catalogue.now }
{
    let file = catalogue.file();
    let mut copy = Vec::with_capacity(alloc, file.len())?;
    copy.extend_from_slice(file)?;
    Ok(copy)
}
