//! Reading MO files of any revision.
ghost use Rattle.std.specs.Prelude.{◌≡◌, ◌⊎◌, ◌≤◌, length, IfOk, IfErr};
ghost use Rattle.mo_image.specs.MoFile.{header_len, most_file};
ghost use Rattle.mo_file.specs.MoReading.{file_by, file_of, Refused};
ghost use Rattle.mo_segments.specs.MessageStrings.{strings_of};
ghost use Rattle.mo_revisions.specs.Revisions.{HasMessages};
ghost use Rattle.mo_revisions.specs.AnyReading.{AnyMo, IsCatalogueOf, MeansMessages};
ghost use Rattle.mo_revisions.specs.Refusing.{AnyRefused, IsFaultBeyond, IsMessagesFault, HasNoCatalogue};

use crate::dependent::with_dependent;
use crate::fault::AnyMoFault;
use crate::header::minor;
use crate::statics::{check_static, static_messages};
use byteorder::{BigEndian, ByteOrder, LittleEndian};
use catalogue::Catalogue;
use mo_file::{MoFault, is_low_first, read_mo, read_owned_mo};
use mo_segments::{Strings, kept, write_flat};
use std::alloc::Global;

/// Reads the messages of a file in one byte order.
fn messages_by<T: ByteOrder>(alloc: Global, bytes: &[u8]) -> Result<Vec<Strings>, AnyMoFault>
    requires short { length bytes.now ≤ most_file }
    requires long { header_len ≤ length bytes.now }
    ensures ok { IfOk result (λ v. HasMessages (file_by T.number_of bytes.now) (strings_of v.items)) }
    ensures err { IfErr result (IsMessagesFault (file_by T.number_of bytes.now)) }
{
    check_static::<T>(bytes)?;
    let messages = static_messages::<T>(alloc, bytes)?;
    if minor::<T>(bytes) == 0 {
        return Ok(messages);
    }
    with_dependent::<T>(alloc, bytes, messages)
}

/// Reads the messages of a file of any revision, in the byte order of its magic number: the static ones and, if the
/// minor revision is 1, the system-dependent ones that the machine knows. Their bytes may be in any charset.
///
/// The file has at least the 28 bytes of a header, and at most 268,435,456.
pub fn read_messages(alloc: Global, bytes: &[u8]) -> Result<Vec<Strings>, AnyMoFault>
    requires short { length bytes.now ≤ most_file }
    requires long { header_len ≤ length bytes.now }
    ensures ok { IfOk result (λ v. HasMessages (file_of bytes.now) (strings_of v.items)) }
    ensures err { IfErr result (IsMessagesFault (file_of bytes.now)) }
{
    if is_low_first(bytes) {
        messages_by::<LittleEndian>(alloc, bytes)
    } else {
        messages_by::<BigEndian>(alloc, bytes)
    }
}

/// The catalogue of messages: that of the file of revision 0.0 which has the first message of each key.
pub fn catalogue_of(alloc: Global, messages: Vec<Strings>) -> Result<Catalogue, MoFault>
    ensures ok { IfOk result (IsCatalogueOf (strings_of messages.items)) }
    ensures err { IfErr result (HasNoCatalogue (strings_of messages.items)) }
{
    let kept = kept(alloc, messages)?;
    let Some(file) = write_flat(alloc, kept.as_slice())? else {
        return Err(MoFault::Swollen)
    };
    match read_owned_mo(alloc, file) {
        Ok(catalogue) => Ok(catalogue),
        Err(unread) => Err(unread.fault),
    }
}

/// Reads a file that `read_mo` has refused for its revision.
///
/// The catalogue has the static messages and, if the minor revision is 1, the system-dependent ones as x86-64 Linux
/// expands them. A message with a segment that the machine doesn't know is left out. Of messages with one key the first
/// is kept.
pub fn read_revised(alloc: Global, bytes: &[u8]) -> Result<Catalogue, AnyMoFault>
    requires { Refused bytes.now MoFault.Revision }
    ensures ok { IfOk result (MeansMessages bytes.now) }
    ensures err { IfErr result (IsFaultBeyond bytes.now) }
{
    let messages = read_messages(alloc, bytes)?;
    Ok(catalogue_of(alloc, messages)?)
}

/// Reads an MO file of revision 0.0, 0.1, 1.0 or 1.1, in either byte order (GNU gettext manual, "MO Files").
///
/// A file that `read_mo` reads is read as there, and one that it refuses for another reason than its revision is
/// refused. For the others see [`read_revised`].
pub fn read_any_mo(alloc: Global, bytes: &[u8]) -> Result<Catalogue, AnyMoFault>
    ensures ok { IfOk result (AnyMo bytes.now) }
    ensures err { IfErr result (AnyRefused bytes.now) }
{
    match read_mo(alloc, bytes) {
        Ok(catalogue) => Ok(catalogue),
        Err(MoFault::Revision) => read_revised(alloc, bytes),
        Err(fault) => Err(AnyMoFault::Mo(fault)),
    }
}
