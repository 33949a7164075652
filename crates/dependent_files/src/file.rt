//! The MO file of messages.
ghost use Rattle.std.specs.Prelude.{◌≡◌, ◌↔◌, ◌≤◌, length, IfOk, IfErr, IsTrue, OnOk};
ghost use Rattle.std.specs.List.{AllByRecursion};
ghost use Rattle.mo_image.specs.MoFile.{header_len, most_file};
ghost use Rattle.mo_file.specs.MoReading.{file_of};
ghost use Rattle.mo_segments.specs.MessageStrings.{strings_of};
ghost use Rattle.mo_dependent.specs.Splits.{IsSplit};
ghost use Rattle.mo_segments.specs.declared.fault.DependentFault.TheVariants.{Swollen};
ghost use Rattle.mo_revisions.specs.declared.fault.AnyMoFault.TheVariants.{Dependent as OfPart};
ghost use Rattle.mo_revisions.specs.Revisions.{HasMessages};
ghost use Rattle.mo_revisions.specs.AnyReading.{IsCatalogueOf};
ghost use Rattle.dependent_files.specs.MessagesFile.{HasFile, HasNoFile, IsFile, IsOutOfMemory, IsWritten};
ghost use Rattle.dependent_files.specs.FileFaults.{IsCatalogueFault, IsReadingFault, IsWritingFault};

use crate::fault::FileFault;
use crate::here::messages_here;
use crate::same::are_same;
use catalogue::Catalogue;
use mo_dependent::{Dependent, WriteFault, write_dependent};
use mo_file::MoFault;
use mo_image::Image;
use mo_revisions::{AnyMoFault, catalogue_of, read_messages};
use mo_segments::{DependentFault, Strings};
use std::alloc::{AllocError, Global};

/// The MO file of messages, and their catalogue.
#[derive(Drop)]
pub struct MessagesFile {
    /// The file: of revision 0.0 if all messages are static, and otherwise of revision 0.1 or 1.1.
    pub file: Vec<u8>,
    /// The messages as this machine has them.
    pub catalogue: Catalogue,
}

/// The catalogue of messages.
fn catalogue_by(alloc: Global, messages: Vec<Strings>) -> Result<Catalogue, FileFault>
    ensures ok { IfOk result (IsCatalogueOf (strings_of messages.items)) }
    ensures err { IfErr result (IsCatalogueFault (strings_of messages.items)) }
{
    match catalogue_of(alloc, messages) {
        Ok(catalogue) => Ok(catalogue),
        Err(MoFault::Memory) => Err(FileFault::from(AllocError)),
        Err(fault) => Err(FileFault::Catalogue(fault)),
    }
}

/// Writes the file of static messages, which the catalogue has, and system-dependent ones.
fn write(alloc: Global, statics: &Catalogue, dependents: &[Dependent]) -> Result<Vec<u8>, FileFault>
    requires { AllByRecursion IsSplit dependents.now }
    ensures file { IfOk result (λ v. IsFile statics.now dependents.now v.items) }
    ensures short { IfOk result (λ v. length v.items ≤ most_file) }
    ensures long { IfOk result (λ v. header_len ≤ length v.items) }
    ensures err { IfErr result (IsWritingFault statics.now dependents.now) }
{
    if dependents.is_empty() {
        return Ok(Vec::from_slice(alloc, statics.file())?);
    }
    let image = Image::copied(alloc, statics.file())?;
    match write_dependent(alloc, &image, dependents) {
        Ok(file) => Ok(file),
        Err(WriteFault::TooLarge) => Err(FileFault::TooLarge),
        Err(WriteFault::Memory) => Err(FileFault::from(AllocError)),
    }
}

/// Writes the file of static messages and system-dependent ones.
fn written(
    alloc: Global,
    statics: Vec<Strings>,
    dependents: &[Dependent],
) -> Result<Vec<u8>, FileFault>
    requires { AllByRecursion IsSplit dependents.now }
    ensures file { IfOk result (λ v. IsWritten (strings_of statics.items) dependents.now v.items) }
    ensures short { IfOk result (λ v. length v.items ≤ most_file) }
    ensures long { IfOk result (λ v. header_len ≤ length v.items) }
    ensures err { IfErr result (HasNoFile (strings_of statics.items) dependents.now) }
{
    let map = catalogue_by(alloc, statics)?;
    write(alloc, &map, dependents)
}

/// Whether a file can't be read because an allocation failed.
fn is_out_of_memory(fault: AnyMoFault) -> bool
    ensures { IsTrue result ↔ IsOutOfMemory fault }
{
    matches!(
        fault,
        AnyMoFault::Mo(MoFault::Memory) | AnyMoFault::Dependent(DependentFault::Memory)
    )
}

/// Whether a file isn't read because its system-dependent strings take too much room.
fn is_swollen(fault: AnyMoFault) -> bool
    ensures { IsTrue result ↔ (fault ≡ OfPart Swollen) }
{
    matches!(fault, AnyMoFault::Dependent(DependentFault::Swollen))
}

/// Checks that a file reads as these messages.
fn check_reading(alloc: Global, file: &[u8], messages: &[Strings]) -> Result<(), FileFault>
    requires short { length file.now ≤ most_file }
    requires long { header_len ≤ length file.now }
    ensures ok { OnOk result (HasMessages (file_of file.now) (strings_of messages.now)) }
    ensures err { IfErr result (IsReadingFault file.now (strings_of messages.now)) }
{
    match read_messages(alloc, file) {
        Ok(read) if are_same(read.as_slice(), messages) => Ok(()),
        Err(fault) if is_out_of_memory(fault) => Err(FileFault::from(AllocError)),
        Err(fault) if is_swollen(fault) => Err(FileFault::TooLarge),
        _ => Err(FileFault::NotReadBack),
    }
}

/// Writes the MO file of static messages and system-dependent ones, and makes the catalogue of all messages as x86-64
/// Linux has them.
///
/// The static messages are in rising order of their keys. The file is read again, and is to give the messages that the
/// machine has: the static ones, and then the others with what each segment stands for in its place. A message with a
/// segment that the machine doesn't know is left out. Of messages with one key the first is in the catalogue.
pub fn file_of_messages(
    alloc: Global,
    statics: Vec<Strings>,
    dependents: &[Dependent],
) -> Result<MessagesFile, FileFault>
    requires { AllByRecursion IsSplit dependents.now }
    ensures ok { IfOk result (λ made. HasFile (strings_of statics.items) dependents.now made.file.items
        made.catalogue) }
    ensures err { IfErr result (HasNoFile (strings_of statics.items) dependents.now) }
{
    let messages = messages_here(alloc, statics.as_slice(), dependents)?;
    let file = written(alloc, statics, dependents)?;
    check_reading(alloc, file.as_slice(), messages.as_slice())?;
    let catalogue = catalogue_by(alloc, messages)?;
    Ok(MessagesFile { file, catalogue })
}
