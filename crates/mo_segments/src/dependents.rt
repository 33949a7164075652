//! The system-dependent messages of a file, as the machine expands them.
ghost use Rattle.std.specs.Prelude.{◌≤◌, length, IfOk, IfErr};
ghost use Rattle.mo_image.specs.MoFile.{most_file};
ghost use Rattle.mo_segments.specs.Descriptors.{texts_of};
ghost use Rattle.mo_segments.specs.MessageStrings.{strings_of};
ghost use Rattle.mo_segments.specs.Dependents.{AreRead, IsFaultIn, TablesLie};

use crate::descriptors::expand;
use crate::fault::DependentFault;
use crate::machine::Value;
use crate::messages::Strings;
use crate::words::word;
use byteorder::ByteOrder;
use mo_image::MAX_LEN;
use std::alloc::Global;

/// Where the header has the number of system-dependent messages.
pub const DEPENDENT_COUNT_AT: usize = 36;

/// Where the header has the offset of the table of their originals.
pub const DEPENDENT_ORIGINALS_AT: usize = 40;

/// Where the header has the offset of the table of their translations.
pub const DEPENDENT_TRANSLATIONS_AT: usize = 44;

/// Adds the system-dependent messages that the machine knows to the static ones, in the order of their tables. All
/// their descriptors together may take 268,435,456 bytes. The error is the first fault of a descriptor.
pub fn add_dependent<T: ByteOrder>(
    alloc: Global,
    bytes: &[u8],
    values: &[Option<Value>],
    mut messages: Vec<Strings>,
) -> Result<Vec<Strings>, DependentFault>
    requires short { length bytes.now ≤ most_file }
    requires tables { TablesLie T.number_of bytes.now }
    ensures ok { IfOk result (λ v. AreRead T.number_of bytes.now (texts_of values.now) (strings_of messages.items)
        (strings_of v.items)) }
    ensures err { IfErr result (IsFaultIn T.number_of bytes.now (texts_of values.now) (strings_of messages.items)) }
{
    let originals = word::<T>(bytes, DEPENDENT_ORIGINALS_AT);
    let translations = word::<T>(bytes, DEPENDENT_TRANSLATIONS_AT);
    let mut room = MAX_LEN;
    'messages: for i in 0..word::<T>(bytes, DEPENDENT_COUNT_AT) {
        let original = word::<T>(bytes, originals + 4 * i);
        let original = expand::<T>(alloc, bytes, values, original, room)?;
        room -= original.cost;
        let translation = word::<T>(bytes, translations + 4 * i);
        let translation = expand::<T>(alloc, bytes, values, translation, room)?;
        room -= translation.cost;
        if original.known && translation.known {
            messages.push(Strings {
                original: original.text,
                translation: translation.text,
            })?;
        }
    }
    Ok(messages)
}
