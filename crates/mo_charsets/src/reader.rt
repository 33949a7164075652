//! Reading MO files in other charsets than UTF-8.
ghost use Rattle.std.specs.Prelude.{◌≡◌, ◌↔◌, IfOk, IfErr, IsTrue, option_map};
ghost use Rattle.mo_segments.specs.MessageStrings.{strings_of};
ghost use Rattle.mo_revisions.specs.Refusing.{AnyRefused};
ghost use Rattle.mo_charsets.specs.MoRecoding.{header_of, with_header, AnyCharsetMo, IsForCharset, MeansRecoded};
ghost use Rattle.mo_charsets.specs.MoFailing.{AnyCharsetRefused, RefusesRecoded};

use crate::fault::RecodedFault;
use crate::recoding::decode_messages;
use any_charset::named;
use catalogue::Catalogue;
use mo_file::MoFault;
use mo_revisions::{AnyMoFault, catalogue_of, read_any_mo, read_messages};
use mo_segments::Strings;
use std::alloc::Global;

/// Whether a file that is refused as UTF-8 for this may be in another charset.
fn is_for_charset(fault: AnyMoFault) -> bool
    ensures { IsTrue result ↔ IsForCharset fault }
{
    matches!(fault, AnyMoFault::Mo(MoFault::BadText | MoFault::Charset))
}

/// The header: the translation of the first message, if its original is empty.
fn header(messages: &[Strings]) -> Option<&[u8]>
    ensures { option_map (λ header. header.now) result ≡ header_of (strings_of messages.now) }
{
    match messages {
        [first, ..] if first.original.is_empty() => Some(&first.translation),
        _ => None,
    }
}

/// Puts a header in the first message's place.
fn put_header(messages: &mut Vec<Strings>, header: Vec<u8>)
    ensures { strings_of messages.new.items ≡ with_header header.items (strings_of messages.old.items) }
{
    if let Some(first) = messages.first_mut() {
        first.translation = header;
    }
}

/// Reads a file in another charset, which was refused as UTF-8 with `strict`.
///
/// The strings are decoded from the charset that the header names, one of `charsets`, and the header then says
/// `charset=UTF-8`. If the file has no header, or it names no such charset, the file is refused with `strict`. The
/// messages are those of [`read_messages`].
pub fn read_recoded(
    alloc: Global,
    bytes: &[u8],
    strict: AnyMoFault,
) -> Result<Catalogue, RecodedFault>
    requires { IsForCharset strict × AnyRefused bytes.now strict }
    ensures ok { IfOk result (MeansRecoded bytes.now) }
    ensures err { IfErr result (RefusesRecoded bytes.now strict) }
{
    let mut messages = read_messages(alloc, bytes)?;
    let Some(header) = header(&messages) else {
        return Err(RecodedFault::Any(strict))
    };
    let Some(declared) = named(header) else {
        return Err(RecodedFault::Any(strict))
    };
    let charset = declared.charset;
    let renamed = declared.renamed(alloc)?;
    put_header(&mut messages, renamed);
    let decoded = decode_messages(alloc, charset, &messages)?;
    Ok(catalogue_of(alloc, decoded)?)
}

/// Reads an MO file of revision 0.0, 0.1, 1.0 or 1.1, in UTF-8 or in any charset of `charsets` (GNU gettext manual, "MO
/// Files" and "Header Entry").
///
/// A file that `mo_revisions` reads is read as there, and one that it refuses for another reason than its charset is
/// refused. For the others see [`read_recoded`].
pub fn read_any_charset(alloc: Global, bytes: &[u8]) -> Result<Catalogue, RecodedFault>
    ensures ok { IfOk result (AnyCharsetMo bytes.now) }
    ensures err { IfErr result (AnyCharsetRefused bytes.now) }
{
    match read_any_mo(alloc, bytes) {
        Ok(catalogue) => Ok(catalogue),
        Err(fault) if is_for_charset(fault) => read_recoded(alloc, bytes, fault),
        Err(fault) => Err(RecodedFault::Any(fault)),
    }
}
