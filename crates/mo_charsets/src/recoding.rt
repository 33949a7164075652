//! Decoding the strings of messages.
ghost use Rattle.std.specs.Prelude.{◌≡◌, MatchResult};
ghost use Rattle.charsets.specs.Decoding.{IsDecoded};
ghost use Rattle.mo_segments.specs.MessageStrings.{strings_in, strings_of};
ghost use Rattle.mo_charsets.specs.MoRecoding.{AreDecoded, IsMessageDecoded};
ghost use Rattle.mo_charsets.specs.MoFailing.{FailsToDecode, FailsForMessage, FailsForMessages};

use crate::fault::RecodedFault;
use charsets::{Charset, DecodeFault, decode};
use mo_segments::Strings;
use std::alloc::{AllocError, Global};

/// Decodes a string.
fn decode_string(alloc: Global, charset: Charset, bytes: &[u8]) -> Result<Vec<u8>, RecodedFault>
    ensures { MatchResult result (λ text. IsDecoded charset bytes.now text.items)
        (FailsToDecode charset bytes.now) }
{
    match decode(alloc, charset, bytes) {
        Ok(text) => Ok(text.into_bytes()),
        Err(DecodeFault::NoCharacter(_)) => Err(RecodedFault::NoCharacter),
        Err(DecodeFault::Memory) => Err(RecodedFault::from(AllocError)),
    }
}

/// Decodes both strings of a message.
fn decode_message(
    alloc: Global,
    charset: Charset,
    message: &Strings,
) -> Result<Strings, RecodedFault>
    ensures { MatchResult result (λ decoded. IsMessageDecoded charset (strings_in message.now) (strings_in decoded))
        (FailsForMessage charset (strings_in message.now)) }
{
    let original = decode_string(alloc, charset, &message.original)?;
    let translation = decode_string(alloc, charset, &message.translation)?;
    Ok(Strings {
        original,
        translation,
    })
}

/// Decodes messages.
pub(crate) fn decode_messages(
    alloc: Global,
    charset: Charset,
    messages: &[Strings],
) -> Result<Vec<Strings>, RecodedFault>
    ensures { MatchResult result
        (λ decoded. AreDecoded charset (strings_of messages.now) (strings_of decoded.items))
        (FailsForMessages charset (strings_of messages.now)) }
{
    let mut decoded = Vec::with_capacity(alloc, messages.len())?;
    'messages: for message in messages {
        decoded.push(decode_message(alloc, charset, message)?)?;
    }
    Ok(decoded)
}
