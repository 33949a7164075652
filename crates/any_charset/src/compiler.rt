//! Compiling.
ghost use Rattle.std.specs.Prelude.{◌≡◌, ◌+◌, ◌<◌, ◌≤◌, ◌^◌, ◌↔◌, IfOk, IfErr, IsTrue, MatchOption, MatchResult};
ghost use Rattle.std.specs.Prelude.{length, take};
ghost use Rattle.po_text.specs.Outcome.{max_text};
ghost use Rattle.po_text.specs.Spelling.{newlines};
ghost use Rattle.catalogue.specs.Meaning.{Refuses};
ghost use Rattle.charsets.specs.Decoding.{IsDecoded};
ghost use Rattle.any_charset.specs.Declaring.{DeclaresNone};
ghost use Rattle.any_charset.specs.Recoding.{CannotRecode, IsForCharset, IsRecoded, MeansAny, MeansRecoded, RefusesAny};
ghost use Rattle.any_charset.specs.Renaming.{FailsToDecode, renamed_of};

use crate::declared::{Declaration, declared};
use crate::fault::TextFault;
use catalogue::{Compiled, LoadFault, LoadKind, Options, compile, compile_owned};
use charsets::{DecodeFault, decode};
use std::alloc::{AllocError, Global};

/// Whether a text that is refused as UTF-8 with this kind may be in another charset.
pub fn is_for_charset(kind: LoadKind) -> bool
    ensures { IsTrue result ↔ IsForCharset kind }
{
    matches!(kind, LoadKind::NotUtf8 | LoadKind::Charset)
}

/// The line of the byte at an index.
fn line_at(text: &[u8], at: usize) -> u32
    requires within { at ≤ length text.now }
    requires short { length text.now < 2 ^ 31 }
    ensures { result ≡ newlines (take at text.now) + 1 }
{
    let before = &text[..at];
    before.iter().filter(|byte| **byte == b'\n').count() as u32 + 1
}

/// Decodes a text, which is UTF-8 then, and says so.
fn recode(alloc: Global, declared: &Declaration<'_>) -> Result<Vec<u8>, TextFault>
    requires { length (renamed_of declared.now) < 2 ^ 31 }
    ensures { MatchResult result (λ text. IsDecoded declared.now.charset (renamed_of declared.now) text.items)
        (λ fault. FailsToDecode declared.now.charset (renamed_of declared.now) fault) }
{
    let text = declared.renamed(alloc)?;
    match decode(alloc, declared.charset, text.as_slice()) {
        Ok(text) => Ok(text.into_bytes()),
        Err(DecodeFault::NoCharacter(at)) => Err(TextFault::NoCharacter(line_at(
            text.as_slice(),
            at,
        ))),
        Err(DecodeFault::Memory) => Err(TextFault::Load(LoadFault {
            kind: LoadKind::Memory,
            line: 0,
        })),
    }
}

/// Decodes a text from the charset that the header at its front declares, and puts `UTF-8` in place of that charset's
/// name. None if the text declares no charset of `charsets`.
#[tactic(auto, using(crate::proofs::Failing::undecoded))]
pub fn recoded(alloc: Global, text: &[u8]) -> Result<Option<Vec<u8>>, TextFault>
    requires { length text.now ≤ max_text }
    ensures ok { IfOk result (λ recoded. MatchOption recoded (DeclaresNone text.now)
        (λ recoded. IsRecoded text.now recoded.items)) }
    ensures err { IfErr result (CannotRecode text.now) }
{
    let Some(declared) = declared(text) else {
        return Ok(None)
    };
    match recode(alloc, &declared) {
        Ok(recoded) => Ok(Some(recoded)),
        Err(fault) => Err(fault),
    }
}

/// Compiles a PO text in another charset, which was refused as UTF-8 with `strict`.
///
/// The text is decoded and its header then says `charset=UTF-8`, as GNU msgfmt does since 0.22; the result is what
/// `catalogue::compile` makes of that. The decoded text may have 67,108,864 bytes, as any other. If the text doesn't
/// declare a charset of `charsets` in a header at its front, it is refused with `strict`. The lines of refusals are
/// those of `text`.
#[tactic(auto, using(crate::proofs::Failing::failed))]
pub fn compile_recoded(
    alloc: Global,
    text: &[u8],
    options: Options,
    strict: LoadFault,
) -> Result<Compiled, TextFault>
    requires { IsForCharset strict.kind × Refuses text.now options strict.kind strict.line }
    ensures ok { IfOk result (MeansRecoded text.now options) }
    ensures err { IfErr result (RefusesAny text.now options) }
{
    let recoded = match recoded(alloc, text) {
        Ok(Some(recoded)) => recoded,
        Ok(None) => return Err(TextFault::Load(strict)),
        Err(fault) => return Err(fault),
    };
    match compile_owned(alloc, recoded, options) {
        Ok(compiled) => Ok(compiled),
        Err(fault) => Err(TextFault::Load(fault)),
    }
}

/// Compiles a PO text in UTF-8 or in any charset of `charsets`.
///
/// A text that `catalogue::compile` compiles is compiled as there. One that it refuses for another reason than its
/// charset is refused. Otherwise the header at the front of the text names the charset ([`compile_recoded`]).
pub fn compile_any(alloc: Global, text: &[u8], options: Options) -> Result<Compiled, TextFault>
    ensures ok { IfOk result (MeansAny text.now options) }
    ensures err { IfErr result (RefusesAny text.now options) }
{
    match compile(alloc, text, options) {
        Ok(compiled) => Ok(compiled),
        Err(fault) if is_for_charset(fault.kind) => compile_recoded(alloc, text, options, fault),
        Err(fault) => Err(TextFault::Load(fault)),
    }
}
