//! Whole formats: markup, and the arguments that it asks for.
ghost use Rattle.std.specs.Prelude.{◌≡◌, ℕ, List, IfOk, IfErr};
ghost use Rattle.numbered_arguments.specs.declared.Numbered.{Numbered as Asked};
ghost use Rattle.kuit_formats.specs.KuitFormat.{HasFault, HasSignature};

use crate::content::is_markup;
use format_arguments::FormatFault;
use numbered_arguments::Numbered;
use numbered_formats::Notation;
use std::alloc::Global;

/// The arguments that a format asks for, in the order of the text; a number may come more than once.
///
/// `Invalid` means that the text isn't well-formed markup, or isn't a format of KDE. `Memory` is returned only if an
/// allocation fails.
pub fn signature(alloc: Global, text: &[u8]) -> Result<Vec<Numbered>, FormatFault>
    ensures ok { IfOk result (λ asked. HasSignature text.now asked.items) }
    ensures err { IfErr result (λ fault. HasFault text.now fault) }
{
    if !is_markup(alloc, text)? {
        return Err(FormatFault::Invalid);
    }
    numbered_formats::signature(alloc, Notation::Kde, text)
}

/// A law, without code: a text has at most one list of arguments.
pub fn one_signature()
    ensures { (text : List ℕ) (asked others : List Asked) →
        HasSignature text asked → HasSignature text others → asked ≡ others }
{
    numbered_formats::one_signature();
}
