//! Whole formats: directives, and the plain text between them.
ghost use Rattle.std.specs.Prelude.{◌≡◌, ℕ, List, [], ◌∷◌, IfOk, IfErr, MatchOption};
ghost use Rattle.c_signature.specs.Pieces.{percent};
ghost use Rattle.c_signature.specs.Signature.{HasFormatFault, IsInvalid, IsSystemDependent, Lists, SkipsPlain};
ghost use Rattle.c_signature.specs.declared.ArgKind.{ArgKind as Kind};

use crate::directives::read_directive;
use crate::requests::Requests;
use crate::{ArgKind, FormatFault};
use byte_text::offset_of;
use std::alloc::Global;

/// What follows the next `%`, if there is one.
pub(crate) fn next_directive(text: &[u8]) -> Option<&[u8]>
    ensures { MatchOption result (SkipsPlain text.now [])
        (λ rest. SkipsPlain text.now (percent ∷ rest.now)) }
{
    let offset = offset_of(text, b'%');
    if offset < text.len() {
        Some(&text[offset + 1..])
    } else {
        None
    }
}

/// The arguments that a C format takes, in order (C standard, 7.21.6.1; numbered arguments as in POSIX, by numbers of
/// at most 9 digits).
///
/// The first directive that can't be read decides the fault: `SystemDependent` if it names a macro, such as
/// `%<PRId64>`, else `Invalid`. If every directive can be read, `Invalid` means that some arguments are numbered and
/// some aren't, that a number is left out, or that a number has two kinds. `Memory` is returned only if an allocation
/// fails.
pub fn signature(alloc: Global, text: &str) -> Result<Vec<ArgKind>, FormatFault>
    ensures ok { IfOk result (λ kinds. Lists text.now kinds.items) }
    ensures err { IfErr result (λ fault. HasFormatFault text.now fault) }
{
    let mut requests = Requests::new(alloc);
    let mut rest = text.as_bytes();
    'directives: while let Some(behind) = next_directive(rest) {
        let (directive, after) = read_directive(behind)?;
        requests.add(directive)?;
        rest = after;
    }
    requests.list()
}

/// A law, without code: every text has exactly one outcome, which is one list of arguments or one of the two faults.
pub fn one_outcome()
    ensures list { (text : List ℕ) (kinds others : List Kind) →
        Lists text kinds → Lists text others → kinds ≡ others }
    ensures not_invalid { (text : List ℕ) (kinds : List Kind) →
        Lists text kinds → ¬ IsInvalid text }
    ensures not_system_dependent { (text : List ℕ) (kinds : List Kind) →
        Lists text kinds → ¬ IsSystemDependent text }
    ensures one_fault { (text : List ℕ) → IsInvalid text → ¬ IsSystemDependent text }
    ensures some { (text : List ℕ) →
        ((kinds : List Kind) → ¬ Lists text kinds) → ¬ IsInvalid text → ¬ ¬ IsSystemDependent text }
{}
