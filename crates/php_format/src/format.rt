//! Whole formats: directives, and the plain text between them.
ghost use Rattle.std.specs.Prelude.{◌≡◌, ℕ, List, ◌∷◌, Option, IfOk, IfErr, MatchOption};
ghost use Rattle.numbered_arguments.specs.declared.Numbered.{Numbered as Asked};
ghost use Rattle.numbered_arguments.specs.declared.Request.{Request as Value};
ghost use Rattle.php_format.specs.PhpPieces.{percent};
ghost use Rattle.php_format.specs.PhpDirectives as spec;
ghost use Rattle.php_format.specs.PhpFormat.{HasFault, HasSignature};

use crate::parts::{kind_of, read_number, skip_flags, skip_precision, skip_size};
use byte_text::split_byte;
use format_arguments::{FormatFault, after_byte, next_directive};
use numbered_arguments::{Numbered, Numbering, Request, is_consistent, skip_digits};
use std::alloc::Global;

/// Reads a directive that asks for an argument, from after its `%`.
fn read_request(text: &[u8]) -> Option<(Request, &[u8])>
    ensures { MatchOption result
        ((request : Value) (rest : List ℕ) → ¬ spec.RequestAt request (percent ∷ text.now) rest)
        (λ found. spec.RequestAt found.0 (percent ∷ text.now) found.1.now) }
{
    let (number, behind_number) = read_number(text)?;
    let behind_flags = skip_flags(behind_number);
    let behind_size = skip_size(skip_precision(skip_digits(behind_flags)));
    let (conversion, rest) = split_byte(behind_size)?;
    let kind = kind_of(conversion)?;
    Some((Request { number, kind }, rest))
}

/// Reads a directive, from after its `%`: what it asks for, if it asks for an argument, and what follows.
fn read_directive(text: &[u8]) -> Option<(Option<Request>, &[u8])>
    ensures { MatchOption result
        ((request : Option Value) (rest : List ℕ) → ¬ spec.DirectiveAt request (percent ∷ text.now) rest)
        (λ found. spec.DirectiveAt found.0 (percent ∷ text.now) found.1.now) }
{
    if let Some(rest) = after_byte(text, b'%') {
        return Some((None, rest));
    }
    let (request, rest) = read_request(text)?;
    Some((Some(request), rest))
}

/// The arguments that a PHP format asks for, in the order of the text; a number may come more than once.
///
/// `Invalid` means that a directive can't be read, or that one number has two kinds. `Memory` is returned only if an
/// allocation fails.
pub fn signature(alloc: Global, text: &[u8]) -> Result<Vec<Numbered>, FormatFault>
    ensures ok { IfOk result (λ asked. HasSignature text.now asked.items) }
    ensures err { IfErr result (λ fault. HasFault text.now fault) }
{
    let mut numbering = Numbering::new(alloc);
    let mut rest = text;
    'directives: while let Some(behind) = next_directive(rest, b'%') {
        let Some((request, after)) = read_directive(behind) else {
            return Err(FormatFault::Invalid)
        };
        numbering.add(request)?;
        rest = after;
    }
    let Numbering { asked, .. } = numbering;
    let consistent = is_consistent(alloc, &asked)?;
    if consistent {
        Ok(asked)
    } else {
        Err(FormatFault::Invalid)
    }
}

/// A law, without code: a text has at most one list of arguments.
pub fn one_signature()
    ensures { (text : List ℕ) (asked others : List Asked) →
        HasSignature text asked → HasSignature text others → asked ≡ others }
{}
