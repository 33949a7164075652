//! Whole formats: directives, and the plain text between them.
ghost use Rattle.std.specs.Prelude.{◌≡◌, ℕ, List, IfOk, IfErr, map};
ghost use Rattle.c_signature.specs.Signature as c;
ghost use Rattle.c_signature.specs.declared.ArgKind.{ArgKind as PlainValue};
ghost use Rattle.c_macros.specs.declared.Kind.{Kind as KindValue};
ghost use Rattle.c_macros.specs.declared.Kind.TheVariants as kinds;
ghost use Rattle.c_macros.specs.MacroDirectives.{Directive};
ghost use Rattle.c_macros.specs.MacroFormat.{HasFault, IsMacroFormat, Lists};
ghost use Rattle.c_macros.specs.MacroScanning.{IsInvalidOnly, IsRead};
ghost use Rattle.c_macros.specs.MacroSplits.{HasParts};

use crate::directives::read_directive;
use crate::requests::{Request, ask, list};
use crate::splitting::add_parts;
use crate::{Kind, MacroFault, Split};
use format_arguments::next_directive;
use std::alloc::Global;

/// What the directives of a text ask for, and their parts; `Invalid` if the text isn't made of directives and plain
/// text.
fn read_directives(alloc: Global, text: &[u8]) -> Result<(Vec<Request>, Vec<Split>), MacroFault>
    ensures ok { IfOk result (λ read. IsRead text.now read.0.items read.1.items) }
    ensures err { IfErr result (λ fault. IsInvalidOnly fault
        ((directives : List Directive) → ¬ IsMacroFormat directives text.now)) }
{
    let mut asked = Vec::new(alloc);
    let mut parts = Vec::new(alloc);
    let mut rest = text;
    'directives: while let Some(behind) = next_directive(rest, b'%') {
        let Some((directive, after)) = read_directive(behind) else {
            return Err(MacroFault::Invalid)
        };
        ask(&mut asked, directive)?;
        add_parts(&mut parts, text.len(), directive)?;
        rest = after;
    }
    Ok((asked, parts))
}

/// The arguments of a text, and the parts of its directives.
pub(crate) fn read_format(alloc: Global, text: &str) -> Result<(Vec<Kind>, Vec<Split>), MacroFault>
    ensures ok { IfOk result (λ read. Lists text.now read.0.items × HasParts text.now read.1.items) }
    ensures err { IfErr result (λ fault. HasFault text.now fault) }
{
    let (asked, parts) = read_directives(alloc, text.as_bytes())?;
    let kinds = list(alloc, asked)?;
    Ok((kinds, parts))
}

/// The arguments that a C format with macros takes, in order (C standard, 7.21.6.1 and 7.8.1).
///
/// `Invalid` means that a directive can't be read, or that the arguments form no list: some are numbered and some
/// aren't, a number is left out, or a number has two kinds. `Memory` is returned only if an allocation fails.
pub fn signature(alloc: Global, text: &str) -> Result<Vec<Kind>, MacroFault>
    ensures ok { IfOk result (λ kinds. Lists text.now kinds.items) }
    ensures err { IfErr result (λ fault. HasFault text.now fault) }
{
    match read_format(alloc, text) {
        Ok((kinds, _parts)) => Ok(kinds),
        Err(fault) => Err(fault),
    }
}

/// A law, without code: a text has at most one list of arguments, and one that `c_signature` lists has that list.
pub fn one_outcome()
    ensures list { (text : List ℕ) (kinds others : List KindValue) →
        Lists text kinds → Lists text others → kinds ≡ others }
    ensures plain { (text : List ℕ) (plain : List PlainValue) →
        c.Lists text plain → Lists text (map kinds.Plain plain) }
{}
