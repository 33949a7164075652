//! Whole formats: items, and what stands between them.
ghost use Rattle.std.specs.Prelude.{◌≡◌, ℕ, List, ◌++◌, IfOk, IfErr, OnOk};
ghost use Rattle.numbered_arguments.specs.declared.Numbered.{Numbered as Asked};
ghost use Rattle.csharp_format.specs.CSharpFormat.{HasFault, HasSignature, asks};

use crate::items::read_piece;
use format_arguments::FormatFault;
use numbered_arguments::{Kind, Numbered};
use std::alloc::{AllocError, Global};

/// Adds the argument that a piece asks for, if it asks for one.
fn add(asked: &mut Vec<Numbered>, number: Option<u32>) -> Result<(), AllocError>
    ensures { OnOk result (asked.new.items ≡ asked.old.items ++ asks number) }
{
    if let Some(number) = number {
        asked.push(Numbered {
            number,
            kind: Kind::Any,
        })?;
    }
    Ok(())
}

/// The arguments that a composite format asks for, in the order of the text; the first argument of a call has number
/// 0, and a number may come more than once.
///
/// `Invalid` means that an item can't be read, or that a closing brace stands alone. `Memory` is returned only if an
/// allocation fails.
pub fn signature(alloc: Global, text: &[u8]) -> Result<Vec<Numbered>, FormatFault>
    ensures ok { IfOk result (λ asked. HasSignature text.now asked.items) }
    ensures err { IfErr result (λ fault. HasFault text.now fault) }
{
    let mut asked = Vec::new(alloc);
    let mut rest = text;
    'pieces: while !rest.is_empty() {
        let Some((number, after)) = read_piece(rest) else {
            return Err(FormatFault::Invalid)
        };
        add(&mut asked, number)?;
        rest = after;
    }
    Ok(asked)
}

/// A law, without code: a text has at most one list of arguments.
pub fn one_signature()
    ensures { (text : List ℕ) (asked others : List Asked) →
        HasSignature text asked → HasSignature text others → asked ≡ others }
{}
