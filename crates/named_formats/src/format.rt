//! Whole formats: directives, and the plain text between them.
ghost use Rattle.std.specs.Prelude.{◌≡◌, ℕ, List, ◌++◌, map, option_map, IfOk, IfErr, OnOk};
ghost use Rattle.format_arguments.specs.Arguments.{Argument as Asked};
ghost use Rattle.format_arguments.specs.ArgumentViews.{argument_view};
ghost use Rattle.python_brace_format.specs.BraceDirectives.{asks};
ghost use Rattle.named_formats.specs.declared.Notation.{Notation as NotationValue};
ghost use Rattle.named_formats.specs.NameFormat.{HasFault, HasSignature};

use crate::Notation;
use crate::directives::{next_mark, read_directive};
use format_arguments::{Argument, FormatFault, Kind};
use std::alloc::{AllocError, Global};

/// Adds the argument of a directive, if it asks for one.
fn ask<'a>(asked: &mut Vec<Argument<'a>>, name: Option<&'a [u8]>) -> Result<(), AllocError>
    ensures { OnOk result (map argument_view asked.new.items ≡ map argument_view asked.old.items
        ++ asks (option_map (λ n. n.now) name.entry)) }
{
    if name.is_none() {
        return Ok(());
    }
    asked.push(Argument {
        name,
        kind: Kind::Any,
    })?;
    Ok(())
}

/// The arguments that a format asks for, in the order of the text; a name may come more than once.
///
/// `Invalid` means that a directive can't be read. `Memory` is returned only if an allocation fails.
pub fn signature(
    alloc: Global,
    notation: Notation,
    text: &[u8],
) -> Result<Vec<Argument<'_>>, FormatFault>
    ensures ok { IfOk result (λ asked. HasSignature notation text.now (map argument_view asked.items)) }
    ensures err { IfErr result (λ fault. HasFault notation text.now fault) }
{
    let mut asked = Vec::new(alloc);
    let mut rest = text;
    'directives: while let Some(behind) = next_mark(notation, rest) {
        let Some((name, after)) = read_directive(notation, behind) else {
            return Err(FormatFault::Invalid)
        };
        ask(&mut asked, name)?;
        rest = after;
    }
    Ok(asked)
}

/// A law, without code: a text has at most one list of arguments.
pub fn one_signature()
    ensures { (notation : NotationValue) (text : List ℕ) (asked others : List Asked) →
        HasSignature notation text asked → HasSignature notation text others → asked ≡ others }
{}
