//! Whole formats: directives, and the plain text between them.
ghost use Rattle.std.specs.Prelude.{◌≡◌, ℕ, List, ◌++◌, ◌∷◌, Option, map, option_map, IfOk, IfErr, OnOk, MatchOption};
ghost use Rattle.format_arguments.specs.Arguments.{Argument as Asked};
ghost use Rattle.format_arguments.specs.ArgumentViews.{argument_view};
ghost use Rattle.python_brace_format.specs.BraceSpecifiers.{open_brace};
ghost use Rattle.python_brace_format.specs.BraceDirectives as spec;
ghost use Rattle.python_brace_format.specs.BraceFormat.{HasFault, HasSignature};

use crate::fields::after_field;
use crate::specifiers::after_format;
use format_arguments::{Argument, FormatFault, Kind, after_byte, next_directive};
use std::alloc::{AllocError, Global};

/// Reads a replacement field, from after its opening brace: its name, and what follows its closing brace.
fn read_replacement(text: &[u8]) -> Option<(&[u8], &[u8])>
    ensures { MatchOption result
        ((name rest : List ℕ) → ¬ spec.ReplacementAt name (open_brace ∷ text.now) rest)
        (λ found. spec.ReplacementAt found.0.now (open_brace ∷ text.now) found.1.now) }
{
    let behind_field = after_field(text)?;
    let closing = after_format(behind_field)?;
    let rest = after_byte(closing, b'}')?;
    Some((&text[..text.len() - closing.len()], rest))
}

/// Reads a directive, from after its first brace: the name of its field, if it is one, and what follows.
fn read_directive(text: &[u8]) -> Option<(Option<&[u8]>, &[u8])>
    ensures { MatchOption result
        ((name : Option (List ℕ)) (rest : List ℕ) → ¬ spec.DirectiveAt name (open_brace ∷ text.now) rest)
        (λ found. spec.DirectiveAt (option_map (λ n. n.now) found.0) (open_brace ∷ text.now) found.1.now) }
{
    if let Some(rest) = after_byte(text, b'{') {
        return Some((None, rest));
    }
    let (name, rest) = read_replacement(text)?;
    Some((Some(name), rest))
}

/// Adds the argument of a directive, if it asks for one.
fn ask<'a>(asked: &mut Vec<Argument<'a>>, name: Option<&'a [u8]>) -> Result<(), AllocError>
    ensures { OnOk result (map argument_view asked.new.items ≡ map argument_view asked.old.items
        ++ spec.asks (option_map (λ n. n.now) name.entry)) }
{
    if name.is_none() {
        return Ok(());
    }
    asked.push(Argument {
        name,
        kind: Kind::Any,
    })?;
    Ok(())
}

/// The arguments that a brace format asks for, in the order of the text; a name may come more than once.
///
/// `Invalid` means that a directive can't be read. `Memory` is returned only if an allocation fails.
pub fn signature(alloc: Global, text: &[u8]) -> Result<Vec<Argument<'_>>, FormatFault>
    ensures ok { IfOk result (λ asked. HasSignature text.now (map argument_view asked.items)) }
    ensures err { IfErr result (λ fault. HasFault text.now fault) }
{
    let mut asked = Vec::new(alloc);
    let mut rest = text;
    'directives: while let Some(behind) = next_directive(rest, b'{') {
        let Some((name, after)) = read_directive(behind) else {
            return Err(FormatFault::Invalid)
        };
        ask(&mut asked, name)?;
        rest = after;
    }
    Ok(asked)
}

/// A law, without code: a text has at most one list of arguments.
pub fn one_signature()
    ensures { (text : List ℕ) (asked others : List Asked) →
        HasSignature text asked → HasSignature text others → asked ≡ others }
{}
