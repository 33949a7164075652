//! Whole formats: directives, and the plain text between them.
ghost use Rattle.std.specs.Prelude.{◌≡◌, ℕ, List, ◌++◌, [], ◌∷◌, map, IfOk, IfErr, OnOk, MatchOption};
ghost use Rattle.format_arguments.specs.Arguments.{Argument as Asked};
ghost use Rattle.format_arguments.specs.ArgumentViews.{argument_view};
ghost use Rattle.python_format.specs.PythonDirectives as spec;
ghost use Rattle.python_format.specs.Format.{HasFault, HasSignature};
ghost use Rattle.python_format.specs.PythonScanning.{directive_view};

use crate::directives::{Directive, read_directive};
use crate::parts::Amount;
use format_arguments::{Argument, FormatFault, Kind, is_consistent, next_directive};
use std::alloc::{AllocError, Global};

fn ask_amount(asked: &mut Vec<Argument<'_>>, amount: Amount) -> Result<(), AllocError>
    ensures { OnOk result (map argument_view asked.new.items ≡
        map argument_view asked.old.items ++ spec.amount_asks amount) }
{
    if let Amount::Star = amount {
        asked.push(Argument {
            name: None,
            kind: Kind::Integer,
        })?;
    }
    Ok(())
}

fn asks_nothing(directive: Directive<'_>) -> bool
    ensures { result ≡ spec.asks_nothing (directive_view directive.entry).name directive.entry.kind }
{
    directive.name.is_none() && matches!(directive.kind, Kind::Percent)
}

fn ask_conversion<'a>(
    asked: &mut Vec<Argument<'a>>,
    directive: Directive<'a>,
) -> Result<(), AllocError>
    ensures { OnOk result (map argument_view asked.new.items ≡ map argument_view asked.old.items
        ++ spec.conversion_asks (directive_view directive.entry).name directive.entry.kind) }
{
    if asks_nothing(directive) {
        return Ok(());
    }
    asked.push(Argument {
        name: directive.name,
        kind: directive.kind,
    })?;
    Ok(())
}

/// Adds the arguments of a directive.
fn ask<'a>(asked: &mut Vec<Argument<'a>>, directive: Directive<'a>) -> Result<(), AllocError>
    ensures { OnOk result (map argument_view asked.new.items ≡
        map argument_view asked.old.items ++ spec.asks (directive_view directive.entry)) }
{
    ask_amount(asked, directive.width)?;
    ask_amount(asked, directive.precision)?;
    ask_conversion(asked, directive)
}

/// The arguments that a Python format asks for, in the order of the text; a name may come more than once.
///
/// `Invalid` means that a directive can't be read, that some arguments have names and some don't, or that one name has
/// two kinds. `Memory` is returned only if an allocation fails.
pub fn signature(alloc: Global, text: &[u8]) -> Result<Vec<Argument<'_>>, FormatFault>
    ensures ok { IfOk result (λ asked. HasSignature text.now (map argument_view asked.items)) }
    ensures err { IfErr result (λ fault. HasFault text.now fault) }
{
    let mut asked = Vec::new(alloc);
    let mut rest = text;
    'directives: while let Some(behind) = next_directive(rest, b'%') {
        let Some((directive, after)) = read_directive(behind) else {
            return Err(FormatFault::Invalid)
        };
        ask(&mut asked, directive)?;
        rest = after;
    }
    let consistent = is_consistent(alloc, &asked)?;
    if consistent {
        Ok(asked)
    } else {
        Err(FormatFault::Invalid)
    }
}

/// A law, without code: a text has at most one list of arguments.
pub fn one_signature()
    ensures { (text : List ℕ) (asked others : List Asked) →
        HasSignature text asked → HasSignature text others → asked ≡ others }
{}
