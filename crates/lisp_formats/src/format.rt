//! Whole formats: directives, and the plain text between them.
ghost use Rattle.std.specs.Prelude.{◌≡◌, ℕ, List, IfOk, IfErr, OnOk};
ghost use Rattle.lisp_formats.specs.declared.Kind.{Kind as KindValue};
ghost use Rattle.lisp_formats.specs.declared.Notation.{Notation as Language};
ghost use Rattle.lisp_formats.specs.LispDirectives.{view};
ghost use Rattle.lisp_formats.specs.LispFormat as spec;

use crate::conversions::Target;
use crate::directives::{Directive, read_directive};
use crate::{Kind, LispFault, Notation};
use format_arguments::next_directive;
use std::alloc::{AllocError, Global};

/// Whether a directive is read.
fn is_read(target: Target) -> bool
    ensures { result ≡ spec.is_read_target target }
{
    !matches!(target, Target::Unread)
}

/// Adds the argument that a directive asks for besides those for its parameters.
fn add_target(asked: &mut Vec<Kind>, target: Target) -> Result<(), AllocError>
    ensures { OnOk result (asked.new.items ≡ spec.with_target asked.old.items target) }
{
    match target {
        Target::Next(kind) => asked.push(kind)?,
        Target::Previous if asked.is_empty() => asked.push(Kind::Any)?,
        _ => {}
    }
    Ok(())
}

/// Adds what a directive asks for.
fn add(asked: &mut Vec<Kind>, directive: Directive) -> Result<(), AllocError>
    ensures { OnOk result (asked.new.items ≡ spec.with_directive asked.old.items (view directive)) }
{
    let Directive { variables, target } = directive;
    asked.extend_from_slice(&variables)?;
    add_target(asked, target)
}

/// The kinds of the arguments that a format asks for, in their order.
///
/// `Invalid` means that a directive is invalid, and `Unread` that one is not read here: whichever comes first. `Memory`
/// is returned only if an allocation fails.
pub fn signature(alloc: Global, notation: Notation, text: &[u8]) -> Result<Vec<Kind>, LispFault>
    ensures ok { IfOk result (λ asked. spec.HasSignature notation text.now asked.items) }
    ensures err { IfErr result (λ fault. spec.HasFault notation text.now fault) }
{
    let mut asked = Vec::new(alloc);
    let mut rest = text;
    'directives: while let Some(behind) = next_directive(rest, b'~') {
        let Some((directive, after)) = read_directive(alloc, notation, behind)? else {
            return Err(LispFault::Invalid)
        };
        if !is_read(directive.target) {
            return Err(LispFault::Unread);
        }
        add(&mut asked, directive)?;
        rest = after;
    }
    Ok(asked)
}

/// A law, without code: a text has at most one list of arguments, and none if it is not read.
pub fn one_outcome()
    ensures one { (notation : Language) (text : List ℕ) (asked others : List KindValue) →
        spec.HasSignature notation text asked → spec.HasSignature notation text others → asked ≡ others }
    ensures none { (notation : Language) (text : List ℕ) (asked : List KindValue) →
        spec.HasSignature notation text asked → ¬ spec.IsUnread notation text }
{}
