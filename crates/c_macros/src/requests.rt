//! The arguments that directives ask for, and their list.
ghost use Rattle.std.specs.Prelude.{◌≡◌, ◌↔◌, ◌+◌, ◌++◌, ℕ, IsTrue, slice_get, List, map, OnOk, IfOk, IfErr};
ghost use Rattle.std.specs.Prelude.{MatchOption, Option, Some, true};
ghost use Rattle.std.specs.List.{list_any};
ghost use Rattle.c_signature.specs.Readers.{amount_view};
ghost use Rattle.c_macros.specs.declared.Kind.{Kind as KindValue};
ghost use Rattle.c_macros.specs.MacroDirectives.{amounts};
ghost use Rattle.c_macros.specs.MacroFormat.{AsksFor, ByNumber, HasNoList};
ghost use Rattle.c_macros.specs.MacroScanning.{asked_by, is_numbered, IsInvalidOnly, IsRising, own_requests};

use crate::directives::Directive;
use crate::{Kind, MacroFault};
use c_signature::{Amount, ArgKind, Size};
use std::alloc::{AllocError, Global};

/// An argument that is asked for: the next one, or the one with a number.
#[derive(Clone, Copy)]
pub(crate) struct Request {
    pub(crate) number: Option<u32>,
    pub(crate) kind: Kind,
}

fn ask_amount(asked: &mut Vec<Request>, amount: Amount) -> Result<(), AllocError>
    ensures { OnOk result (asked.new.items ≡ asked.old.items ++ amounts (amount_view amount)) }
{
    match amount {
        Amount::Fixed => Ok(()),
        Amount::Asked(number) => {
            asked.push(Request {
                number,
                kind: Kind::Plain(ArgKind::Signed(Size::Plain)),
            })?;
            Ok(())
        }
    }
}

fn ask_own(
    asked: &mut Vec<Request>,
    number: Option<u32>,
    own: Option<Kind>,
) -> Result<(), AllocError>
    ensures { OnOk result (asked.new.items ≡ asked.old.items ++ own_requests number own) }
{
    match own {
        None => Ok(()),
        Some(kind) => {
            asked.push(Request { number, kind })?;
            Ok(())
        }
    }
}

/// Adds the arguments of a directive.
pub(crate) fn ask(asked: &mut Vec<Request>, directive: Directive<'_>) -> Result<(), AllocError>
    ensures { OnOk result (asked.new.items ≡ asked.old.items ++ asked_by directive.entry) }
{
    ask_amount(asked, directive.head.width)?;
    ask_amount(asked, directive.head.precision)?;
    ask_own(asked, directive.head.number, directive.own)
}

fn any_numbered(asked: &[Request]) -> bool
    ensures { result ≡ list_any is_numbered asked.now }
{
    asked.iter().any(|request| request.number.is_some())
}

/// The kinds in the order of the text.
fn in_order(alloc: Global, asked: &[Request]) -> Result<Vec<Kind>, AllocError>
    ensures { IfOk result (λ kinds. kinds.items ≡ map (λ r. r.kind) asked.now) }
{
    let mut kinds = Vec::new(alloc);
    'asked: for request in asked {
        kinds.push(request.kind)?;
    }
    Ok(kinds)
}

/// The index in the list of the argument with this number.
fn index_of(number: Option<u32>) -> Option<usize>
    ensures { MatchOption result ((index : ℕ) → ¬ (number ≡ Some (index + 1)))
        (λ index. number ≡ Some (index + 1)) }
{
    match number {
        Some(number) => (number as usize).checked_sub(1),
        None => None,
    }
}

/// Whether the kind at this index is this one.
fn is_at(kinds: &[Kind], index: usize, kind: Kind) -> bool
    ensures { IsTrue result ↔ (slice_get kinds.now index ≡ Some kind) }
{
    match kinds.get(index) {
        Some(found) => *found == kind,
        None => false,
    }
}

/// The kinds in the order of their numbers, by which `asked` must be sorted.
fn by_number(alloc: Global, asked: &[Request]) -> Result<Vec<Kind>, MacroFault>
    requires rising { IsRising asked.now }
    ensures ok { IfOk result (λ kinds. ByNumber asked.now kinds.items) }
    ensures err { IfErr result (λ fault. IsInvalidOnly fault
        ((kinds : List KindValue) → ¬ ByNumber asked.now kinds)) }
{
    let mut kinds = Vec::new(alloc);
    'asked: for request in asked {
        let Some(index) = index_of(request.number) else {
            return Err(MacroFault::Invalid)
        };
        if index == kinds.len() {
            kinds.push(request.kind)?;
        } else if !is_at(&kinds, index, request.kind) {
            return Err(MacroFault::Invalid);
        }
    }
    Ok(kinds)
}

/// The list of arguments of which some have numbers; `Invalid` if they form none.
fn list_numbered(alloc: Global, mut asked: Vec<Request>) -> Result<Vec<Kind>, MacroFault>
    requires { list_any is_numbered asked.items ≡ true }
    ensures ok { IfOk result (λ kinds. AsksFor asked.items kinds.items) }
    ensures err { IfErr result (λ fault. IsInvalidOnly fault (HasNoList asked.items)) }
{
    asked.sort_unstable_by_key(|request| request.number.unwrap_or(0));
    by_number(alloc, &asked)
}

/// The list of the arguments asked for; `Invalid` if they form none.
pub(crate) fn list(alloc: Global, asked: Vec<Request>) -> Result<Vec<Kind>, MacroFault>
    ensures ok { IfOk result (λ kinds. AsksFor asked.items kinds.items) }
    ensures err { IfErr result (λ fault. IsInvalidOnly fault (HasNoList asked.items)) }
{
    if !any_numbered(&asked) {
        let kinds = in_order(alloc, &asked)?;
        return Ok(kinds);
    }
    list_numbered(alloc, asked)
}
