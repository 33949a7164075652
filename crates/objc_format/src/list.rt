//! The list of the arguments that directives ask for.
ghost use Rattle.std.specs.Prelude.{◌≡◌, false, true, IfOk, MatchOption};
ghost use Rattle.std.specs.List.{filter_map, list_any};
ghost use Rattle.numbered_arguments.specs.NumberedArguments.{numbered_requests as in_numbers};
ghost use Rattle.objc_format.specs.ObjcFormat as spec;

use numbered_arguments::{Kind, Numbered, Numbering, Request, Strictness, agrees, is_consistent};
use std::alloc::{AllocError, Global};

fn any_own(requests: &[Request]) -> bool
    ensures { result ≡ list_any spec.is_own requests.now }
{
    requests.iter().any(|request| request.number.is_some())
}

fn any_next(requests: &[Request]) -> bool
    ensures { result ≡ list_any spec.is_next requests.now }
{
    requests.iter().any(|request| request.number.is_none())
}

/// Whether some have a number of their own, and some don't.
fn mixes(requests: &[Request]) -> bool
    ensures { result ≡ spec.mixes requests.now }
{
    any_own(requests) && any_next(requests)
}

/// The arguments with their numbers.
fn numbered(alloc: Global, requests: &[Request]) -> Result<Vec<Numbered>, AllocError>
    ensures { IfOk result (λ asked. asked.items ≡ in_numbers requests.now) }
{
    let mut numbering = Numbering::new(alloc);
    'requests: for request in requests {
        numbering.add(Some(*request))?;
    }
    Ok(numbering.asked)
}

/// The argument before this one, of whatever kind, if this isn't the first.
fn before(argument: Numbered) -> Option<Numbered>
    ensures { result ≡ spec.before argument }
{
    if argument.number > 1 {
        Some(Numbered {
            number: argument.number - 1,
            kind: Kind::Any,
        })
    } else {
        None
    }
}

/// The arguments before these.
fn all_before(alloc: Global, asked: &[Numbered]) -> Result<Vec<Numbered>, AllocError>
    ensures { IfOk result (λ found. found.items ≡ filter_map spec.before asked.now) }
{
    asked
        .iter()
        .filter_map(|argument| before(*argument))
        .collect(alloc)
}

/// Whether no number is left out.
fn is_gapless(alloc: Global, asked: &[Numbered]) -> Result<bool, AllocError>
    ensures { IfOk result (λ is. is ≡ spec.is_gapless asked.now) }
{
    let before = all_before(alloc, asked)?;
    agrees(alloc, asked, &before, Strictness::Lenient)
}

fn is_list(alloc: Global, asked: &[Numbered]) -> Result<bool, AllocError>
    ensures { IfOk result (λ is. is ≡ spec.is_list asked.now) }
{
    let consistent = is_consistent(alloc, asked)?;
    let gapless = is_gapless(alloc, asked)?;
    Ok(consistent && gapless)
}

/// The arguments with their numbers, if one format may ask for all of them. The only error is a failed allocation.
pub(crate) fn list(alloc: Global, requests: &[Request]) -> Result<Option<Vec<Numbered>>, AllocError>
    ensures { IfOk result (λ found. MatchOption found (spec.fits requests.now ≡ false)
        (λ asked. (asked.items ≡ in_numbers requests.now) × (spec.fits requests.now ≡ true))) }
{
    if mixes(requests) {
        return Ok(None);
    }
    let asked = numbered(alloc, requests)?;
    if is_list(alloc, &asked)? {
        Ok(Some(asked))
    } else {
        Ok(None)
    }
}
