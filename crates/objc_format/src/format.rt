//! Whole formats: directives, and the plain text between them.
ghost use Rattle.std.specs.Prelude.{◌≡◌, ◌++◌, ℕ, List, IfOk, IfErr, OnOk};
ghost use Rattle.numbered_arguments.specs.declared.Numbered.{Numbered as Asked};
ghost use Rattle.numbered_arguments.specs.NumberedArguments.{list_of};
ghost use Rattle.objc_format.specs.ObjcDirectives.{asks};
ghost use Rattle.objc_format.specs.ObjcFormat as spec;

use crate::ObjcFault;
use crate::directive::{Directive, read_directive};
use crate::list::list;
use format_arguments::next_directive;
use numbered_arguments::{Numbered, Request};
use std::alloc::{AllocError, Global};

fn add(requests: &mut Vec<Request>, request: Option<Request>) -> Result<(), AllocError>
    ensures { OnOk result (requests.new.items ≡ requests.old.items ++ list_of request) }
{
    if let Some(request) = request {
        requests.push(request)?;
    }
    Ok(())
}

/// Adds what a directive asks for.
fn add_all(requests: &mut Vec<Request>, directive: Directive) -> Result<(), AllocError>
    ensures { OnOk result (requests.new.items ≡ requests.old.items ++ asks directive) }
{
    add(requests, directive.width)?;
    add(requests, directive.precision)?;
    add(requests, directive.argument)
}

/// The arguments that a format of Objective-C asks for, in the order of the text; a number may come more than once. The
/// kinds are those of `stand_in`.
///
/// `Unread` means that a directive is not read here, and `Invalid` that one is invalid, whichever comes first, or that
/// the arguments form no list: some have numbers and some don't, one number has two kinds, or one is left out. `Memory`
/// is returned only if an allocation fails.
pub fn signature(alloc: Global, text: &[u8]) -> Result<Vec<Numbered>, ObjcFault>
    ensures ok { IfOk result (λ asked. spec.HasSignature text.now asked.items) }
    ensures err { IfErr result (λ fault. spec.HasFault text.now fault) }
{
    let mut requests = Vec::new(alloc);
    let mut rest = text;
    'directives: while let Some(behind) = next_directive(rest, b'%') {
        let Some((directive, after)) = read_directive(behind) else {
            return Err(ObjcFault::Invalid)
        };
        if !directive.is_read {
            return Err(ObjcFault::Unread);
        }
        add_all(&mut requests, directive)?;
        rest = after;
    }
    match list(alloc, &requests)? {
        Some(asked) => Ok(asked),
        None => Err(ObjcFault::Invalid),
    }
}

/// A law, without code: a text has at most one list of arguments, and none if it is not read.
pub fn one_outcome()
    ensures one { (text : List ℕ) (asked others : List Asked) →
        spec.HasSignature text asked → spec.HasSignature text others → asked ≡ others }
    ensures none { (text : List ℕ) (asked : List Asked) → spec.HasSignature text asked → ¬ spec.IsUnread text }
{}
