//! Numbers that a format leaves out.
ghost use Rattle.std.specs.Prelude.{◌≡◌, IfOk};
ghost use Rattle.numbered_formats.specs.NumberGaps as spec;

use crate::Notation;
use numbered_arguments::{Index, Kind, Numbered};
use std::alloc::{AllocError, Global};

/// The largest number of these, or 0.
fn largest(asked: &[Numbered]) -> u32
    ensures { result ≡ spec.largest_number asked.now }
{
    let mut most = 0;
    'asked: for argument in asked {
        if argument.number > most {
            most = argument.number;
        }
    }
    most
}

/// Whether at most one of the numbers 1 to `last` isn't asked for.
fn leaves_out_one(index: &Index, last: u32) -> bool
    ensures { result ≡ spec.leaves_out_one_in index.now last }
{
    let mut left_out: u32 = 0;
    let mut number = 0;
    'numbers: while number < last {
        number += 1;
        if !index.has(Numbered {
            number,
            kind: Kind::Any,
        }) {
            if left_out == 1 {
                return false;
            }
            left_out = 1;
        }
    }
    true
}

fn kde_fits(alloc: Global, asked: &[Numbered]) -> Result<bool, AllocError>
    ensures { IfOk result (λ fit. fit ≡ spec.leaves_out_one asked.now) }
{
    let index = Index::of(alloc, asked)?;
    let last = largest(asked);
    Ok(leaves_out_one(&index, last))
}

/// Whether one format may ask for all of these. The only error is a failed allocation.
pub(crate) fn fits(
    alloc: Global,
    notation: Notation,
    asked: &[Numbered],
) -> Result<bool, AllocError>
    ensures { IfOk result (λ fit. fit ≡ spec.fit notation asked.now) }
{
    match notation {
        Notation::Kde => kde_fits(alloc, asked),
        _ => Ok(true),
    }
}
