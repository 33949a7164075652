//! Two formats that are read side by side.
ghost use Rattle.std.specs.Prelude.{IsTrue, IfSome, ◌∷◌};
ghost use Rattle.c_signature.specs.FormatScanning.{AskSame, ReadSame, asked_by};
ghost use Rattle.c_signature.specs.Pieces.{percent};
ghost use Rattle.c_signature.specs.Readers.{amount_view, argument_view};
ghost use Rattle.c_signature.specs.Signature.{amount_requests, argument_requests, TakeSame};

use crate::conversions::Argument;
use crate::directives::{Directive, read_directive, split_same};
use crate::format::next_directive;
use crate::parts::Amount;

/// Whether two widths, or two precisions, take the same argument and don't number it.
fn same_amount(first: Amount, second: Amount) -> bool
    ensures { IsTrue result → AskSame (amount_requests (amount_view first)) (amount_requests (amount_view second)) }
{
    match (first, second) {
        (Amount::Fixed, Amount::Fixed) => true,
        (Amount::Asked(number), Amount::Asked(other)) => number.is_none() && other.is_none(),
        _ => false,
    }
}

/// Whether two conversions take the same argument.
fn same_argument(first: Argument, second: Argument) -> bool
    ensures { IsTrue result
        → AskSame (argument_requests None (argument_view first)) (argument_requests None (argument_view second)) }
{
    match (first, second) {
        (Argument::One(kind), Argument::One(other)) => kind == other,
        (Argument::Nothing, Argument::Nothing) => true,
        _ => false,
    }
}

/// Whether two directives take the same arguments and number none.
fn same_directive(first: Directive, second: Directive) -> bool
    ensures { IsTrue result → AskSame (asked_by first) (asked_by second) }
{
    match (first.number, second.number) {
        (None, None) => {
            same_amount(first.width, second.width)
                && same_amount(first.precision, second.precision)
                && same_argument(first.argument, second.argument)
        }
        _ => false,
    }
}

/// Reads a directive from both texts, each from after its `%`, and returns what follows them. `None` if the directives
/// take other arguments or number one, or if one of them can't be read.
fn split_pair<'a>(first: &'a [u8], second: &'a [u8]) -> Option<(&'a [u8], &'a [u8])>
    ensures { IfSome result (λ rests. ReadSame (percent ∷ first.now) (percent ∷ second.now) rests.0.now rests.1.now) }
{
    if let Some(rests) = split_same(first, second) {
        return Some(rests);
    }
    let Ok((directive, rest)) = read_directive(first) else {
        return None
    };
    let Ok((other, others)) = read_directive(second) else {
        return None
    };
    if same_directive(directive, other) {
        Some((rest, others))
    } else {
        None
    }
}

/// Whether two texts are C formats that take the same arguments and number none (C standard, 7.21.6.1). It reads both
/// at once and allocates no memory. `false` says nothing: compare the lists that `signature` returns.
pub fn have_same_arguments(first: &str, second: &str) -> bool
    ensures { IsTrue result → TakeSame first.now second.now }
{
    let mut rest = first.as_bytes();
    let mut others = second.as_bytes();
    'directives: while let Some(behind) = next_directive(rest) {
        let Some(beyond) = next_directive(others) else {
            return false
        };
        let Some((after, over)) = split_pair(behind, beyond) else {
            return false
        };
        rest = after;
        others = over;
    }
    next_directive(others).is_none()
}
