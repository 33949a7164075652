//! Plural expressions as a list of parts, each after its operands, and their values. No part owns another, so the
//! prover sees at once that a rule can be sent to another thread.
ghost use Rattle.std.specs.Prelude.{◌≡◌, ℕ, Option, None, Some, IfOk, IfSome, IfNone};
ghost use Rattle.po_header.specs.TreeValue.{operator_value, truth, value};
ghost use Rattle.po_header.specs.Nodes.{node_tree};
ghost use Rattle.po_header.specs.ExprParts.{Builds, tree_of_part, part_tree, trees_of};

use crate::token::Operator;
use crate::tree::Node;
use std::alloc::AllocError;

/// A part of an expression; each operand is the index of an earlier part.
#[derive(Clone, Copy)]
pub(crate) enum Part {
    Count,
    Number(u64),
    /// `n OPERATOR number`
    OfCount(Operator, u64),
    /// `n % number OPERATOR number`
    OfRemainder(Operator, u64, u64),
    Negate(usize),
    Combine(Operator, usize, usize),
    Choose(usize, usize, usize),
}

/// 1 for true, 0 for false.
fn number_of_truth(holds: bool) -> u64
    ensures { result ≡ truth holds }
{
    if holds { 1 } else { 0 }
}

/// Applies an operator to two values; None for a division by 0.
fn apply(operator: Operator, left: u64, right: u64) -> Option<u64>
    ensures { result ≡ operator_value operator (Some left) (Some right) }
{
    match operator {
        Operator::Or => Some(number_of_truth(left != 0 || right != 0)),
        Operator::And => Some(number_of_truth(left != 0 && right != 0)),
        Operator::Equal => Some(number_of_truth(left == right)),
        Operator::NotEqual => Some(number_of_truth(left != right)),
        Operator::Less => Some(number_of_truth(left < right)),
        Operator::Greater => Some(number_of_truth(left > right)),
        Operator::AtMost => Some(number_of_truth(left <= right)),
        Operator::AtLeast => Some(number_of_truth(left >= right)),
        Operator::Add => Some(left.wrapping_add(right)),
        Operator::Subtract => Some(left.wrapping_sub(right)),
        Operator::Multiply => Some(left.wrapping_mul(right)),
        Operator::Divide => left.checked_div(right),
        Operator::Remainder => left.checked_rem(right),
    }
}

/// The value of `||` or `&&`, if the left side alone decides it.
fn decide(operator: Operator, left: u64) -> Option<u64>
    ensures some { IfSome result (λ v. (right : Option ℕ) → operator_value operator (Some left) right ≡ Some v) }
    ensures none { IfNone result (operator_value operator (Some left) None ≡ None) }
{
    match operator {
        Operator::Or if left != 0 => Some(1),
        Operator::And if left == 0 => Some(0),
        _ => None,
    }
}

/// The value at `n` of a part whose operands are in `below`; None if a division by 0 is evaluated.
#[cycle(evaluation)]
fn part_value(part: Part, below: &[Part], n: u64) -> Option<u64>
    ensures { result ≡ value (part_tree (trees_of below.now) part) n }
{
    match part {
        Part::Count => Some(n),
        Part::Number(number) => Some(number),
        Part::OfCount(operator, right) => apply(operator, n, right),
        Part::OfRemainder(operator, modulus, right) => {
            let left = n.checked_rem(modulus)?;
            apply(operator, left, right)
        }
        Part::Negate(operand) => {
            let operand = value_at(below, operand, n)?;
            Some(number_of_truth(operand == 0))
        }
        Part::Combine(operator, left, right) => {
            let left = value_at(below, left, n)?;
            if let Some(decided) = decide(operator, left) {
                return Some(decided);
            }
            let right = value_at(below, right, n)?;
            apply(operator, left, right)
        }
        Part::Choose(condition, chosen, other) => {
            if value_at(below, condition, n)? != 0 {
                value_at(below, chosen, n)
            } else {
                value_at(below, other, n)
            }
        }
    }
}

/// The value at `n` of the part with this index, or `n` if the index is past the end; None if a division by 0 is
/// evaluated.
#[cycle(evaluation)]
pub(crate) fn value_at(parts: &[Part], at: usize, n: u64) -> Option<u64>
    ensures { result ≡ value (tree_of_part parts.now at) n }
{
    let Some(part) = parts.get(at) else {
        return Some(n)
    };
    let (below, _) = parts.split_at(at);
    part_value(*part, below, n)
}

/// Appends a part and returns its index.
fn add(parts: &mut Vec<Part>, part: Part) -> Result<usize, AllocError>
    ensures { IfOk result (λ i. Builds parts.old.items parts.new.items i (part_tree (trees_of parts.old.items) part)) }
{
    let i = parts.len();
    parts.push(part)?;
    Ok(i)
}

impl Node {
    /// Appends the parts of the node, and returns the index of the last one, which is the whole node.
    pub(crate) fn add_parts(&self, parts: &mut Vec<Part>) -> Result<usize, AllocError>
        ensures { IfOk result (λ i. Builds parts.old.items parts.new.items i (node_tree self.now)) }
    {
        match self {
            Node::Count => add(parts, Part::Count),
            Node::Number(number) => add(parts, Part::Number(*number)),
            Node::OfCount(operator, right) => add(parts, Part::OfCount(*operator, *right)),
            Node::OfRemainder(operator, modulus, right) => {
                add(parts, Part::OfRemainder(*operator, *modulus, *right))
            }
            Node::Not(operand) => {
                let operand = operand.add_parts(parts)?;
                add(parts, Part::Negate(operand))
            }
            Node::Binary(operator, left, right) => {
                let left = left.add_parts(parts)?;
                let right = right.add_parts(parts)?;
                add(parts, Part::Combine(*operator, left, right))
            }
            Node::Choose(condition, chosen, other) => {
                let condition = condition.add_parts(parts)?;
                let chosen = chosen.add_parts(parts)?;
                let other = other.add_parts(parts)?;
                add(parts, Part::Choose(condition, chosen, other))
            }
        }
    }
}
