//! Plural expressions as a list of steps: each is a value, or a test of `n` that continues at one of two earlier steps.
//! Most rules are choices between numbers by such tests.
ghost use Rattle.std.specs.Prelude.{◌≡◌, ℕ, ◌<◌, ◌++◌, ◌∷◌, [], List, Option, Some, IfOk, IfSome, IfNone, length};
ghost use Rattle.po_header.specs.TreeValue.{choice, operator_value};
ghost use Rattle.po_header.specs.ChoiceSteps.{AddsSteps, IsTest, chosen_step, is_within, remainder_of};
ghost use Rattle.po_header.specs.ChoiceSteps.{node_value, value_reached, step_value, step_values, value_at};

use crate::token::Operator;
use crate::tree::Node;
use std::alloc::AllocError;

/// A step: a value, or a test.
#[derive(Clone, Copy)]
pub(crate) enum Step {
    Value(u64),
    /// Continues at step `inside` if `n`, or its remainder if the modulus isn't 0, is from `low` to `high`, else at
    /// step `outside`.
    Test {
        modulus: u64,
        low: u64,
        high: u64,
        inside: usize,
        outside: usize,
    },
}

impl Step {
    fn test(modulus: u64, low: u64, high: u64, inside: usize, outside: usize) -> Step
        ensures { result ≡ Step.Test modulus low high inside outside }
    {
        Step::Test {
            modulus,
            low,
            high,
            inside,
            outside,
        }
    }
}

/// Appends a step and returns its index.
fn add(steps: &mut Vec<Step>, step: Step) -> Result<usize, AllocError>
    ensures { IfOk result (λ i. AddsSteps steps.old.items steps.new.items i (λ n.
        step_value (step_values n steps.old.items) n step)) }
{
    let i = steps.len();
    steps.push(step)?;
    Ok(i)
}

/// The step that tests how `n`, or its remainder, compares with `bound`, and continues at `here` or `there`; None if no
/// test of a range can.
fn test_of(operator: Operator, modulus: u64, bound: u64, here: usize, there: usize) -> Option<Step>
    ensures { IfSome result (λ step. IsTest step operator modulus bound here there) }
{
    match operator {
        Operator::Equal => Some(Step::test(modulus, bound, bound, here, there)),
        Operator::NotEqual => Some(Step::test(modulus, bound, bound, there, here)),
        Operator::AtMost => Some(Step::test(modulus, 0, bound, here, there)),
        Operator::Greater => Some(Step::test(modulus, 0, bound, there, here)),
        Operator::Less if bound > 0 => Some(Step::test(modulus, 0, bound - 1, here, there)),
        Operator::AtLeast if bound > 0 => Some(Step::test(modulus, 0, bound - 1, there, here)),
        _ => None,
    }
}

/// Appends the step that tests how `n`, or its remainder, compares with `bound`; None if no test of a range can.
fn add_test(
    steps: &mut Vec<Step>,
    operator: Operator,
    modulus: u64,
    bound: u64,
    here: usize,
    there: usize,
) -> Result<Option<usize>, AllocError>
    ensures { IfOk result (λ found. IfSome found (λ i. AddsSteps steps.old.items steps.new.items i (λ n.
        choice (operator_value operator (Some (remainder_of modulus n)) (Some bound))
        (value_reached steps.old.items here n) (value_reached steps.old.items there n)))) }
{
    let Some(step) = test_of(operator, modulus, bound, here, there) else {
        return Ok(None)
    };
    let i = add(steps, step)?;
    Ok(Some(i))
}

impl Node {
    /// Appends steps that continue at `here` if the node's value isn't 0, else at `there`, and returns where they
    /// begin; None if the node doesn't consist of tests.
    fn add_condition(
        &self,
        steps: &mut Vec<Step>,
        here: usize,
        there: usize,
    ) -> Result<Option<usize>, AllocError>
        requires here_stands { here < length steps.old.items }
        requires there_stands { there < length steps.old.items }
        ensures { IfOk result (λ found. IfSome found (λ i.
            AddsSteps steps.old.items steps.new.items i (chosen_step steps.old.items self.now here there))) }
    {
        match self {
            Node::OfCount(operator, bound) => add_test(steps, *operator, 0, *bound, here, there),
            Node::OfRemainder(operator, modulus, bound) if *modulus > 0 => {
                add_test(steps, *operator, *modulus, *bound, here, there)
            }
            Node::Not(operand) => operand.add_condition(steps, there, here),
            Node::Binary(operator, left, right) => match operator {
                Operator::Or => {
                    let Some(rest) = right.add_condition(steps, here, there)? else {
                        return Ok(None)
                    };
                    left.add_condition(steps, here, rest)
                }
                Operator::And => {
                    let Some(rest) = right.add_condition(steps, here, there)? else {
                        return Ok(None)
                    };
                    left.add_condition(steps, rest, there)
                }
                _ => Ok(None),
            },
            _ => Ok(None),
        }
    }

    /// Appends steps that give the node's value, and returns where they begin; None if the node isn't a choice between
    /// numbers by tests.
    pub(crate) fn add_value(&self, steps: &mut Vec<Step>) -> Result<Option<usize>, AllocError>
        ensures { IfOk result (λ found. IfSome found (λ i.
            AddsSteps steps.old.items steps.new.items i (node_value self.now))) }
    {
        match self {
            Node::Number(number) => {
                let i = add(steps, Step::Value(*number))?;
                Ok(Some(i))
            }
            Node::Choose(condition, chosen, other) => {
                let Some(here) = chosen.add_value(steps)? else {
                    return Ok(None)
                };
                let Some(there) = other.add_value(steps)? else {
                    return Ok(None)
                };
                condition.add_condition(steps, here, there)
            }
            _ => Ok(None),
        }
    }
}

/// Whether `n`, or its remainder if the modulus isn't 0, is from `low` to `high`.
fn lies_within(n: u64, modulus: u64, low: u64, high: u64) -> bool
    ensures { result ≡ is_within low high (remainder_of modulus n) }
{
    let x = if modulus == 0 { n } else { n % modulus };
    low <= x && x <= high
}

/// The step at which a test continues.
fn next_step(n: u64, modulus: u64, low: u64, high: u64, inside: usize, outside: usize) -> usize
    ensures { (found : List (Option ℕ)) →
        step_value found n (Step.Test modulus low high inside outside) ≡ value_at found result }
{
    if lies_within(n, modulus, low, high) {
        inside
    } else {
        outside
    }
}

/// Runs the steps from index `start`, and returns the value at `n` that they reach.
pub(crate) fn run(steps: &[Step], start: usize, n: u64) -> Option<u64>
    ensures { result ≡ value_reached steps.now start n }
{
    let mut at = start;
    'steps: loop {
        match *steps.get(at)? {
            Step::Value(value) => return Some(value),
            Step::Test {
                modulus,
                low,
                high,
                inside,
                outside,
            } => {
                let next = next_step(n, modulus, low, high, inside, outside);
                if next >= at {
                    return None;
                }
                at = next;
            }
        }
    }
}
