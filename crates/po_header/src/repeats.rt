//! Expressions whose values repeat every hundred, as for most rules: from 100 on, only the last two digits count.
ghost use Rattle.std.specs.Prelude.{IsTrue};
ghost use Rattle.po_header.specs.Nodes.{node_tree};
ghost use Rattle.po_header.specs.Repeats.{IsPart, IsSettled, Repeats};

use crate::token::Operator;
use crate::tree::Node;

/// Whether a comparison with this bound has one result for all numbers from 100 on.
fn is_settled(operator: Operator, bound: u64) -> bool
    ensures { IsTrue result → IsSettled operator bound }
{
    match operator {
        Operator::Equal => bound < 100,
        Operator::NotEqual => bound < 100,
        Operator::Less => bound < 100,
        Operator::Greater => bound < 100,
        Operator::AtMost => bound < 100,
        Operator::AtLeast => bound < 100,
        _ => false,
    }
}

/// Whether a modulus divides 100.
fn is_part(modulus: u64) -> bool
    ensures { IsTrue result → IsPart modulus }
{
    modulus > 0 && 100 % modulus == 0
}

impl Node {
    /// Whether the values from 100 on are known to depend only on the last two digits.
    pub(crate) fn repeats(&self) -> bool
        ensures { IsTrue result → Repeats (node_tree self.now) }
    {
        match self {
            Node::Count => false,
            Node::Number(_) => true,
            Node::OfCount(operator, bound) => is_settled(*operator, *bound),
            Node::OfRemainder(_, modulus, _) => is_part(*modulus),
            Node::Not(operand) => operand.repeats(),
            Node::Binary(_, left, right) => left.repeats() && right.repeats(),
            Node::Choose(condition, chosen, other) => {
                condition.repeats() && chosen.repeats() && other.repeats()
            }
        }
    }
}
