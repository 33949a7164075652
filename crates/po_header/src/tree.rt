//! Plural expressions, as the parser builds them.
ghost use Rattle.std.specs.Prelude.{◌≡◌, IfOk};
ghost use Rattle.po_header.specs.Grammar.{Negation, Binary, Choice};
ghost use Rattle.po_header.specs.Nodes.{node_tree};

use crate::token::Operator;
use std::alloc::{AllocError, Global};

/// An expression. `OfCount` and `OfRemainder` are what most rules are made of.
#[derive(Drop)]
pub(crate) enum Node {
    Count,
    Number(u64),
    /// `n OPERATOR number`
    OfCount(Operator, u64),
    /// `n % number OPERATOR number`
    OfRemainder(Operator, u64, u64),
    Not(Box<Node>),
    Binary(Operator, Box<Node>, Box<Node>),
    Choose(Box<Node>, Box<Node>, Box<Node>),
}

impl Node {
    /// `! operand`
    pub(crate) fn not(alloc: Global, operand: Node) -> Result<Node, AllocError>
        ensures { IfOk result (λ node. node_tree node ≡ Negation (node_tree operand)) }
    {
        Ok(Node::Not(Box::new(alloc, operand)?))
    }

    /// `left operator right`
    pub(crate) fn binary(
        alloc: Global,
        operator: Operator,
        left: Node,
        right: Node,
    ) -> Result<Node, AllocError>
        ensures { IfOk result (λ node. node_tree node ≡ Binary operator (node_tree left) (node_tree right)) }
    {
        match (left, right) {
            (Node::Count, Node::Number(number)) => Ok(Node::OfCount(operator, number)),
            (Node::OfCount(Operator::Remainder, modulus), Node::Number(number)) => {
                Ok(Node::OfRemainder(operator, modulus, number))
            }
            (left, right) => {
                Ok(Node::Binary(operator, Box::new(alloc, left)?, Box::new(alloc, right)?))
            }
        }
    }

    /// `condition ? chosen : other`
    pub(crate) fn choose(
        alloc: Global,
        condition: Node,
        chosen: Node,
        other: Node,
    ) -> Result<Node, AllocError>
        ensures { IfOk result (λ node.
            node_tree node ≡ Choice (node_tree condition) (node_tree chosen) (node_tree other)) }
    {
        Ok(Node::Choose(
            Box::new(alloc, condition)?,
            Box::new(alloc, chosen)?,
            Box::new(alloc, other)?,
        ))
    }
}
