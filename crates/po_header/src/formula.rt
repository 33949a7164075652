//! Plural expressions, in the form in which they are evaluated.
ghost use Rattle.std.specs.Prelude.{◌≡◌, ℕ, ◌<◌, IfOk, length};
ghost use Rattle.std.proofs.Props.{props};
ghost use Rattle.po_header.specs.TreeValue.{value};
ghost use Rattle.po_header.specs.ExprParts.{tree_of_part};
ghost use Rattle.po_header.specs.ChoiceSteps.{value_reached};

use crate::parts::{Part, value_at};
use crate::steps::{Step, run};
use crate::tree::Node;
use std::alloc::{AllocError, Global};

/// An expression in the form in which it is evaluated: as parts, or as steps where it has them.
#[derive(Drop)]
pub(crate) struct Formula {
    parts: Vec<Part>,
    root: usize,

    // The expression as steps, for the many rules that choose between numbers; empty for all others.
    steps: Vec<Step>,
    start: usize,
    ghost agrees: { (n : ℕ) → 0 < length steps.items →
        value_reached steps.items start n ≡ value (tree_of_part parts.items root) n } by { Prim.hlevel props },
}

impl Formula {
    ghost use Rattle.po_header.specs.Formulas.{formula_tree};
    ghost use Rattle.po_header.specs.Nodes.{node_tree};

    pub(crate) fn new(alloc: Global, node: &Node) -> Result<Formula, AllocError>
        ensures { IfOk result (λ formula. formula_tree formula ≡ node_tree node.now) }
    {
        let mut parts = Vec::new(alloc);
        let root = node.add_parts(&mut parts)?;
        let mut steps = Vec::new(alloc);
        match node.add_value(&mut steps)? {
            Some(start) => Ok(Formula {
                parts,
                root,
                steps,
                start,
            }),
            None => Ok(Formula {
                parts,
                root,
                steps: Vec::new(alloc),
                start: 0,
            }),
        }
    }

    /// The value at `n`; None if a division by 0 is evaluated.
    pub(crate) fn value(&self, n: u64) -> Option<u64>
        ensures { result ≡ value (formula_tree self.now) n }
    {
        if self.steps.is_empty() {
            value_at(&self.parts, self.root, n)
        } else {
            run(&self.steps, self.start, n)
        }
    }
}
