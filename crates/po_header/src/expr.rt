//! Plural expressions.
ghost use Rattle.std.specs.Prelude.{◌≡◌, IfOk, IfErr, IsTrue};
ghost use Rattle.std.proofs.Props.{props};
ghost use Rattle.po_header.specs.TreeValue.{value};
ghost use Rattle.po_header.specs.Formulas.{formula_tree};
ghost use Rattle.po_header.specs.Repeats.{AreFirst, Repeats};

use crate::formula::Formula;
use crate::tree::Node;
use std::alloc::{AllocError, Global};
use std::fmt;

/// How many values a table has. Those for 100 to 199 are included because most rules repeat them for all greater
/// numbers.
const FIRST_COUNT: u64 = 200;

/// The expression of a plural rule, which selects a form by `n`.
#[derive(Drop)]
pub struct PluralExpr {
    formula: Formula,

    // The table: the values for 0 and up. It is empty unless `tabulate` has made it.
    first: Vec<u8>,
    ghost first_are: { AreFirst first.items (formula_tree formula) } by { Prim.hlevel props },

    // Whether the values from 100 on are known to depend only on the last two digits.
    repeats: bool,
    ghost again: { IsTrue repeats → Repeats (formula_tree formula) } by { Prim.hlevel props },
}

/// The values for 0 and up, up to the first that is undefined or doesn't fit a byte.
fn first_values(alloc: Global, formula: &Formula) -> Result<Vec<u8>, AllocError>
    ensures { IfOk result (λ values. AreFirst values.items (formula_tree formula.now)) }
{
    let mut values = Vec::with_capacity(alloc, FIRST_COUNT as usize)?;
    'numbers: for n in 0..FIRST_COUNT {
        match formula.value(n) {
            Some(value) if value < 256 => values.push(value as u8)?,
            _ => return Ok(values),
        }
    }
    Ok(values)
}

impl fmt::Debug for PluralExpr {
    fn fmt<W: fmt::Write>(&self, f: &mut fmt::Formatter<W>) -> fmt::Result {
        f.write_str("PluralExpr")
    }
}

impl PluralExpr {
    ghost use Rattle.po_header.specs.Expr.{tree_of};
    ghost use Rattle.po_header.specs.Nodes.{node_tree};

    pub(crate) fn new(alloc: Global, node: Node) -> Result<PluralExpr, AllocError>
        ensures { IfOk result (λ expr. tree_of expr ≡ node_tree node) }
    {
        let formula = Formula::new(alloc, &node)?;
        let repeats = node.repeats();
        Ok(PluralExpr {
            formula,
            first: Vec::new(alloc),
            repeats,
        })
    }

    /// Stores the values at 0 to 199 in a table, for an expression that is evaluated often: `eval` is then one access
    /// to memory for most numbers. If an allocation fails, nothing is changed.
    pub fn tabulate(&mut self, alloc: Global) -> Result<(), AllocError>
        ensures tree { tree_of self.new ≡ tree_of self.old }
        ensures unchanged { IfErr result (λ _. self.new ≡ self.old) }
    {
        self.first = first_values(alloc, &self.formula)?;
        Ok(())
    }

    /// Whether the values from 100 on are known to depend only on the last two digits, as those of most rules do.
    pub fn repeats(&self) -> bool
        ensures { IsTrue result → Repeats (tree_of self.now) }
    {
        self.repeats
    }

    /// The number itself, or a smaller one that has the same value.
    fn folded(&self, n: u64) -> u64
        ensures { value (tree_of self.now) result ≡ value (tree_of self.now) n }
    {
        if self.repeats && n >= FIRST_COUNT {
            100 + n % 100
        } else {
            n
        }
    }

    /// The value at `n`, in unsigned arithmetic modulo 2 ^ 64 (GNU gettext manual, "Plural forms"; C standard, 6.5).
    /// None if a division by 0 is evaluated.
    pub fn eval(&self, n: u64) -> Option<u64>
        ensures { result ≡ value (tree_of self.now) n }
    {
        let n = self.folded(n);
        match self.first.get(n as usize) {
            Some(value) => Some(u64::from(*value)),
            None => self.formula.value(n),
        }
    }
}
