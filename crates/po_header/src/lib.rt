//! The header of a PO file: charset, fields and plural rule.
#![tactic(auto)]

ghost use Rattle.std.specs.Prelude.{◌≡◌};
ghost use Rattle.po_header.specs.declared.ExprFault.TheVariants.{Memory};

mod charset;
mod expr;
mod fields;
mod formula;
mod parse;
mod parts;
mod repeats;
mod rule;
mod search;
mod steps;
mod token;
mod tree;

pub use charset::{charset_accepted, charset_of, has_accepted_charset};
pub use expr::PluralExpr;
pub use fields::{FIELD_NAMES, field, missing_fields};
pub use parse::{one_tree, parse_expr};
pub use rule::{RuleRead, one_rule, read_rule, rule_in};
use std::alloc::{AllocError, AllocFailed};
use std::error::Error;
use std::fmt;

/// The maximum length of an expression, in bytes.
pub const EXPRESSION_LIMIT: usize = 1000;

/// Why a text could not be read as an expression.
#[derive(Clone, Copy, Debug, PartialEq, Eq)]
pub enum ExprFault {
    /// The expression has more than [`EXPRESSION_LIMIT`] bytes.
    TooLong,
    /// The text isn't an expression of the syntax for plural rules.
    Malformed,
    /// An allocation failed; this says nothing about the text.
    Memory,
}

impl From<AllocError> for ExprFault {
    ghost from_gives = { λ _ e. e ≡ Memory };

    fn from(_e: AllocError) -> ExprFault {
        ExprFault::Memory
    }
}

impl<T: Drop> From<AllocFailed<T>> for ExprFault {
    ghost from_gives = { λ _ e. e ≡ Memory };

    fn from(_e: AllocFailed<T>) -> ExprFault {
        ExprFault::Memory
    }
}

impl fmt::Display for ExprFault {
    fn fmt<W: fmt::Write>(&self, f: &mut fmt::Formatter<W>) -> fmt::Result {
        f.write_str(match self {
            ExprFault::TooLong => "expression too long",
            ExprFault::Malformed => "malformed expression",
            ExprFault::Memory => "out of memory",
        })
    }
}

impl Error for ExprFault {}
