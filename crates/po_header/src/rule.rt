//! The plural rule.
ghost use Rattle.std.specs.Prelude.{◌≡◌, ℕ, List, IfOk, IfErr, IsOk, option_map};
ghost use Rattle.po_header.specs.Rule.{Absent, Rule, HasRule, HasRuleIn, leading_number, form_index};
ghost use Rattle.po_header.specs.Rules.{rule_of};

use crate::ExprFault;
use crate::expr::PluralExpr;
use crate::parse::parse_expr;
use crate::search::behind;
use crate::token::{digits_len, number_of, skip_blanks};
use std::alloc::{AllocError, Global};

/// The plural rule in a header's text.
#[derive(Debug, Drop)]
pub enum RuleRead {
    /// The number of forms, and the expression that selects the form of a number.
    Given { nplurals: u64, expr: PluralExpr },
    /// The text has no `nplurals=` or no `plural=`.
    Absent,
    /// The text has both, but at least one of them can't be read.
    Broken,
}

/// The number at the front of a text, after spaces and tabs.
fn number_at(text: &[u8]) -> Option<u64>
    ensures { result ≡ leading_number text.now }
{
    let rest = skip_blanks(text);
    let (digits, _) = rest.split_at(digits_len(rest));
    if digits.is_empty() {
        return None;
    }
    number_of(digits)
}

/// Reads the plural rule in a header's text, from the first `nplurals=` and the first `plural=`
/// (GNU gettext manual, "Plural forms"). Fails only if memory runs out.
pub fn read_rule(alloc: Global, text: &str) -> Result<RuleRead, AllocError>
    ensures ok { IfOk result (λ rule. HasRule text.now (rule_of rule)) }

    // Reading a text without a rule can't run out of memory.
    ensures no_memory { HasRule text.now Absent → IsOk result }
{
    let Some(count) = behind(text, "nplurals=") else {
        return Ok(RuleRead::Absent)
    };
    let Some(expr) = behind(text, "plural=") else {
        return Ok(RuleRead::Absent)
    };
    let Some(nplurals) = number_at(count.as_bytes()) else {
        return Ok(RuleRead::Broken)
    };
    match parse_expr(alloc, expr) {
        Ok(expr) => Ok(RuleRead::Given { nplurals, expr }),
        Err(ExprFault::Memory) => Err(AllocError),
        Err(ExprFault::TooLong) => Ok(RuleRead::Broken),
        Err(ExprFault::Malformed) => Ok(RuleRead::Broken),
    }
}

/// Reads the plural rule in the text of a header; without a header, the rule is `Absent`. Fails only if memory runs
/// out.
pub fn rule_in(alloc: Global, header: Option<&str>) -> Result<RuleRead, AllocError>
    ensures ok { IfOk result (λ rule. HasRuleIn (option_map (λ text. text.now) header.entry) (rule_of rule)) }
    ensures no_memory { HasRuleIn (option_map (λ text. text.now) header.entry) Absent → IsOk result }
{
    match header {
        Some(text) => read_rule(alloc, text),
        None => Ok(RuleRead::Absent),
    }
}

impl RuleRead {
    /// Stores the values of the rule's expression at 0 to 199 in a table, for a rule that is asked often. All answers
    /// stay the same. If an allocation fails, nothing is changed.
    pub fn tabulate(&mut self, alloc: Global) -> Result<(), AllocError>
        ensures rule { rule_of self.new ≡ rule_of self.old }
        ensures unchanged { IfErr result (λ _. self.new ≡ self.old) }
    {
        match self {
            RuleRead::Given { expr, .. } => expr.tabulate(alloc),
            RuleRead::Absent | RuleRead::Broken => Ok(()),
        }
    }

    /// The index of the form that a number takes: the expression's value if that is below `nplurals`, else 0. Without a
    /// rule, or with a broken one, it is 0 for 1 and 1 for all other numbers.
    pub fn form_index(&self, n: u64) -> u64
        ensures { result ≡ form_index (rule_of self.now) n }
    {
        match self {
            RuleRead::Given { nplurals, expr } => match expr.eval(n) {
                Some(form) if form < *nplurals => form,
                _ => 0,
            },
            RuleRead::Absent | RuleRead::Broken => { if n == 1 { 0 } else { 1 } }
        }
    }
}

/// A law, without code: every text has exactly one rule. So the result of `read_rule` is determined, unless memory runs
/// out.
pub fn one_rule()
    ensures one { (text : List ℕ) (rule other : Rule) → HasRule text rule → HasRule text other → rule ≡ other }
    ensures some { (text : List ℕ) → ¬ ¬ ((rule : Rule) × HasRule text rule) }
{}
