//! Which forms serve five numbers or more, by the plural rule.
ghost use Rattle.std.specs.Prelude.{◌≡◌, ◌≤◌, if◌then◌else◌, IfOk};
ghost use Rattle.po_header.specs.Expr.{tree_of};
ghost use Rattle.po_header.specs.Rules.{rule_of};
ghost use Rattle.po_formats.specs.Often as spec;

use po_header::{PluralExpr, RuleRead};
use std::alloc::{AllocError, Global};

/// 1 if the expression gives `n` this form, else 0.
fn served(expr: &PluralExpr, form: u64, n: u64) -> u64
    ensures is { result ≡ (if spec.serves (tree_of expr.now) form n then 1 else 0) }
    ensures few { result ≤ 1 }
{
    match expr.eval(n) {
        Some(index) if index == form => 1,
        _ => 0,
    }
}

/// How many numbers from 0 to 1000 the expression gives this form.
fn numbers_served(expr: &PluralExpr, form: u64) -> u64
    ensures is { result ≡ spec.numbers_served (tree_of expr.now) form }
    ensures few { result ≤ 1001 }
{
    let mut count = 0;
    'numbers: for n in 0..1001 {
        count += served(expr, form, n);
    }
    count
}

/// Whether each of this many forms serves five numbers or more.
fn forms_served(alloc: Global, expr: &PluralExpr, nplurals: u64) -> Result<Vec<bool>, AllocError>
    ensures { IfOk result (λ often. often.items ≡ spec.forms_served (tree_of expr.now) nplurals) }
{
    let mut often = Vec::new(alloc);
    'forms: for form in 0..nplurals {
        often.push(5 <= numbers_served(expr, form))?;
    }
    Ok(often)
}

/// Whether each form serves five numbers or more. Nothing is known of the forms without a rule, or if it has more than
/// 100 forms.
pub(crate) fn often(alloc: Global, rule: &RuleRead) -> Result<Vec<bool>, AllocError>
    ensures { IfOk result (λ often. often.items ≡ spec.often_served (rule_of rule.now)) }
{
    match rule {
        RuleRead::Given { nplurals, expr } if *nplurals <= 100 => forms_served(
            alloc, expr, *nplurals,
        ),
        _ => Ok(Vec::new(alloc)),
    }
}
