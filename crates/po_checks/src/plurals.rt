//! The check of plural forms: there is a rule, each plural entry has as many forms as the rule says, and each number
//! has a form (GNU gettext manual, "Plural forms").
ghost use Rattle.std.specs.Prelude.{◌≡◌, ◌≤◌, ◌++◌, ◌∷◌, [], List};
ghost use Rattle.po_header.specs.Expr.{tree_of};
ghost use Rattle.po_header.specs.Rule.{Given};
ghost use Rattle.po_header.specs.Rules.{rule_of};
ghost use Rattle.po_text.specs.Entries.{Entry as PoEntry};
ghost use Rattle.po_checks.specs.Checks.{has_form};
ghost use Rattle.po_checks.specs.Found.{line_for, line_of, FirstFault, HasPlurals};
ghost use Rattle.po_checks.specs.Findings.{AddsPlural, FirstWithoutForm, HasAllValues};
ghost use Rattle.po_checks.specs.Fails.{RuleRefuses};

use crate::findings::{fault_at, first_line};
use crate::{LoadFault, LoadKind};
use po_header::{PluralExpr, RuleRead};
use po_text::EntryBuffer;

/// The first plural entry.
#[derive(Clone, Copy)]
pub struct FirstPlural {
    /// The number of its forms.
    pub forms: u64,
    pub line: u32,
    /// The line of the first later plural entry with another number of forms.
    pub other: Option<u32>,
}

/// The plural entries so far. How many forms they should have is known only once the header has been read.
#[derive(Clone, Copy)]
pub struct Plurals {
    pub first: Option<FirstPlural>,
}

/// Whether the rule gives `n` one of the forms.
fn has_form_for(nplurals: u64, expr: &PluralExpr, n: u64) -> bool
    ensures { result ≡ has_form nplurals (tree_of expr.now) n }
{
    match expr.eval(n) {
        Some(form) => form < nplurals,
        None => false,
    }
}

/// Returns a number such that the values at 0 to 1000 are those at the numbers below it.
fn end_of_values(expr: &PluralExpr) -> u64
    ensures within { result ≤ 1001 }
    ensures all { HasAllValues (tree_of expr.now) result }
{
    if expr.repeats() { 200 } else { 1001 }
}

/// Returns the least number from 0 to 1000 that the rule gives none of the forms.
fn first_without_form(nplurals: u64, expr: &PluralExpr) -> Option<u64>
    ensures { FirstWithoutForm nplurals (tree_of expr.now) result }
{
    'numbers: for n in 0..end_of_values(expr) {
        if !has_form_for(nplurals, expr, n) {
            return Some(n);
        }
    }
    None
}

impl Plurals {
    /// Starts with no plural entry.
    pub(crate) fn new() -> Plurals
        ensures { HasPlurals [] result }
    {
        Plurals { first: None }
    }

    /// Adds a plural entry with this number of forms.
    fn add(&mut self, forms: u64, line: u32)
        ensures { AddsPlural self.old self.new forms line }
    {
        let first = match self.first {
            None => FirstPlural {
                forms,
                line,
                other: None,
            },
            Some(first) => FirstPlural {
                other: first_line(first.other, forms != first.forms, line),
                ..first
            },
        };
        self.first = Some(first);
    }

    /// Looks at one more entry.
    pub(crate) fn look_at(&mut self, entry: &EntryBuffer)
        ensures { (entries : List PoEntry) → HasPlurals entries self.old
            → HasPlurals (entries ++ entry.now ∷ []) self.new }
    {
        if entry.plural().is_some() {
            self.add(entry.form_count() as u64, entry.line());
        }
    }

    /// The line of the first plural entry.
    fn line(&self) -> Option<u32>
        ensures { result ≡ line_of self.now.first }
    {
        match self.first {
            Some(first) => Some(first.line),
            None => None,
        }
    }

    /// The line of the first plural entry with another number of forms than `nplurals`.
    fn line_for(&self, nplurals: u64) -> Option<u32>
        ensures { result ≡ line_for self.now.first nplurals }
    {
        match self.first {
            None => None,
            Some(first) => if first.forms == nplurals {
                first.other
            } else {
                Some(first.line)
            },
        }
    }

    /// Returns the first fault by a rule that was read, from a header on this line.
    fn fault_by(&self, nplurals: u64, expr: &PluralExpr, header_line: u32) -> Option<LoadFault>
        ensures { (entries : List PoEntry) → HasPlurals entries self.now
            → FirstFault (RuleRefuses (Given nplurals (tree_of expr.now)) entries header_line) result }
    {
        if let Some(line) = self.line_for(nplurals) {
            return Some(LoadFault {
                kind: LoadKind::FormCount,
                line,
            });
        }
        match first_without_form(nplurals, expr) {
            Some(n) => Some(LoadFault {
                kind: LoadKind::PluralRange(n),
                line: header_line,
            }),
            None => None,
        }
    }

    /// Returns the first fault by the rule in a header on this line, whether or not the rule could be read.
    pub(crate) fn fault(&self, rule: &RuleRead, header_line: u32) -> Option<LoadFault>
        ensures { (entries : List PoEntry) → HasPlurals entries self.now
            → FirstFault (RuleRefuses (rule_of rule.now) entries header_line) result }
    {
        match rule {
            RuleRead::Given { nplurals, expr } => self.fault_by(*nplurals, expr, header_line),
            RuleRead::Absent => fault_at(self.line(), LoadKind::NoRule),
            RuleRead::Broken => match self.line() {
                Some(_) => Some(LoadFault {
                    kind: LoadKind::BadRule,
                    line: header_line,
                }),
                None => None,
            },
        }
    }
}
