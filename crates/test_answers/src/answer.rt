//! Answers to cases.
use crate::case::{CaseFault, number, spelled, spelled_bytes, two_fields};
use crate::entries;
use c_signature::{FormatFault, signature};
use po_header::{
    ExprFault, RuleRead, charset_accepted, charset_of, field, missing_fields, parse_expr, read_rule,
};
use std::alloc::Global;

/// The value of an expression at a number.
fn expression(alloc: Global, question: &str) -> Result<String, CaseFault> {
    let (text, n) = two_fields(question)?;
    let (text, n) = (spelled(alloc, text)?, number(n)?);
    match parse_expr(alloc, text.as_str()) {
        Ok(expr) => Ok(format!(in alloc; "{:?}", expr.eval(n))?),
        Err(ExprFault::Memory) => Err(CaseFault::Memory),
        Err(fault) => Ok(fault.to_string(alloc)?),
    }
}

/// The word for a rule in an answer.
fn word_of(rule: &RuleRead) -> &'static str {
    match rule {
        RuleRead::Given { .. } => "given",
        RuleRead::Absent => "absent",
        RuleRead::Broken => "broken",
    }
}

/// The indices of the forms that a rule selects for some numbers.
fn rule(alloc: Global, question: &str) -> Result<String, CaseFault> {
    let (text, numbers) = two_fields(question)?;
    let text = spelled(alloc, text)?;
    let rule = read_rule(alloc, text.as_str())?;
    let mut answer = String::from_str(alloc, word_of(&rule))?;
    for n in numbers.split(' ') {
        write!(answer, " {}", rule.form_index(number(n)?))?;
    }
    Ok(answer)
}

/// The indices of the forms that a rule selects for all numbers below 200, ten to a word, and then for 200, 1000000 and
/// 1999999.
fn language(alloc: Global, question: &str) -> Result<String, CaseFault> {
    let text = spelled(alloc, question)?;
    let rule = read_rule(alloc, text.as_str())?;
    let mut answer = String::from_str(alloc, word_of(&rule))?;
    for n in 0..200 {
        let space = if n % 10 == 0 { " " } else { "" };
        write!(answer, "{space}{}", rule.form_index(n))?;
    }
    for n in [200, 1_000_000, 1_999_999] {
        write!(answer, " {}", rule.form_index(n))?;
    }
    Ok(answer)
}

/// The charset that a header names.
fn charset(alloc: Global, question: &str) -> Result<String, CaseFault> {
    let text = spelled(alloc, question)?;
    Ok(format!(in alloc; "{:?}", charset_of(text.as_str()))?)
}

/// Whether texts in a charset can be read.
fn accepted(alloc: Global, question: &str) -> Result<String, CaseFault> {
    let name = spelled(alloc, question)?;
    Ok(format!(in alloc; "{}", charset_accepted(name.as_str()))?)
}

/// The value of a header's field.
fn value(alloc: Global, question: &str) -> Result<String, CaseFault> {
    let (text, name) = two_fields(question)?;
    let (text, name) = (spelled(alloc, text)?, spelled(alloc, name)?);
    Ok(format!(in alloc; "{:?}", field(text.as_str(), name.as_str()))?)
}

/// Which of the expected fields a header lacks.
fn missing(alloc: Global, question: &str) -> Result<String, CaseFault> {
    let text = spelled(alloc, question)?;
    Ok(format!(in alloc; "{:?}", missing_fields(text.as_str()))?)
}

/// The arguments that a C format takes.
fn format(alloc: Global, question: &str) -> Result<String, CaseFault> {
    let text = spelled(alloc, question)?;
    match signature(alloc, text.as_str()) {
        Ok(kinds) => Ok(format!(in alloc; "{kinds:?}")?),
        Err(FormatFault::Memory) => Err(CaseFault::Memory),
        Err(fault) => Ok(fault.to_string(alloc)?),
    }
}

/// The entries of a PO text, or its fault, as both readers give them; an answer with both if they differ.
fn po(alloc: Global, question: &str) -> Result<String, CaseFault> {
    let text = spelled_bytes(alloc, question)?;
    let together = entries::read_together(alloc, &text)?;
    let singly = entries::read_singly(alloc, &text)?;
    if together.as_str() == singly.as_str() {
        Ok(together)
    } else {
        Ok(format!(in alloc; "{together}, but one by one {singly}")?)
    }
}

/// The answer to a question of this kind; `NotACase` for an unknown kind.
pub fn answer(alloc: Global, kind: &str, question: &str) -> Result<String, CaseFault> {
    match kind {
        "expression" => expression(alloc, question),
        "rule" => rule(alloc, question),
        "language" => language(alloc, question),
        "charset" => charset(alloc, question),
        "accepted" => accepted(alloc, question),
        "field" => value(alloc, question),
        "missing" => missing(alloc, question),
        "format" => format(alloc, question),
        "po" => po(alloc, question),
        _ => Err(CaseFault::NotACase),
    }
}
