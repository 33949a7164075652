//! Calls of `parse_expr` and `read_rule`.
use crate::printing::word_of;
use po_header::{PluralExpr, RuleRead, parse_expr, read_rule};
use std::{io, str};

const EXPRESSIONS: &[&str] = &[
    "n==",
    "18446744073709551615",
    "18446744073709551616",
    "n!=1;x",
    "0-1",
    "7-2-1",
    "1+2*3%4",
    "1 ? 2 : 0 ? 3 : 4",
    "!n==0",
    "n && 1/n",
    "n || 1/n",
    "n ? 1/n : 7",
    "",
    "(n",
    "n==1 ? 0 : n%10>=2 && n%10<=4 && (n%100<10 || n%100>=20) ? 1 : 2;",
];

const RULES: &[&str] = &[
    "nplurals=2 plural=n>1",
    "Plural-Forms: nplurals=2;",
    "nplurals=;plural=n",
    "nplurals=18446744073709551616; plural=0",
    "nplurals=2; plural=n>1 ? 0 : 1",
    "nplurals=3; plural=n==1 ? 0 : n%10>=2 && n%10<=4 && (n%100<10 || n%100>=20) ? 1 : 2;",
];

/// Prints the values of an expression for some numbers.
fn print_values<R: Print>(rt: &R, expr: &PluralExpr) -> io::Result<()> {
    print!(rt; "Ok")?;
    for n in [0, 1, 3, 5] {
        print!(rt; " {n}:{:?}", expr.eval(n))?;
    }
    println!(rt)
}

/// Parses an expression, and prints the result.
fn parse<R: Print + AllocGlobal>(rt: &R, label: &str, text: &str) -> io::Result<()> {
    print!(rt; "parse_expr, {label}, gives ")?;
    match parse_expr(rt.alloc(), text) {
        Ok(expr) => print_values(rt, &expr),
        Err(fault) => println!(rt; "Err({fault:?})"),
    }
}

/// Parses an expression that is given as bytes.
fn parse_bytes<R: Print + AllocGlobal>(rt: &R, label: &str, bytes: &[u8]) -> io::Result<()> {
    parse(rt, label, str::from_utf8(bytes).unwrap_or(""))
}

/// The group `parse_expr`.
pub fn parse_all<R: Print + AllocGlobal>(rt: &R) -> io::Result<()> {
    for text in EXPRESSIONS {
        parse(rt, text, text)?;
    }
    let mut spaces = [b' '; 1001];
    spaces[0] = b'n';
    parse_bytes(rt, "n and 999 spaces", &spaces[..1000])?;
    parse_bytes(rt, "n and 1000 spaces", &spaces)
}

/// Prints the plural forms that a rule gives some numbers.
fn print_forms<R: Print>(rt: &R, rule: &RuleRead) -> io::Result<()> {
    print!(rt; "{}", word_of(rule))?;
    for n in [0, 1, 2, 5, 7, 22, 112] {
        print!(rt; " {n}:{}", rule.form_index(n))?;
    }
    println!(rt)
}

/// Reads the rule of a header, and prints the result.
fn read<R: Print + AllocGlobal>(rt: &R, text: &str) -> io::Result<()> {
    print!(rt; "read_rule, {text}, gives ")?;
    match read_rule(rt.alloc(), text) {
        Ok(rule) => print_forms(rt, &rule),
        Err(fault) => println!(rt; "Err({fault:?})"),
    }
}

/// The group `read_rule`.
pub fn read_all<R: Print + AllocGlobal>(rt: &R) -> io::Result<()> {
    for text in RULES {
        read(rt, text)?;
    }
    Ok(())
}
