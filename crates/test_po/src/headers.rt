//! Tests of `po_header`: each call once. More headers, with their expected values, are cases of crates/test_answers.
use po_header::{
    RuleRead, charset_accepted, charset_of, field, missing_fields, one_rule, one_tree, parse_expr,
    read_rule,
};
use std::alloc::AllocError;

const HEADER: &str =
    "Language: \tfr\nContent-Type: text/plain; charset=UTF-8\nPlural-Forms: nplurals=2; plural=n>1;\n";

#[test]
fn evaluates(rt: HostRuntime) {
    match parse_expr(rt.alloc(), "n%10 ? 1/n : 7") {
        Ok(expr) => {
            assert_eq!(rt; expr.eval(20), Some(7));
            assert_eq!(rt; expr.eval(1), Some(1));
        }
        Err(_) => assert!(rt; false),
    }
    one_tree();
}

#[test]
fn reads_rules(rt: HostRuntime) -> Result<(), AllocError> {
    let rule = read_rule(rt.alloc(), HEADER)?;
    assert!(rt; matches!(&rule, RuleRead::Given { .. }));
    assert_eq!(rt; rule.form_index(1), 0);
    assert_eq!(rt; rule.form_index(2), 1);
    one_rule();
    Ok(())
}

#[test]
fn reads_headers(rt: HostRuntime) {
    assert_eq!(rt; charset_of(HEADER), Some("UTF-8"));
    assert!(rt; charset_accepted("utf-8"));
    assert!(rt; !charset_accepted("KOI8-R"));
    assert_eq!(rt; field(HEADER, "Language"), Some("fr"));
    assert_eq!(rt;
        missing_fields(HEADER),
        [true, true, true, true, true, false, true, false]
    );
}
