//! Tests of expressions, formats and texts of many sizes. Any call may run out of memory; here there is enough for all.
use c_signature::signature;
use po_header::parse_expr;
use po_text::read_po;
use std::alloc::{AllocError, Global};
use std::test::Fail;

/// Powers of two and their neighbours; all numbers up to 40 are also tried.
const SIZES: [usize; 18] = [
    63, 64, 65, 127, 128, 129, 255, 256, 257, 511, 512, 513, 1023, 1024, 1025, 2047, 2048, 2049,
];

/// `count` copies of a text, one after another.
fn copies(alloc: Global, text: &str, count: usize) -> Result<String, AllocError> {
    let mut whole = String::new(alloc);
    for _ in 0..count {
        whole.push_str(text)?;
    }
    Ok(whole)
}

/// Whether `n` in `count` pairs of parentheses, and `n` followed by `+n` `count` times, are both expressions.
fn is_expression(alloc: Global, count: usize) -> Result<bool, AllocError> {
    let (open, close) = (copies(alloc, "(", count)?, copies(alloc, ")", count)?);
    let nested = format!(in alloc; "{open}n{close}")?;
    let summed = format!(in alloc; "n{}", copies(alloc, "+n", count)?.as_str())?;
    Ok(parse_expr(alloc, nested.as_str()).is_ok() && parse_expr(alloc, summed.as_str()).is_ok())
}

#[test]
fn expressions_of_any_length(rt: HostRuntime) -> Result<(), Fail> {
    // 499 pairs and `n` are 999 bytes, and an expression may have 1,000.
    for count in 0..500usize {
        assert!(rt; is_expression(rt.alloc(), count)?, "{count}");
    }
    Ok(())
}

#[test]
fn formats_and_texts_of_any_length(rt: HostRuntime) -> Result<(), Fail> {
    for count in (0..41).chain(SIZES) {
        let format = copies(rt.alloc(), "%d", count)?;
        assert_eq!(rt; signature(rt.alloc(), format.as_str())?.len(), count);
        let text = copies(rt.alloc(), "msgid \"a\"msgstr \"x\"\n", count)?;
        assert_eq!(rt; read_po(rt.alloc(), text.as_bytes())?.len(), count);
    }
    Ok(())
}
