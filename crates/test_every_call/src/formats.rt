//! Calls of `signature`.
use c_signature::signature;
use std::io;

const FORMATS: &[&str] = &[
    "%d of %s",
    "%2$s / %1$d",
    "%u of %s",
    "%5.2f %-*d %%",
    "%lld",
    "%qd",
    "%1$d %3$d",
    "%1$d %s",
    "%1$d %1$s",
    "100%",
    "%<PRId64>",
    "%<b>",
];

/// Lists the arguments of a format, and prints the result.
fn list<R: Print + AllocGlobal>(rt: &R, text: &str) -> io::Result<()> {
    let answer = signature(rt.alloc(), text);
    println!(rt; "signature, {text}, gives {answer:?}")
}

/// The group `signature`.
pub fn list_all<R: Print + AllocGlobal>(rt: &R) -> io::Result<()> {
    for text in FORMATS {
        list(rt, text)?;
    }
    Ok(())
}
