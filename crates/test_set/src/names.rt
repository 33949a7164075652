//! Which texts are names. The expected values were written by hand, from the rules.
use live_set::{Name, NameFault};
use std::alloc::Global;

const LETTERS: &str = "abcdefghijklmnopqrstuvwxyzABCDEFGHIJKLMNOPQRSTUVWXYZ0123456789_-";

const ONLY_LETTERS: &str = "abcdefghijklmnopqrstuvwxyzABCDEFGHIJKLMNOPQRSTUVWXYZabcdefghijkl";

const LONG: &str = "abcdefghijklmnopqrstuvwxyzABCDEFGHIJKLMNOPQRSTUVWXYZabcdefghijklm";

/// Texts, and whether they are names.
const TEXTS: [(&str, bool); 14] = [
    (LETTERS, true),
    (ONLY_LETTERS, true),
    ("a", true),
    ("fr_CA.UTF-8@euro", true),
    ("c++", true),
    ("0", true),
    ("", false),
    (LONG, false),
    ("a b", false),
    ("a/b", false),
    ("a\n", false),
    ("a\0", false),
    ("\u{e9}", false),
    ("fr:de", false),
];

/// Whether a text is taken as a name, and so is its copy; or, if it isn't one, is refused for that reason.
fn is_judged(alloc: Global, text: &str, is_name: bool) -> bool {
    let name = match Name::new(alloc, text) {
        Ok(name) => name,
        Err(fault) => return !is_name && fault == NameFault::BadName,
    };
    match name.try_clone() {
        Ok(again) => is_name && name.as_str() == text && again.as_str() == text,
        Err(_) => false,
    }
}

#[test]
fn takes_names_alone(rt: HostRuntime) {
    assert!(rt; (LETTERS.len(), ONLY_LETTERS.len(), LONG.len()) == (64, 64, 65));
    for (text, is_name) in TEXTS {
        assert!(rt; is_judged(rt.alloc(), text, is_name), "{text}");
    }
    for len in 1..65usize {
        let front = LETTERS.get(..len).unwrap_or("");
        assert!(rt; is_judged(rt.alloc(), front, true), "{len}");
    }
}
