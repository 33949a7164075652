//! PO texts whose formats name macros, beside the MO files that GNU msgfmt 0.21 writes of them.
use catalogue::{LoadKind, Options};
use dependent_po::{Dependent, DependentCompiled, Split, SplitText, compile_dependent};
use std::alloc::Global;

const CHECKED: Options = Options {
    checked: true,
    use_fuzzy: false,
};

/// Messages of each kind: with a context, plurals, a flag in a msgid, and without the flag `c-format`.
const MESSAGES: &[u8] = b"msgid \"\"\nmsgstr \"Plural-Forms: nplurals=2; plural=(n != 1);\\n\"\n\n\
    #, c-format\nmsgctxt \"ctx\"\nmsgid \"x %<PRIu64> y\"\nmsgstr \"%<PRIu64> z\"\n\n\
    #, c-format\nmsgid \"a %<PRIu64>\"\nmsgid_plural \"b %<PRIu64>\"\n\
    msgstr[0] \"c %<PRIu64>\"\nmsgstr[1] \"dd %<PRIu64>\"\n\n\
    msgid \"plain %<PRIu64>\"\nmsgstr \"klar\"\n\n\
    #, c-format\nmsgid \"%d\"\nmsgstr \"%d\"\n\n\
    #, c-format\nmsgid \"%Id\"\nmsgstr \"%IId\"\n";

fn is_split(split: &Split, start: usize, len: usize) -> bool {
    split.start == start && split.len == len
}

fn are_split(splits: &[Split], wanted: &[(usize, usize)]) -> bool {
    if splits.len() != wanted.len() {
        return false;
    }
    for k in 0..splits.len() {
        if !is_split(&splits[k], wanted[k].0, wanted[k].1) {
            return false;
        }
    }
    true
}

/// A string by its bytes, and its splits by start and length.
type Row<'a> = (&'a [u8], &'a [(usize, usize)]);

fn is_text(text: &SplitText, wanted: Row<'_>) -> bool {
    text.bytes.as_slice() == wanted.0 && are_split(text.splits.as_slice(), wanted.1)
}

fn is_message(message: Option<&Dependent>, original: Row<'_>, translation: Row<'_>) -> bool {
    let Some(message) = message else { return false };
    is_text(&message.original, original) && is_text(&message.translation, translation)
}

fn is_as_written(compiled: &DependentCompiled) -> bool {
    compiled.statics.len() == 3
        && compiled.dependents.len() == 3
        && compiled.stats.translated == 5
        && compiled.header_line == 1
        && is_message(
            compiled.dependents.get(0),
            (b"ctx\x04x %<PRIu64> y", &[(7, 8)]),
            (b"%<PRIu64> z", &[(1, 8)]),
        )
        && is_message(
            compiled.dependents.get(1),
            (b"a %<PRIu64>\0b %<PRIu64>", &[(3, 8)]),
            (b"c %<PRIu64>\0dd %<PRIu64>", &[(3, 8), (16, 8)]),
        )
        && is_message(
            compiled.dependents.get(2),
            (b"%Id", &[]),
            (b"%IId", &[(1, 1), (2, 1)]),
        )
}

fn compiles_as_written(alloc: Global) -> bool {
    match compile_dependent(alloc, MESSAGES, CHECKED) {
        Ok(compiled) => is_as_written(&compiled),
        Err(_) => false,
    }
}

#[test]
fn splits_as_msgfmt(rt: HostRuntime) {
    assert!(rt; compiles_as_written(rt.alloc()));
}

fn is_refused(alloc: Global, text: &[u8], kind: LoadKind, line: u32) -> bool {
    match compile_dependent(alloc, text, CHECKED) {
        Ok(_) => false,
        Err(fault) => fault.kind == kind && fault.line == line,
    }
}

/// Texts that are refused, with the kind and the line of the entry.
const REFUSED: &[(&[u8], LoadKind, u32)] = &[
    (
        b"#, c-format\nmsgid \"%<PRIu64>\"\nmsgstr \"%d\"\n",
        LoadKind::FormatMismatch,
        2,
    ),
    (
        b"#, c-format\nmsgid \"%<PRIu64>\\n\"\nmsgstr \"%<PRIu64>\"\n",
        LoadKind::NewlineMismatch,
        2,
    ),
];

#[test]
fn refuses_other_arguments(rt: HostRuntime) {
    for (text, kind, line) in REFUSED {
        assert!(rt; is_refused(rt.alloc(), text, *kind, *line));
    }
}
