//! Texts of a catalogue beside those that GNU msgunfmt 0.21 writes of the same MO file.
use catalogue::{Options, compile};
use po_writing::write_po;
use std::alloc::Global;

const PLAIN: Options = Options {
    checked: false,
    use_fuzzy: false,
};

/// What `msgunfmt --no-wrap` writes: contexts, a plural, strings of several lines and each escape that has a letter.
const WRITTEN: &[u8] =
    b"msgid \"\"\nmsgstr \"\"\n\"Language: fr\\n\"\n\"Content-Type: text/plain; charset=UTF-8\\n\"\n\n\
    msgctxt \"\"\nmsgid \"a\\\"\\\\\x01\x1b\x7f\"\nmsgstr \"\\t\\a\\b\\f\\v\\r\\\\0018\"\n\n\
    msgid \"\\n\"\nmsgstr \"\"\n\"\\n\"\n\"\\n\"\n\nmsgctxt \"menu\"\nmsgid \"%d file\\n\"\n\
    msgid_plural \"%d files\\n\"\nmsgstr[0] \"%d fichier\\n\"\nmsgstr[1] \"%d fichiers\\n\"\n\n\
    msgid \"\"\n\"one\\n\"\n\"two\"\nmsgstr \"\"\n\"\xc3\xa9t\xc3\xa9\x012\\n\"\n\"\\n\"\n\"b\"\n\n\
    msgid \"x\\n\"\nmsgstr \"x\"\n";

/// What `msgunfmt --no-wrap --escape` writes of the same file.
const ESCAPED: &[u8] =
    b"msgid \"\"\nmsgstr \"\"\n\"Language: fr\\n\"\n\"Content-Type: text/plain; charset=UTF-8\\n\"\n\n\
    msgctxt \"\"\nmsgid \"a\\\"\\\\\\001\\033\\177\"\nmsgstr \"\\t\\a\\b\\f\\v\\r\\\\0018\"\n\n\
    msgid \"\\n\"\nmsgstr \"\"\n\"\\n\"\n\"\\n\"\n\nmsgctxt \"menu\"\nmsgid \"%d file\\n\"\n\
    msgid_plural \"%d files\\n\"\nmsgstr[0] \"%d fichier\\n\"\nmsgstr[1] \"%d fichiers\\n\"\n\n\
    msgid \"\"\n\"one\\n\"\n\"two\"\nmsgstr \"\"\n\"\\303\\251t\\303\\251\\0012\\n\"\n\"\\n\"\n\"b\"\n\n\
    msgid \"x\\n\"\nmsgstr \"x\"\n";

/// Whether the catalogue of a PO text is written so.
fn is_written(alloc: Global, text: &[u8], escape: bool, wanted: &[u8]) -> bool {
    let Ok(compiled) = compile(alloc, text, PLAIN) else {
        return false
    };
    match write_po(alloc, &compiled.catalogue, escape) {
        Ok(written) => written.as_slice() == wanted,
        Err(_) => false,
    }
}

#[test]
fn writes_as_msgunfmt(rt: HostRuntime) {
    assert!(rt; is_written(rt.alloc(), ESCAPED, false, WRITTEN));
    assert!(rt; is_written(rt.alloc(), WRITTEN, true, ESCAPED));
}

#[test]
fn writes_nothing_of_no_entries(rt: HostRuntime) {
    assert!(rt; is_written(rt.alloc(), b"", false, b""));
}

/// A message of eleven forms, so that an index has two digits.
const MANY: &[u8] =
    b"msgid \"a\"\nmsgid_plural \"b\"\nmsgstr[0] \"0\"\nmsgstr[1] \"1\"\nmsgstr[2] \"2\"\n\
    msgstr[3] \"3\"\nmsgstr[4] \"4\"\nmsgstr[5] \"5\"\nmsgstr[6] \"6\"\nmsgstr[7] \"7\"\nmsgstr[8] \"8\"\n\
    msgstr[9] \"9\"\nmsgstr[10] \"10\"\n";

#[test]
fn numbers_forms(rt: HostRuntime) {
    assert!(rt; is_written(rt.alloc(), MANY, false, MANY));
}
