//! Tests of `po_formats`: on which lines GNU msgfmt 0.21 reports the faults of whole texts with `-c`.
use po_checks::Options;
use po_formats::{format_faults, one_list};

const OPTIONS: Options = Options {
    checked: true,
    use_fuzzy: false,
};

/// Flags of all kinds, a header in ISO-8859-1 and a `msgstr` in several lines.
const FLAGGED: &[u8] =
    b"msgid \"\"\nmsgstr \"\"\n\"Content-Type: text/plain; charset=ISO-8859-1\\n\"\n\n\
    #, python-format\nmsgctxt \"c\"\nmsgid \"\"\n\"%d files\\n\"\nmsgstr \"\"\n\"%s Dateien f\xfcr\\n\"\n\n\
    #, fuzzy, python-format\nmsgid \"%d\"\nmsgstr \"%s\"\n\n\
    #, python-format, no-python-format\nmsgid \"%d x\"\nmsgstr \"%s x\"\n\n\
    #, no-python-format, possible-python-format\nmsgid \"%d y\"\nmsgstr \"%s y\"\n\n\
    #, python-brace-format\n#~ msgid \"{old}\"\n#~ msgstr \"{b}\"\n\n\
    msgid \"{a}\"\nmsgstr \"{b}\"\n\n\
    #, python-brace-format\nmsgid \"{b}\"\nmsgstr \"{a}\"\n";

/// `msgstr[1]` is for 996 to 1000, five numbers.
const FIVE: &[u8] = b"msgid \"\"\nmsgstr \"\"\n\"Plural-Forms: nplurals=2; plural=n>995;\\n\"\n\n\
    #, python-format\nmsgid \"%(n)d file\"\nmsgid_plural \"%(n)d files\"\nmsgstr[0] \"ein\"\nmsgstr[1] \"viele\"\n";

/// `msgstr[1]` is for 997 to 1000, four numbers.
const FOUR: &[u8] = b"msgid \"\"\nmsgstr \"\"\n\"Plural-Forms: nplurals=2; plural=n>996;\\n\"\n\n\
    #, python-format\nmsgid \"%(n)d file\"\nmsgid_plural \"%(n)d files\"\nmsgstr[0] \"ein\"\nmsgstr[1] \"viele\"\n";

/// Texts, and the line of each of their faults.
const TEXTS: &[(&[u8], &[u32])] = &[
    (FLAGGED, &[9, 22, 33]),
    (FIVE, &[8, 8]),
    (FOUR, &[8]),
    (b"", &[]),
];

#[test]
fn lists_faults_of_texts(rt: HostRuntime) {
    for (text, lines) in TEXTS {
        let Ok(faults) = format_faults(rt.alloc(), text, OPTIONS) else {
            assert!(rt; false);
            return;
        };
        assert_eq!(rt; faults.len(), lines.len());
        for (fault, line) in faults.iter().zip(lines.iter()) {
            assert_eq!(rt; fault.line, *line);
        }
    }
    one_list();
}
