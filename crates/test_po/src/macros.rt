//! Tests of `c_macros`: each call once, and what GNU msgfmt 0.21 says of formats, of pairs of formats, and of where it
//! splits them.
use c_macros::{MacroFault, Side, Strictness, agrees, one_outcome, signature, splits};

/// Formats by which GNU msgfmt 0.21 compiles an entry, each with how many arguments its directives take.
const VALID: &[(&str, usize)] = &[
    ("<PRIu64>", 0),
    ("%<PRIu64>", 1),
    ("%<PRId8>%<PRIi16>%<PRIo32>%<PRIx64>%<PRIXMAX>%<PRIuPTR>", 6),
    ("%-5.3<PRIdLEAST16>", 1),
    ("%*.*<PRIuFAST8>", 3),
    ("%2$<PRIu64> %1$s", 2),
    ("%1$<PRIu64> %1$<PRIx64>", 1),
    ("%'<PRId64> %%", 1),
    ("%I<PRIu64>", 1),
    ("%5<PRIdMAX>%jd", 2),
];

/// Texts of which it says that they are "not a valid C format string".
const INVALID: &[&str] = &[
    "%<PRIu63>",
    "%<PRIc64>",
    "%<PRIu64",
    "%l<PRIu64>",
    "%<PRIu>",
    "%<PRIuLEAST>",
    "%<PRIuLEASTMAX>",
    "%<PRIuMAX8>",
    "%<PRIu064>",
    "%<priu64>",
    "%<SCNu64>",
    "%1$<PRIu64> %1$<PRId64>",
    "%<PRIu64> %1$s",
    "%2$<PRIu64>",
    "%<PRIu64> %y",
];

/// An original, a translation, and whether it accepts them: without a plural, and as the first of two forms.
const PAIRS: &[(&str, &str, bool, bool)] = &[
    ("%<PRIu64>", "%<PRIx64>", true, true),
    ("%<PRIu64>", "%I<PRIu64>", true, true),
    ("%<PRIu64>", "%lu", false, false),
    ("%<PRIu64>", "%<PRId64>", false, false),
    ("%<PRIu64>", "%<PRIuLEAST64>", false, false),
    ("%<PRIu32>", "%<PRIu64>", false, false),
    ("%<PRIdMAX>", "%jd", true, true),
    ("%<PRIiMAX>", "%jd", true, true),
    ("%<PRIdMAX>", "%ju", false, false),
    ("%<PRIdPTR>", "%td", false, false),
    ("%<PRIuPTR>", "%p", false, false),
    ("%<PRId8>", "%hhd", false, false),
    ("%s %<PRIu64>", "%2$<PRIo64> %1$s", true, true),
    ("%<PRIu64> %s", "%<PRIu64>", false, true),
    ("%d %<PRIuFAST32>", "%<PRIuFAST32>", false, false),
];

/// A text, its side, and the offsets and lengths of the parts at which it splits the text in an MO file.
const SPLITS: &[(&str, Side, &[(usize, usize)])] = &[
    ("n %<PRIu64>", Side::Original, &[(3, 8)]),
    ("%Id %<PRIu64> n", Side::Translation, &[(1, 1), (5, 8)]),
    ("%<PRId8>%d%<PRIxPTR>", Side::Original, &[(1, 7), (11, 9)]),
    (
        "%1$'II<PRIu64>",
        Side::Translation,
        &[(4, 1), (5, 1), (6, 8)],
    ),
    ("%II05d", Side::Translation, &[(1, 1), (2, 1)]),
    ("%Id %<PRIu64>", Side::Original, &[]),
    ("%<PRIu64> %y", Side::Translation, &[]),
    ("%<PRIu63> %<PRIu64>", Side::Original, &[]),
    ("%<PRIu64> %1$d", Side::Original, &[]),
    ("I <PRIu64>", Side::Translation, &[]),
];

fn count(rt: &HostRuntime, text: &str) -> Option<usize> {
    match signature(rt.alloc(), text) {
        Ok(kinds) => Some(kinds.len()),
        Err(MacroFault::Invalid) => None,
        Err(MacroFault::Memory) => Some(usize::MAX),
    }
}

fn accepted(rt: &HostRuntime, original: &str, form: &str, rule: Strictness) -> Option<bool> {
    let Ok(original) = signature(rt.alloc(), original) else {
        return None
    };
    let Ok(form) = signature(rt.alloc(), form) else {
        return None
    };
    Some(agrees(&original, &form, rule))
}

fn is_split(rt: &HostRuntime, text: &str, side: Side, wanted: &[(usize, usize)]) -> bool {
    let Ok(parts) = splits(rt.alloc(), text, side) else {
        return false
    };
    parts
        .iter()
        .map(|part| (part.start, part.len))
        .eq(wanted.iter().copied())
}

#[test]
fn reads_formats_with_macros(rt: HostRuntime) {
    for (text, taken) in VALID {
        assert_eq!(rt; count(&rt, text), Some(*taken));
    }
    for text in INVALID {
        assert_eq!(rt; count(&rt, text), None);
    }
    one_outcome();
}

#[test]
fn compares_formats_with_macros(rt: HostRuntime) {
    for (original, form, same, prefix) in PAIRS {
        assert_eq!(rt;
            accepted(&rt, original, form, Strictness::Same),
            Some(*same)
        );
        assert_eq!(rt;
            accepted(&rt, original, form, Strictness::Prefix),
            Some(*prefix)
        );
    }
}

#[test]
fn splits_texts_at_macros(rt: HostRuntime) {
    for (text, side, wanted) in SPLITS {
        assert!(rt; is_split(&rt, text, *side, wanted), "{text}");
    }
}
