//! Tests of `format_checks`: each call once, and how many faults GNU msgfmt 0.21 counts in entries, with the first of
//! them, which is the one that it prints.
use format_checks::{Difference, Entry, Fault, Flags, Language, add_faults, one_list};

/// Flags in their order, and whether GNU msgfmt 0.21 then checks `python-format` and `python-brace-format`.
const FLAGS: [(&[&str], bool, bool); 12] = [
    (&[], false, false),
    (&["fuzzy", "c-format"], false, false),
    (&["python-format"], true, false),
    (&["python-brace-format"], false, true),
    (&["possible-python-format"], true, false),
    (&["possible-python-brace-format"], false, true),
    (&["python-brace-format", "python-format"], true, true),
    (&["python-format", "no-python-format"], false, false),
    (&["no-python-format", "python-format"], true, false),
    (
        &["possible-python-format", "impossible-python-format"],
        false,
        false,
    ),
    (&["python-brace-format", "no-python-format"], false, true),
    (
        &[
            "Python-format",
            "python-format-x",
            "no-possible-python-format",
        ],
        false,
        false,
    ),
];

/// An entry, and its faults.
struct Case {
    flags: &'static [&'static str],
    id: &'static [u8],
    plural: Option<&'static [u8]>,
    forms: &'static [&'static [u8]],
    count: usize,
    first: Option<(Language, usize, Difference)>,
}

const BOTH: &[&str] = &["python-format", "python-brace-format"];

const PYTHON: &[&str] = &["python-format"];

const BRACE: &[&str] = &["python-brace-format"];

const PHP: &[&str] = &["php-format"];

const SCHEME: &[&str] = &["scheme-format"];

const PHP_AND_BRACE: &[&str] = &["php-format", "python-brace-format"];

/// The rule of these is `n==1 ? 0 : n==2 ? 1 : 2`. The formats of the last two are left to GNU msgfmt.
const CASES: [Case; 14] = [
    Case {
        flags: BOTH,
        id: b"one",
        plural: Some(b"%d {a}"),
        forms: &[b"%s {b", b"%d {b}", b"%d {b}"],
        count: 3,
        first: Some((Language::Python, 0, Difference::Arguments)),
    },
    Case {
        flags: BRACE,
        id: b"one",
        plural: Some(b"%d {a}"),
        forms: &[b"%s {b", b"%d {b}", b"%d {b}"],
        count: 2,
        first: Some((Language::PythonBrace, 0, Difference::Invalid)),
    },
    Case {
        flags: PYTHON,
        id: b"one",
        plural: Some(b"%(a)s %(b)s"),
        forms: &[b"%(c)s", b"%", b"%(a)s"],
        count: 3,
        first: Some((Language::Python, 0, Difference::Arguments)),
    },
    Case {
        flags: PYTHON,
        id: b"one",
        plural: Some(b"%(a)s %(b)s"),
        forms: &[b"%(a)s", b"%(a)s", b"%(a)s"],
        count: 1,
        first: Some((Language::Python, 2, Difference::Arguments)),
    },
    Case {
        flags: BOTH,
        id: b"%d {a}",
        plural: None,
        forms: &[b"%s {b}"],
        count: 2,
        first: Some((Language::Python, 0, Difference::Arguments)),
    },
    Case {
        flags: BOTH,
        id: b"%d {a}",
        plural: None,
        forms: &[b"%d {b}"],
        count: 1,
        first: Some((Language::PythonBrace, 0, Difference::Arguments)),
    },
    Case {
        flags: BOTH,
        id: b"%d {a}",
        plural: None,
        forms: &[b"{a} %d"],
        count: 0,
        first: None,
    },
    Case {
        flags: PYTHON,
        id: b"%d %",
        plural: None,
        forms: &[b"%s"],
        count: 0,
        first: None,
    },
    Case {
        flags: &[],
        id: b"%d",
        plural: None,
        forms: &[b"%s"],
        count: 0,
        first: None,
    },
    Case {
        flags: PHP_AND_BRACE,
        id: b"one",
        plural: Some(b"%s %d {a}"),
        forms: &[b"%d {a}", b"%s %d", b"%s {b}"],
        count: 3,
        first: Some((Language::PythonBrace, 2, Difference::Arguments)),
    },
    Case {
        flags: PHP,
        id: b"one",
        plural: Some(b"%s %d"),
        forms: &[b"%2$d", b"%E", b"%2$d"],
        count: 2,
        first: Some((Language::Php, 1, Difference::Invalid)),
    },
    Case {
        flags: PHP,
        id: b"%s",
        plural: None,
        forms: &[b"%2$s"],
        count: 1,
        first: Some((Language::Php, 0, Difference::Arguments)),
    },
    Case {
        flags: SCHEME,
        id: b"~a",
        plural: None,
        forms: &[b"~{~a~}"],
        count: 1,
        first: Some((Language::Scheme, 0, Difference::Unread)),
    },
    Case {
        flags: SCHEME,
        id: b"one",
        plural: Some(b"~{~a~}"),
        forms: &[b"~a", b"~z", b"~a"],
        count: 3,
        first: Some((Language::Scheme, 0, Difference::Unread)),
    },
];

fn flags_of(words: &[&str]) -> Flags {
    let mut flags = Flags::none();
    for word in words {
        flags = flags.with_word(word.as_bytes());
    }
    flags
}

fn faults_of(rt: &HostRuntime, case: &Case) -> Option<Vec<Fault>> {
    let mut faults = Vec::new(rt.alloc());
    let entry = Entry {
        line: 7,
        flags: flags_of(case.flags),
        id: case.id,
        plural: case.plural,
        forms: case.forms,
    };
    match add_faults(&mut faults, rt.alloc(), entry, &[false, false, true]) {
        Ok(()) => Some(faults),
        Err(_) => None,
    }
}

fn as_fault(first: (Language, usize, Difference)) -> Fault {
    let (language, form, difference) = first;
    Fault {
        line: 7,
        language,
        form,
        difference,
    }
}

#[test]
fn reads_flags(rt: HostRuntime) {
    for (words, python, python_brace) in FLAGS {
        let flags = flags_of(words);
        assert_eq!(rt; flags.has(Language::Python), python);
        assert_eq!(rt; flags.has(Language::PythonBrace), python_brace);
    }
}

#[test]
fn lists_faults(rt: HostRuntime) {
    for case in &CASES {
        let Some(faults) = faults_of(&rt, case) else {
            assert!(rt; false);
            return;
        };
        assert_eq!(rt; faults.len(), case.count);
        assert_eq!(rt; faults.first().copied(), case.first.map(as_fault));
    }
    one_list();
}
