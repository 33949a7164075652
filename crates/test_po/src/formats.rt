//! Tests of `c_signature`: each call once, and how lists compare. The formats of the C standard's table are cases of
//! crates/test_answers, and those of other languages rows of tests/library/formats.
use c_signature::ArgKind::{Signed, Text, Unsigned};
use c_signature::Size::Plain;
use c_signature::{ArgKind, FormatFault, Strictness, agrees, one_outcome, signature};
use std::test::Fail;

const INT: ArgKind = Signed(Plain);

#[test]
fn lists_arguments(rt: HostRuntime) {
    match signature(rt.alloc(), "%d of %s") {
        Ok(kinds) => assert_eq!(rt; kinds.as_slice(), [INT, Text].as_slice()),
        Err(_) => assert!(rt; false),
    }
    assert_eq!(rt;
        signature(rt.alloc(), "100%").err(),
        Some(FormatFault::Invalid)
    );
    one_outcome();
}

#[test]
fn compares_lists(rt: HostRuntime) {
    let both = [INT, Text];
    assert!(rt; agrees(&both, &both, Strictness::Same));
    assert!(rt; agrees(&both, &both, Strictness::Prefix));
    assert!(rt; agrees(&both, &[INT], Strictness::Prefix));
    assert!(rt; agrees(&both, &[], Strictness::Prefix));
    assert!(rt; !agrees(&both, &[INT], Strictness::Same));
    assert!(rt; !agrees(&[INT], &both, Strictness::Prefix));
    assert!(rt; !agrees(&both, &[Text], Strictness::Prefix));
    assert!(rt; !agrees(&both, &[Unsigned(Plain), Text], Strictness::Same));
}

#[test]
fn prints_faults(rt: HostRuntime) -> Result<(), Fail> {
    let printed = format!(in rt.alloc();
        "{}, {}, {}; {}, {}",
        FormatFault::Invalid,
        FormatFault::SystemDependent,
        FormatFault::Memory,
        format_arguments::FormatFault::Invalid,
        format_arguments::FormatFault::Memory
    )?;
    assert_eq!(rt;
        printed.as_str(),
        "invalid format, system-dependent format, out of memory; invalid format, out of memory"
    );
    Ok(())
}
