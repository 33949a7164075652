//! Tests of `po_text`: each call once, and the limits. More texts, with their expected entries, are cases of
//! crates/test_answers.
use po_text::{EntryBuffer, PoFault, PoKind, one_outcome, open_text, read_po};
use std::test::Fail;

/// An entry with everything, its flags on line 1, and a plain one.
const TEXT: &[u8] = b"#, fuzzy, c-format\nmsgctxt \"k\"\nmsgid \"a\"\nmsgid_plural \"b\"\n\
msgstr[0] \"x\"\nmsgstr[1] \"y\"\n\nmsgid \"c\"\nmsgstr \"d\"\n";

#[test]
fn reads_all(rt: HostRuntime) -> Result<(), Fail> {
    let entries = read_po(rt.alloc(), TEXT)?;
    match entries.as_slice() {
        [first, second] => {
            assert_eq!(rt; first.line, 2);
            assert!(rt; first.fuzzy && first.c_format);
            assert_eq!(rt; second.line, 8);
            assert_eq!(rt; second.id.as_str(), "c");
        }
        _ => assert!(rt; false),
    }
    one_outcome();
    Ok(())
}

#[test]
fn reads_each(rt: HostRuntime) -> Result<(), Fail> {
    let mut reader = open_text(rt.alloc(), TEXT)?;
    let mut buffer = EntryBuffer::new(rt.alloc());
    assert!(rt; reader.next_entry(&mut buffer)?);
    assert_eq!(rt; buffer.line(), 2);
    assert!(rt; buffer.is_fuzzy());
    assert!(rt; buffer.is_c_format());
    assert_eq!(rt; buffer.context(), Some("k"));
    assert_eq!(rt; buffer.id(), "a");
    assert_eq!(rt; buffer.plural(), Some("b"));
    assert_eq!(rt; buffer.form_count(), 2);
    assert_eq!(rt; buffer.form(1), "y");
    let entry = buffer.to_entry(rt.alloc())?;
    assert_eq!(rt; entry.forms.len(), 2);
    assert!(rt; reader.next_entry(&mut buffer)?);
    assert!(rt; !reader.next_entry(&mut buffer)?);
    assert!(rt; !reader.next_entry(&mut buffer)?);
    Ok(())
}

/// A text of 64 MiB is read; one byte more is too much, whether or not that byte is UTF-8.
#[test]
fn bounds_texts(rt: HostRuntime) -> Result<(), Fail> {
    let mut text = vec![in rt.alloc(); b' '; 67_108_864]?;
    assert_eq!(rt; read_po(rt.alloc(), &text)?.len(), 0);
    let too_large = PoFault {
        kind: PoKind::TooLarge,
        line: 0,
    };
    for byte in [b' ', 0xff] {
        text.push(byte)?;
        assert_eq!(rt; read_po(rt.alloc(), &text).err(), Some(too_large));
        text.pop();
    }
    Ok(())
}

/// A fault is returned again by every later call.
#[test]
fn keeps_faults(rt: HostRuntime) -> Result<(), Fail> {
    let wanted = PoFault {
        kind: PoKind::BadOrder,
        line: 3,
    };
    let text = b"msgid \"a\"\nmsgstr \"b\"\nmsgstr \"c\"\nmsgid \"d\"\nmsgstr \"e\"\n";
    let mut reader = open_text(rt.alloc(), text)?;
    let mut buffer = EntryBuffer::new(rt.alloc());
    assert_eq!(rt; reader.next_entry(&mut buffer), Err(wanted));
    assert_eq!(rt; reader.next_entry(&mut buffer), Err(wanted));
    assert_eq!(rt; reader.next_entry(&mut buffer), Err(wanted));
    Ok(())
}

/// How a fault is printed.
#[test]
fn prints_faults(rt: HostRuntime) -> Result<(), Fail> {
    let fault = PoFault {
        kind: PoKind::BadIndex,
        line: 12,
    };
    let printed = format!(in rt.alloc(); "{fault}")?;
    assert_eq!(rt; printed.as_str(), "line 12: wrong plural index");
    Ok(())
}
