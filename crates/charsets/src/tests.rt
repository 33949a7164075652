//! Texts whose UTF-8 iconv(1) of GNU libc wrote, and names that GNU msgfmt takes.
use crate::kinds::Charset;
use crate::naming::charset_of;
use crate::reading::{DecodeFault, decode};
use std::alloc::Global;
use std::test::Fail;

#[test]
fn decodes(rt: HostRuntime) -> Result<(), Fail> {
    let alloc = rt.alloc();
    let czech = decode(alloc, Charset::Cp1250, b"P\xf8\xedli\x9a \x9elu\x9d")?;
    assert_eq!(rt; czech.as_str(), "P\u{159}\u{ed}li\u{161} \u{17e}lu\u{165}");
    let russian = decode(alloc, Charset::Koi8R, b"\xf7\xf0\xe5\xed")?;
    assert_eq!(rt; russian.as_str(), "\u{412}\u{41f}\u{415}\u{41c}");
    Ok(())
}

/// A charset, bytes, and their text.
struct Row {
    charset: Charset,
    bytes: &'static [u8],
    text: &'static str,
}

const ROWS: &[Row] = &[
    Row {
        charset: Charset::EucJp,
        bytes: b"\xc6\xfc\xcb\xdc \x8e\xb6\x8e\xc5 \x8f\xb0\xa1",
        text: "\u{65e5}\u{672c} \u{ff76}\u{ff85} \u{4e02}",
    },
    Row {
        charset: Charset::EucKr,
        bytes: b"\xc7\xd1\xb1\xb9\xbe\xee",
        text: "\u{d55c}\u{ad6d}\u{c5b4}",
    },
    Row {
        charset: Charset::Big5,
        bytes: b"\xb3\\\xa5\\\xbb\\n",
        text: "\u{8a31}\u{529f}\u{84cb}n",
    },
    Row {
        charset: Charset::Gb2312,
        bytes: b"\xd6\xd0\xce\xc4",
        text: "\u{4e2d}\u{6587}",
    },
    Row {
        charset: Charset::Gbk,
        bytes: b"\xd5\\\x80",
        text: "\u{8aa0}\u{20ac}",
    },
];

/// Whether a row's bytes have its text.
fn is_decoded(alloc: Global, row: &Row) -> bool {
    match decode(alloc, row.charset, row.bytes) {
        Ok(text) => text.as_str() == row.text,
        Err(_) => false,
    }
}

#[test]
fn decodes_several_bytes(rt: HostRuntime) -> Result<(), Fail> {
    for row in ROWS {
        assert!(rt; is_decoded(rt.alloc(), row));
    }
    Ok(())
}

/// The index at which bytes have no character, or their number if each has one.
fn first_with_none(alloc: Global, charset: Charset, bytes: &[u8]) -> usize {
    match decode(alloc, charset, bytes) {
        Err(DecodeFault::NoCharacter(at)) => at,
        _ => bytes.len(),
    }
}

#[test]
fn refuses(rt: HostRuntime) -> Result<(), Fail> {
    let alloc = rt.alloc();
    assert!(rt; first_with_none(alloc, Charset::Cp1252, b"\x80\x81") == 1);
    assert!(rt; first_with_none(alloc, Charset::EucJp, b"a\x8f\xb0") == 1);
    assert!(rt; first_with_none(alloc, Charset::Big5, b"\xb3\\\xa5\"") == 2);
    Ok(())
}

#[test]
fn finds_names(rt: HostRuntime) -> Result<(), Fail> {
    assert_eq!(rt; charset_of(b"iso-8859-15"), Some(Charset::Iso8859_15));
    assert_eq!(rt; charset_of(b"latin1"), Some(Charset::Iso8859_1));
    assert_eq!(rt; charset_of(b"windows-1251"), Some(Charset::Cp1251));
    assert_eq!(rt; charset_of(b"ANSI_X3.4-1968"), Some(Charset::Ascii));
    assert_eq!(rt; charset_of(b"Koi8-u"), Some(Charset::Koi8U));
    assert_eq!(rt; charset_of(b"big-five"), Some(Charset::Big5));
    assert_eq!(rt; charset_of(b"EUC-CN"), Some(Charset::Gb2312));
    assert_eq!(rt; charset_of(b"utf-8"), None);
    assert_eq!(rt; charset_of(b"CP1255"), None);
    Ok(())
}
