//! The names of each charset. Written by tools/make_charsets.
ghost use Rattle.std.specs.Prelude.{◌≡◌, map};
ghost use Rattle.charsets.specs.CharsetNames.{names};

use crate::kinds::Charset;

const ASCII: &[&[u8]] = &[
    b"ASCII",
    b"ANSI_X3.4-1968",
    b"ANSI_X3.4-1986",
    b"CP367",
    b"CSASCII",
    b"IBM367",
    b"ISO-IR-6",
    b"ISO646-US",
    b"ISO_646.IRV:1991",
    b"OSF00010020",
    b"US",
    b"US-ASCII",
];

const ISO8859_1: &[&[u8]] = &[
    b"ISO-8859-1",
    b"8859_1",
    b"CP819",
    b"CSISOLATIN1",
    b"IBM819",
    b"ISO-IR-100",
    b"ISO8859-1",
    b"ISO88591",
    b"ISO_8859-1",
    b"ISO_8859-1:1987",
    b"L1",
    b"LATIN1",
    b"OSF00010001",
];

const ISO8859_2: &[&[u8]] = &[
    b"ISO-8859-2",
    b"8859_2",
    b"CP912",
    b"CSISOLATIN2",
    b"IBM912",
    b"ISO-IR-101",
    b"ISO8859-2",
    b"ISO88592",
    b"ISO_8859-2",
    b"ISO_8859-2:1987",
    b"L2",
    b"LATIN2",
    b"OSF00010002",
];

const ISO8859_3: &[&[u8]] = &[
    b"ISO-8859-3",
    b"8859_3",
    b"CSISOLATIN3",
    b"ISO-IR-109",
    b"ISO8859-3",
    b"ISO88593",
    b"ISO_8859-3",
    b"ISO_8859-3:1988",
    b"L3",
    b"LATIN3",
    b"OSF00010003",
];

const ISO8859_4: &[&[u8]] = &[
    b"ISO-8859-4",
    b"8859_4",
    b"CSISOLATIN4",
    b"ISO-IR-110",
    b"ISO8859-4",
    b"ISO88594",
    b"ISO_8859-4",
    b"ISO_8859-4:1988",
    b"L4",
    b"LATIN4",
    b"OSF00010004",
];

const ISO8859_5: &[&[u8]] = &[
    b"ISO-8859-5",
    b"8859_5",
    b"CP915",
    b"CSISOLATINCYRILLIC",
    b"CYRILLIC",
    b"IBM915",
    b"ISO-IR-144",
    b"ISO8859-5",
    b"ISO88595",
    b"ISO_8859-5",
    b"ISO_8859-5:1988",
    b"OSF00010005",
];

const ISO8859_6: &[&[u8]] = &[
    b"ISO-8859-6",
    b"8859_6",
    b"ARABIC",
    b"ASMO-708",
    b"CP1089",
    b"CSISOLATINARABIC",
    b"ECMA-114",
    b"IBM1089",
    b"ISO-IR-127",
    b"ISO8859-6",
    b"ISO88596",
    b"ISO_8859-6",
    b"ISO_8859-6:1987",
    b"OSF00010006",
];

const ISO8859_7: &[&[u8]] = &[
    b"ISO-8859-7",
    b"8859_7",
    b"CP813",
    b"CSISOLATINGREEK",
    b"ECMA-118",
    b"ELOT_928",
    b"GREEK",
    b"GREEK8",
    b"IBM813",
    b"ISO-IR-126",
    b"ISO8859-7",
    b"ISO88597",
    b"ISO_8859-7",
    b"ISO_8859-7:1987",
    b"ISO_8859-7:2003",
    b"OSF00010007",
];

const ISO8859_8: &[&[u8]] = &[
    b"ISO-8859-8",
    b"8859_8",
    b"CP916",
    b"CSISOLATINHEBREW",
    b"HEBREW",
    b"IBM916",
    b"ISO-IR-138",
    b"ISO8859-8",
    b"ISO88598",
    b"ISO_8859-8",
    b"ISO_8859-8:1988",
    b"OSF00010008",
];

const ISO8859_9: &[&[u8]] = &[
    b"ISO-8859-9",
    b"8859_9",
    b"CP920",
    b"CSISOLATIN5",
    b"ECMA-128",
    b"IBM920",
    b"ISO-IR-148",
    b"ISO8859-9",
    b"ISO88599",
    b"ISO_8859-9",
    b"ISO_8859-9:1989",
    b"L5",
    b"LATIN5",
    b"OSF00010009",
    b"TS-5881",
];

const ISO8859_13: &[&[u8]] = &[
    b"ISO-8859-13",
    b"BALTIC",
    b"ISO-IR-179",
    b"ISO8859-13",
    b"ISO885913",
    b"L7",
    b"LATIN7",
];

const ISO8859_14: &[&[u8]] = &[
    b"ISO-8859-14",
    b"ISO-CELTIC",
    b"ISO-IR-199",
    b"ISO8859-14",
    b"ISO885914",
    b"ISO_8859-14",
    b"ISO_8859-14:1998",
    b"L8",
    b"LATIN8",
];

const ISO8859_15: &[&[u8]] = &[
    b"ISO-8859-15",
    b"ISO-IR-203",
    b"ISO8859-15",
    b"ISO885915",
    b"ISO_8859-15",
    b"ISO_8859-15:1998",
    b"LATIN-9",
    b"LATIN9",
];

const ISO8859_16: &[&[u8]] = &[
    b"ISO-8859-16",
    b"ISO-IR-226",
    b"ISO8859-16",
    b"ISO885916",
    b"ISO_8859-16",
    b"ISO_8859-16:2001",
    b"L10",
    b"LATIN10",
];

const KOI8R: &[&[u8]] = &[b"KOI8-R", b"CSKOI8R", b"KOI8R"];

const KOI8U: &[&[u8]] = &[b"KOI8-U", b"KOI8U"];

const KOI8T: &[&[u8]] = &[b"KOI8-T"];

const CP850: &[&[u8]] = &[
    b"CP850",
    b"850",
    b"CSPC850MULTILINGUAL",
    b"IBM850",
    b"OSF10020352",
];

const CP866: &[&[u8]] = &[b"CP866", b"866", b"CSIBM866", b"IBM866"];

const CP874: &[&[u8]] = &[b"CP874", b"874", b"IBM874", b"WINDOWS-874"];

const CP1250: &[&[u8]] = &[b"CP1250", b"MS-EE", b"WINDOWS-1250"];

const CP1251: &[&[u8]] = &[b"CP1251", b"MS-CYRL", b"WINDOWS-1251"];

const CP1252: &[&[u8]] = &[b"CP1252", b"MS-ANSI", b"WINDOWS-1252"];

const CP1253: &[&[u8]] = &[b"CP1253", b"MS-GREEK", b"WINDOWS-1253"];

const CP1254: &[&[u8]] = &[b"CP1254", b"MS-TURK", b"WINDOWS-1254"];

const CP1256: &[&[u8]] = &[b"CP1256", b"MS-ARAB", b"WINDOWS-1256"];

const CP1257: &[&[u8]] = &[b"CP1257", b"WINBALTRIM", b"WINDOWS-1257"];

const TIS620: &[&[u8]] = &[
    b"TIS-620",
    b"ISO-IR-166",
    b"TIS620",
    b"TIS620-0",
    b"TIS620.2529-1",
    b"TIS620.2533-0",
];

const GEORGIANPS: &[&[u8]] = &[b"GEORGIAN-PS"];

const EUCJP: &[&[u8]] = &[
    b"EUC-JP",
    b"CSEUCPKDFMTJAPANESE",
    b"EUCJP",
    b"OSF00030010",
    b"UJIS",
];

const EUCKR: &[&[u8]] = &[b"EUC-KR", b"CSEUCKR", b"EUCKR", b"OSF0004000A"];

const BIG5: &[&[u8]] = &[
    b"BIG5",
    b"BIG-5",
    b"BIG-FIVE",
    b"BIGFIVE",
    b"CN-BIG5",
    b"CP950",
];

const GB2312: &[&[u8]] = &[b"GB2312", b"CN-GB", b"CSGB2312", b"EUC-CN", b"EUCCN"];

const GBK: &[&[u8]] = &[b"GBK", b"CP936", b"GB13000", b"MS936", b"WINDOWS-936"];

/// The names of a charset, GNU gettext's first.
#[tactic(auto, unfolding(crate::specs::CharsetNames::names))]
pub(crate) fn names(charset: Charset) -> &'static [&'static [u8]]
    ensures { map (λ name. name.now) result.now ≡ names charset }
{
    match charset {
        Charset::Ascii => ASCII,
        Charset::Iso8859_1 => ISO8859_1,
        Charset::Iso8859_2 => ISO8859_2,
        Charset::Iso8859_3 => ISO8859_3,
        Charset::Iso8859_4 => ISO8859_4,
        Charset::Iso8859_5 => ISO8859_5,
        Charset::Iso8859_6 => ISO8859_6,
        Charset::Iso8859_7 => ISO8859_7,
        Charset::Iso8859_8 => ISO8859_8,
        Charset::Iso8859_9 => ISO8859_9,
        Charset::Iso8859_13 => ISO8859_13,
        Charset::Iso8859_14 => ISO8859_14,
        Charset::Iso8859_15 => ISO8859_15,
        Charset::Iso8859_16 => ISO8859_16,
        Charset::Koi8R => KOI8R,
        Charset::Koi8U => KOI8U,
        Charset::Koi8T => KOI8T,
        Charset::Cp850 => CP850,
        Charset::Cp866 => CP866,
        Charset::Cp874 => CP874,
        Charset::Cp1250 => CP1250,
        Charset::Cp1251 => CP1251,
        Charset::Cp1252 => CP1252,
        Charset::Cp1253 => CP1253,
        Charset::Cp1254 => CP1254,
        Charset::Cp1256 => CP1256,
        Charset::Cp1257 => CP1257,
        Charset::Tis620 => TIS620,
        Charset::GeorgianPs => GEORGIANPS,
        Charset::EucJp => EUCJP,
        Charset::EucKr => EUCKR,
        Charset::Big5 => BIG5,
        Charset::Gb2312 => GB2312,
        Charset::Gbk => GBK,
    }
}
