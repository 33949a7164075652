//! The charsets. Written by tools/make_charsets.
ghost use Rattle.std.specs.Prelude.{◌≡◌};
ghost use Rattle.charsets.specs.Every.{all};

/// A charset whose bytes below 128 are those of ASCII.
#[derive(Clone, Copy, Debug, PartialEq, Eq)]
pub enum Charset {
    /// ASCII.
    Ascii,
    /// ISO-8859-1.
    Iso8859_1,
    /// ISO-8859-2.
    Iso8859_2,
    /// ISO-8859-3.
    Iso8859_3,
    /// ISO-8859-4.
    Iso8859_4,
    /// ISO-8859-5.
    Iso8859_5,
    /// ISO-8859-6.
    Iso8859_6,
    /// ISO-8859-7.
    Iso8859_7,
    /// ISO-8859-8.
    Iso8859_8,
    /// ISO-8859-9.
    Iso8859_9,
    /// ISO-8859-13.
    Iso8859_13,
    /// ISO-8859-14.
    Iso8859_14,
    /// ISO-8859-15.
    Iso8859_15,
    /// ISO-8859-16.
    Iso8859_16,
    /// KOI8-R.
    Koi8R,
    /// KOI8-U.
    Koi8U,
    /// KOI8-T.
    Koi8T,
    /// CP850.
    Cp850,
    /// CP866.
    Cp866,
    /// CP874.
    Cp874,
    /// CP1250.
    Cp1250,
    /// CP1251.
    Cp1251,
    /// CP1252.
    Cp1252,
    /// CP1253.
    Cp1253,
    /// CP1254.
    Cp1254,
    /// CP1256.
    Cp1256,
    /// CP1257.
    Cp1257,
    /// TIS-620.
    Tis620,
    /// GEORGIAN-PS.
    GeorgianPs,
    /// EUC-JP.
    EucJp,
    /// EUC-KR.
    EucKr,
    /// BIG5.
    Big5,
    /// GB2312.
    Gb2312,
    /// GBK.
    Gbk,
}

/// Every charset.
const ALL: &[Charset] = &[
    Charset::Ascii,
    Charset::Iso8859_1,
    Charset::Iso8859_2,
    Charset::Iso8859_3,
    Charset::Iso8859_4,
    Charset::Iso8859_5,
    Charset::Iso8859_6,
    Charset::Iso8859_7,
    Charset::Iso8859_8,
    Charset::Iso8859_9,
    Charset::Iso8859_13,
    Charset::Iso8859_14,
    Charset::Iso8859_15,
    Charset::Iso8859_16,
    Charset::Koi8R,
    Charset::Koi8U,
    Charset::Koi8T,
    Charset::Cp850,
    Charset::Cp866,
    Charset::Cp874,
    Charset::Cp1250,
    Charset::Cp1251,
    Charset::Cp1252,
    Charset::Cp1253,
    Charset::Cp1254,
    Charset::Cp1256,
    Charset::Cp1257,
    Charset::Tis620,
    Charset::GeorgianPs,
    Charset::EucJp,
    Charset::EucKr,
    Charset::Big5,
    Charset::Gb2312,
    Charset::Gbk,
];

/// Every charset.
pub(crate) fn all() -> &'static [Charset]
    ensures { result.now ≡ all }
{
    ALL
}
