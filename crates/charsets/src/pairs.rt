//! The characters of two bytes in each charset. Written by tools/make_charsets.
ghost use Rattle.std.specs.Prelude.{◌≡◌};
ghost use Rattle.std.specs.Char.{IsScalar};
ghost use Rattle.charset_grid.specs.Grid.{cell};
ghost use Rattle.charsets.specs.Pairs.{gbk, pairs};

use crate::kinds::Charset;
use big5_rows::big5;
use euc_jp_rows::euc_jp;
use euc_kr_rows::euc_kr;
use gb2312_rows::gb2312;
use gbk_high_rows::gbk_high;
use gbk_low_rows::gbk_low;

/// The code point of two bytes in GBK, 0 if they are no character.
fn gbk(first: u8, second: u8) -> u16
    ensures value { result ≡ cell (gbk first) first second }
    ensures character { IsScalar result }
{
    if first < 0xD1 {
        gbk_low(first, second)
    } else {
        gbk_high(first, second)
    }
}

/// The code point of two bytes, 0 if they are no character.
pub(crate) fn code_of_two(charset: Charset, first: u8, second: u8) -> u16
    ensures value { result ≡ cell (pairs charset first) first second }
    ensures character { IsScalar result }
{
    match charset {
        Charset::EucJp => euc_jp(first, second),
        Charset::EucKr => euc_kr(first, second),
        Charset::Big5 => big5(first, second),
        Charset::Gb2312 => gb2312(first, second),
        Charset::Gbk => gbk(first, second),
        _ => 0,
    }
}
