//! The characters of two bytes in each charset. Written by tools/make_charsets.
ghost use Rattle.std.specs.Prelude.{◌≡◌};
ghost use Rattle.std.specs.Char.{IsScalar};
ghost use Rattle.charset_grid.specs.Grid.{cell};
ghost use Rattle.charset_grid.specs.GridOf.{grid_of};
ghost use Rattle.euc_jp_rows.specs.EucJpGrids.{euc_jp, euc_jp_8f};

use crate::rows::{euc_jp_8e, euc_jp_8f_a2, euc_jp_e9};
use charset_grid::Grid;

/// The characters of two bytes in EUC-JP, among whose rows is that of this first byte if it has one.
fn grid_of_euc_jp(first: u8) -> Grid
    ensures { grid_of result ≡ euc_jp first }
{
    if first < 0xE9 {
        Grid {
            first_row: 0x8E,
            first_column: 0xA1,
            rows: euc_jp_8e::rows(),
        }
    } else {
        Grid {
            first_row: 0xE9,
            first_column: 0xA1,
            rows: euc_jp_e9::rows(),
        }
    }
}

/// The code point of two bytes in EUC-JP, 0 if they are no character.
pub fn euc_jp(first: u8, second: u8) -> u16
    ensures value { result ≡ cell (euc_jp first) first second }
    ensures character { IsScalar result }
{
    grid_of_euc_jp(first).cell(first, second)
}

/// The characters of two bytes in EUC-JP behind the byte 8F.
fn grid_of_euc_jp_8f() -> Grid
    ensures { grid_of result ≡ euc_jp_8f }
{
    Grid {
        first_row: 0xA2,
        first_column: 0xA1,
        rows: euc_jp_8f_a2::rows(),
    }
}

/// The code point of two bytes in EUC-JP behind the byte 8F, 0 if they are no character.
pub fn euc_jp_8f(first: u8, second: u8) -> u16
    ensures value { result ≡ cell euc_jp_8f first second }
    ensures character { IsScalar result }
{
    grid_of_euc_jp_8f().cell(first, second)
}
