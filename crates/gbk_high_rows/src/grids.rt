//! The characters of two bytes in each charset. Written by tools/make_charsets.
ghost use Rattle.std.specs.Prelude.{◌≡◌};
ghost use Rattle.std.specs.Char.{IsScalar};
ghost use Rattle.charset_grid.specs.Grid.{cell};
ghost use Rattle.charset_grid.specs.GridOf.{grid_of};
ghost use Rattle.gbk_high_rows.specs.GbkHighGrids.{gbk_high};

use crate::rows::{gbk_high_d1, gbk_high_f7};
use charset_grid::Grid;

/// The characters of two bytes in GBK from D100 on, among whose rows is that of this first byte if it has one.
fn grid_of_gbk_high(first: u8) -> Grid
    ensures { grid_of result ≡ gbk_high first }
{
    if first < 0xF7 {
        Grid {
            first_row: 0xD1,
            first_column: 0x40,
            rows: gbk_high_d1::rows(),
        }
    } else {
        Grid {
            first_row: 0xF7,
            first_column: 0x40,
            rows: gbk_high_f7::rows(),
        }
    }
}

/// The code point of two bytes in GBK from D100 on, 0 if they are no character.
pub fn gbk_high(first: u8, second: u8) -> u16
    ensures value { result ≡ cell (gbk_high first) first second }
    ensures character { IsScalar result }
{
    grid_of_gbk_high(first).cell(first, second)
}
