//! The characters of two bytes in each charset. Written by tools/make_charsets.
ghost use Rattle.std.specs.Prelude.{◌≡◌};
ghost use Rattle.std.specs.Char.{IsScalar};
ghost use Rattle.charset_grid.specs.Grid.{cell};
ghost use Rattle.charset_grid.specs.GridOf.{grid_of};
ghost use Rattle.gbk_low_rows.specs.GbkLowGrids.{gbk_low};

use crate::rows::{gbk_low_81, gbk_low_a8};
use charset_grid::Grid;

/// The characters of two bytes in GBK below D100, among whose rows is that of this first byte if it has one.
fn grid_of_gbk_low(first: u8) -> Grid
    ensures { grid_of result ≡ gbk_low first }
{
    if first < 0xA8 {
        Grid {
            first_row: 0x81,
            first_column: 0x40,
            rows: gbk_low_81::rows(),
        }
    } else {
        Grid {
            first_row: 0xA8,
            first_column: 0x40,
            rows: gbk_low_a8::rows(),
        }
    }
}

/// The code point of two bytes in GBK below D100, 0 if they are no character.
pub fn gbk_low(first: u8, second: u8) -> u16
    ensures value { result ≡ cell (gbk_low first) first second }
    ensures character { IsScalar result }
{
    grid_of_gbk_low(first).cell(first, second)
}
