//! The characters of two bytes in each charset. Written by tools/make_charsets.
ghost use Rattle.std.specs.Prelude.{◌≡◌};
ghost use Rattle.std.specs.Char.{IsScalar};
ghost use Rattle.charset_grid.specs.Grid.{cell};
ghost use Rattle.charset_grid.specs.GridOf.{grid_of};
ghost use Rattle.gb2312_rows.specs.Gb2312Grids.{gb2312};

use crate::rows::{gb2312_a1, gb2312_ec};
use charset_grid::Grid;

/// The characters of two bytes in GB2312, among whose rows is that of this first byte if it has one.
fn grid_of_gb2312(first: u8) -> Grid
    ensures { grid_of result ≡ gb2312 first }
{
    if first < 0xEC {
        Grid {
            first_row: 0xA1,
            first_column: 0xA1,
            rows: gb2312_a1::rows(),
        }
    } else {
        Grid {
            first_row: 0xEC,
            first_column: 0xA1,
            rows: gb2312_ec::rows(),
        }
    }
}

/// The code point of two bytes in GB2312, 0 if they are no character.
pub fn gb2312(first: u8, second: u8) -> u16
    ensures value { result ≡ cell (gb2312 first) first second }
    ensures character { IsScalar result }
{
    grid_of_gb2312(first).cell(first, second)
}
