//! The characters of two bytes in each charset. Written by tools/make_charsets.
ghost use Rattle.std.specs.Prelude.{◌≡◌};
ghost use Rattle.std.specs.Char.{IsScalar};
ghost use Rattle.charset_grid.specs.Grid.{cell};
ghost use Rattle.charset_grid.specs.GridOf.{grid_of};
ghost use Rattle.big5_rows.specs.Big5Grids.{big5};

use crate::rows::{big5_a1, big5_c8, big5_ee};
use charset_grid::Grid;

/// The characters of two bytes in BIG5, among whose rows is that of this first byte if it has one.
fn grid_of_big5(first: u8) -> Grid
    ensures { grid_of result ≡ big5 first }
{
    if first < 0xC8 {
        Grid {
            first_row: 0xA1,
            first_column: 0x40,
            rows: big5_a1::rows(),
        }
    } else if first < 0xEE {
        Grid {
            first_row: 0xC8,
            first_column: 0x40,
            rows: big5_c8::rows(),
        }
    } else {
        Grid {
            first_row: 0xEE,
            first_column: 0x40,
            rows: big5_ee::rows(),
        }
    }
}

/// The code point of two bytes in BIG5, 0 if they are no character.
pub fn big5(first: u8, second: u8) -> u16
    ensures value { result ≡ cell (big5 first) first second }
    ensures character { IsScalar result }
{
    grid_of_big5(first).cell(first, second)
}
