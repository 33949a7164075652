//! The characters of two bytes in each charset. Written by tools/make_charsets.
ghost use Rattle.std.specs.Prelude.{◌≡◌};
ghost use Rattle.std.specs.Char.{IsScalar};
ghost use Rattle.charset_grid.specs.Grid.{cell};
ghost use Rattle.charset_grid.specs.GridOf.{grid_of};
ghost use Rattle.euc_kr_rows.specs.EucKrGrids.{euc_kr};

use crate::rows::{euc_kr_a1, euc_kr_ea};
use charset_grid::Grid;

/// The characters of two bytes in EUC-KR, among whose rows is that of this first byte if it has one.
fn grid_of_euc_kr(first: u8) -> Grid
    ensures { grid_of result ≡ euc_kr first }
{
    if first < 0xEA {
        Grid {
            first_row: 0xA1,
            first_column: 0xA1,
            rows: euc_kr_a1::rows(),
        }
    } else {
        Grid {
            first_row: 0xEA,
            first_column: 0xA1,
            rows: euc_kr_ea::rows(),
        }
    }
}

/// The code point of two bytes in EUC-KR, 0 if they are no character.
pub fn euc_kr(first: u8, second: u8) -> u16
    ensures value { result ≡ cell (euc_kr first) first second }
    ensures character { IsScalar result }
{
    grid_of_euc_kr(first).cell(first, second)
}
