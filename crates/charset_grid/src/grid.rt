//! The characters of two bytes.
ghost use Rattle.std.specs.Prelude.{◌≡◌};
ghost use Rattle.charset_grid.specs.Grid.{cell};
ghost use Rattle.charset_grid.specs.GridOf.{grid_of};

/// The characters of two bytes: a row for each first byte, and a column for each second one.
#[derive(Clone, Copy)]
pub struct Grid {
    /// The first byte of the first row.
    pub first_row: u8,
    /// The second byte of the first column.
    pub first_column: u8,
    /// The code points of each row; 0, and each cell that isn't there, is no character.
    pub rows: &'static [&'static [u16]],
}

impl Grid {
    /// The code point of two bytes, 0 if they are no character.
    pub fn cell(self, first: u8, second: u8) -> u16
        ensures { result ≡ cell (grid_of self) first second }
    {
        if first < self.first_row || second < self.first_column {
            return 0;
        }
        let row = usize::from(first - self.first_row);
        let column = usize::from(second - self.first_column);
        match self.rows.get(row) {
            Some(cells) => cells.get(column).copied().unwrap_or(0),
            None => 0,
        }
    }
}
