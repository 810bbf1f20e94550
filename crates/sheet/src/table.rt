// The rows of a diagram.
ghost use Rattle.std.specs.Prelude.{◌≡◌, ◌<◌, length, replicate, Some, None, slice_index_or, slice_set};

use diagram::rows::Row;

pub(crate) const ROWS: usize = 256;

// The table: each row is in use, or free.
#[derive(Clone, Copy)]
pub struct Table {
    rows: [Option<Row>; 256],
    ghost long: { length rows ≡ 256 },
}

impl Table {
    // All rows free.
    pub(crate) fn free() -> Table
        ensures { result.rows ≡ replicate 256 None }
    {
        Table { rows: [None; ROWS] }
    }

    // The row of that number; none where it is free or beyond the last.
    pub(crate) fn get(&self, r: usize) -> Option<Row>
        ensures { result ≡ slice_index_or self.now.rows r None }
    {
        self.rows.get(r).copied().flatten()
    }

    // Writes one row.
    pub(crate) fn put(&mut self, r: usize, row: Row)
        requires { r < 256 }
        ensures { self.new.rows ≡ slice_set self.old.rows r (Some row) }
    {
        self.rows[r] = Some(row);
    }
}
