// The jerk rows of one station.

ghost use Rattle.std.specs.Prelude.{◌≡◌, ◌+◌, ◌<◌, ◌≤◌, length, get_or, take};
ghost use Rattle.model.specs.Lists.{total, part};

use crate::JerkRows;

// Station k, and the place in the tables from which its rows stand.
#[derive(Clone, Copy)]
pub struct JerkStation<'a> {
    pub rows: JerkRows<'a>,
    pub k: usize,
    pub from: usize,
    ghost placed: { (from ≡ total (take k rows.tables.rows.now)) × (k < length rows.path.grid.now) × (from + get_or rows.tables.rows.now k 0 ≤ length rows.tables.a.now) },
}

impl<'a> JerkStation<'a> {
    // How many rows it has.
    pub fn count(self) -> usize
        ensures { result ≡ get_or self.entry.rows.tables.rows.now self.entry.k 0 }
    {
        self.rows.tables.rows[self.k] as usize
    }

    // Its part of one of the tables.
    pub fn part(self, table: &'a [f64]) -> &'a [f64]
        requires { length table.now ≡ length self.rows.tables.a.now }
        ensures { result.now ≡ part table.now self.entry.from (get_or self.entry.rows.tables.rows.now self.entry.k 0) }
    {
        &table[self.from..self.from + self.count()]
    }
}
