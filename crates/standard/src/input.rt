// What the standard rows are written from.

ghost use Rattle.std.specs.Prelude.{◌≡◌, length};
ghost use Rattle.acc_jerk.specs.Tables.{AccSized, JerkSized};
ghost use Rattle.first_order.specs.Limits.{limits, limits_of};

use acc_jerk::{AccelerationRows, JerkRows};
use buffers::Path;
use first_order::Limits;
use model::{Acceleration, Boundary, Bounds, Jerk};

// The path, the boundary states, the bounds at the ends, and tables 0 to 9 of the lengths that refusal 15 leaves.
// That no row count is above 256 (`Few`) stands in the contracts of those who write and not here: crate finite_standard takes the same input without it, and no type may ask more.
#[derive(Clone, Copy)]
pub struct StandardInput<'a> {
    pub path: Path<'a>,
    pub boundary: Boundary,
    pub start: Bounds,
    pub end: Bounds,
    pub amax: &'a [f64],
    pub acceleration: Acceleration<'a>,
    pub jerk: Jerk<'a>,
    ghost sized: { (length amax.now ≡ length path.grid.now) × AccSized path.grid.now acceleration.rows.now acceleration.a.now acceleration.b.now acceleration.max.now × JerkSized path.grid.now jerk.rows.now jerk.a.now jerk.b.now jerk.c.now jerk.max.now },
}

impl<'a> StandardInput<'a> {
    // What the first-order rows are written from.
    pub fn limits(self) -> Limits<'a>
        ensures path { result.path ≡ self.entry.path }
        ensures limits { limits_of result ≡ limits self.entry.start self.entry.end self.entry.amax.now }
    {
        Limits {
            path: self.path,
            start: self.start,
            end: self.end,
            amax: self.amax,
        }
    }

    // The acceleration rows.
    pub fn acceleration_rows(self) -> AccelerationRows<'a>
        ensures path { result.path ≡ self.entry.path }
        ensures tables { result.tables ≡ self.entry.acceleration }
    {
        AccelerationRows {
            path: self.path,
            tables: self.acceleration,
        }
    }

    // The jerk rows.
    pub fn jerk_rows(self) -> JerkRows<'a>
        ensures path { result.path ≡ self.entry.path }
        ensures tables { result.tables ≡ self.entry.jerk }
    {
        JerkRows {
            path: self.path,
            tables: self.jerk,
        }
    }
}
