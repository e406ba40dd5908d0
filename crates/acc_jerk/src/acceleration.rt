// The tables of the acceleration rows, on their path.

ghost use Rattle.acc_jerk.specs.Tables.{AccSized};

use buffers::Path;
use model::Acceleration;

// A path with tables 0 and 3 to 5, in the lengths that the checks leave. `Few` is no fact of it: who tests the numbers takes it without.
#[derive(Clone, Copy)]
pub struct AccelerationRows<'a> {
    pub path: Path<'a>,
    pub tables: Acceleration<'a>,
    ghost sized: { AccSized path.grid.now tables.rows.now tables.a.now tables.b.now tables.max.now },
}
