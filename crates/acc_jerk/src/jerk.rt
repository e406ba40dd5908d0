// The tables of the jerk rows, on their path.

ghost use Rattle.acc_jerk.specs.Tables.{JerkSized};

use buffers::Path;
use model::Jerk;

// A path with tables 1 and 6 to 9, in the lengths that the checks leave. `Few` is no fact of it, as of AccelerationRows.
#[derive(Clone, Copy)]
pub struct JerkRows<'a> {
    pub path: Path<'a>,
    pub tables: Jerk<'a>,
    ghost sized: { JerkSized path.grid.now tables.rows.now tables.a.now tables.b.now tables.c.now tables.max.now },
}
