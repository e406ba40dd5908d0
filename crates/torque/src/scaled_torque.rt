// What both torque objectives are written from.

ghost use Rattle.torque.specs.Given.{Given};

use buffers::Path;
use model::Torque;

// The path, tables 11 to 13, the objective's scales and the number of joints, with the sizes that refusals 4, 5, 8, 12, 14 and 15 leave. The number of joints stands beside the scales, whose length it is: the definitions speak of it, and tables 11 to 13 are read by it.
#[derive(Clone, Copy)]
pub struct ScaledTorque<'a> {
    pub path: Path<'a>,
    pub tables: Torque<'a>,
    pub scales: &'a [f64],
    pub d: usize,
    ghost given: { Given path.grid.now path.ends tables.a.now tables.b.now tables.g.now scales.now d },
}
