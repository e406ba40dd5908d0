// What the costs of Linear objectives are told from: what is lent for all of them, one of them with its lists, and an end of its path.

ghost use Rattle.std.specs.Prelude.{◌<◌, length};
ghost use Rattle.linear.specs.Charges.{Given};

use buffers::Path;
use model::Roots;

// The path, tables 14 and 15, and the pool that holds the objectives' lists.
#[derive(Clone, Copy)]
pub struct LinearInput<'a> {
    pub path: Path<'a>,
    pub roots: Roots<'a>,
    pub pool: &'a [f64],
}

// A Linear objective with its lists, and with the sizes that refusals 4, 5, 12, 14 and 15 leave.
#[derive(Clone, Copy)]
pub struct LinearObjective<'a> {
    pub path: Path<'a>,
    pub roots: Roots<'a>,
    pub alpha: &'a [f64],
    pub beta: &'a [f64],
    pub weight: f64,
    ghost given: { Given path.grid.now path.ends roots.start.now roots.end.now alpha.now beta.now },
}

// An end of its path: the moving station next to it, its last station, and its roots, one for each station between the two. TorqueEnd (crate torque) has other things on the same end, so neither holds the other.
#[derive(Clone, Copy)]
pub struct LinearEnd<'a> {
    pub objective: LinearObjective<'a>,
    pub moving: usize,
    pub last: usize,
    pub roots: &'a [f64],
    ghost on_path: { (moving < length objective.path.grid.now) × (last < length objective.path.grid.now) × (length roots.now < length objective.path.grid.now) },
}
