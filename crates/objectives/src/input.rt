// What the objectives are written from.

ghost use Rattle.std.specs.Prelude.{◌≡◌};
ghost use Rattle.model.specs.Lists.{part};
ghost use Rattle.objectives.specs.Input.{Joints};
ghost use Rattle.objectives.specs.Lends.{lends_of};

use buffers::Path;
use model::Torque;
use torque::ScaledTorque;

// The path, table 10, tables 11 to 13 with the number of joints, and the pool that holds the scales.
#[derive(Clone, Copy)]
pub struct ObjectiveInput<'a> {
    pub path: Path<'a>,
    pub thermal: &'a [f64],
    pub torque: Torque<'a>,
    pub d: usize,
    pub pool: &'a [f64],
}

impl<'a> ObjectiveInput<'a> {
    // What a torque objective is written from whose scales lie in the pool from start on.
    pub fn scaled(self, start: usize, len: usize) -> ScaledTorque<'a>
        requires { Joints (lends_of self) start len }
        ensures path { result.path ≡ self.entry.path }
        ensures tables { result.tables ≡ self.entry.torque }
        ensures scales { result.scales.now ≡ part self.entry.pool.now start len }
        ensures joints { result.d ≡ self.entry.d }
    {
        ScaledTorque {
            path: self.path,
            tables: self.torque,
            scales: &self.pool[start..start + len],
            d: self.d,
        }
    }
}
