// The torque coefficients at a station, each times its joint's scale.

ghost use Rattle.std.specs.Prelude.{◌≡◌, ◌+◌, ◌*◌, ◌<◌, length};
ghost use Rattle.model.specs.Numbers.{at, ◌⊗◌};

use crate::scaled;
use crate::scaled_torque::ScaledTorque;

// Station k of a torque objective's path.
#[derive(Clone, Copy)]
pub struct TorqueStation<'a> {
    pub torque: ScaledTorque<'a>,
    pub k: usize,
    ghost here: { k < length torque.path.grid.now },
}

// What the three have in common is `scaled`. That i is a joint stands with each function that takes one: a struct of it would be made at every call.
impl<'a> TorqueStation<'a> {
    // Of joint i, from table 11.
    pub fn a(self, i: usize) -> f64
        requires { i < self.torque.d }
        ensures { result ≡ at self.entry.torque.tables.a.now (self.entry.k * self.entry.torque.d + i) ⊗ at self.entry.torque.scales.now i }
    {
        let torque = self.torque;
        scaled(torque.tables.a, torque.scales, torque.d, self.k, i)
    }

    // From table 12.
    pub fn b(self, i: usize) -> f64
        requires { i < self.torque.d }
        ensures { result ≡ at self.entry.torque.tables.b.now (self.entry.k * self.entry.torque.d + i) ⊗ at self.entry.torque.scales.now i }
    {
        let torque = self.torque;
        scaled(torque.tables.b, torque.scales, torque.d, self.k, i)
    }

    // From table 13.
    pub fn g(self, i: usize) -> f64
        requires { i < self.torque.d }
        ensures { result ≡ at self.entry.torque.tables.g.now (self.entry.k * self.entry.torque.d + i) ⊗ at self.entry.torque.scales.now i }
    {
        let torque = self.torque;
        scaled(torque.tables.g, torque.scales, torque.d, self.k, i)
    }
}
