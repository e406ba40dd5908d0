// A step of a torque objective's path.

ghost use Rattle.std.specs.Prelude.{◌+◌, ◌<◌, length};

use crate::scaled_torque::ScaledTorque;

// From station k to the next.
#[derive(Clone, Copy)]
pub struct TorqueStep<'a> {
    pub torque: ScaledTorque<'a>,
    pub k: usize,
    ghost inside: { k + 1 < length torque.path.grid.now },
}
