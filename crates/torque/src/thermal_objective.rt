// What a ThermalEnergy objective is written from.

ghost use Rattle.std.specs.Prelude.{◌≡◌, length};

use crate::scaled_torque::ScaledTorque;

// Its torque coefficients, table 10, with a number for each station, and its weight.
#[derive(Clone, Copy)]
pub struct ThermalObjective<'a> {
    pub torque: ScaledTorque<'a>,
    pub thermal: &'a [f64],
    pub weight: f64,
    ghost sized: { length thermal.now ≡ length torque.path.grid.now },
}
