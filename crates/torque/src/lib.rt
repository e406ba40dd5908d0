// What both torque objectives read: the torque coefficients, scaled, at a station, at an end of the path and for a step between two stations.

#![tactic(auto)]

mod end;
mod scaled_torque;
mod station;
mod step;
mod thermal_objective;

ghost use Rattle.std.specs.Prelude.{◌≡◌, ◌+◌, ◌*◌, ◌<◌, length};
ghost use Rattle.model.specs.Numbers.{at, ◌⊗◌};

pub use end::TorqueEnd;
pub use scaled_torque::ScaledTorque;
pub use station::TorqueStation;
pub use step::TorqueStep;
pub use thermal_objective::ThermalObjective;

// A torque coefficient of joint i at station k, times the joint's scale.
pub fn scaled(table: &[f64], scales: &[f64], d: usize, k: usize, i: usize) -> f64
    requires { (k * d + i < length table.now) × (i < length scales.now) }
    ensures { result ≡ at table.now (k * d + i) ⊗ at scales.now i }
{
    table[k * d + i] * scales[i]
}
