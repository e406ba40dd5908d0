// Refusal 20 of the objectives, told from their tables, and of what Linear adds to the cost of the a and b columns. Nothing is written.

#![tactic(auto)]

ghost use Rattle.std.specs.Prelude.{◌≡◌, ℕ, ◌+◌, ◌*◌, ◌<◌, ◌&&◌, ltb, length};
ghost use Rattle.model.specs.Numbers.{finite};
ghost use Rattle.model.specs.Lists.{list};
ghost use Rattle.model.specs.Problem.{m, n, skip, L};
ghost use Rattle.model.specs.Objectives.{torque_block, thermal_block, objective_block, time_block};
ghost use Rattle.model.specs.Assembled.{objective_blocks, all_finite};
ghost use Rattle.buffers.specs.Paths.{path_of};
ghost use Rattle.torque.specs.Tables.{tables_of};
ghost use Rattle.finite_objectives.specs.Tests.{joint_end_test, thermal_at, step_test, end_test};
ghost use Rattle.finiteness.specs.Finite.{each, Each, if_test, finite_block, finite_blocks};
ghost use Rattle.linear.specs.Parts.{cost_in};
ghost use Rattle.objectives.specs.Input.{Ready};
ghost use Rattle.objectives.specs.Lends.{lends_of};

use buffers::{Path, weighted};
use columns::{first_xi, length_xi};
use finiteness::{all_finite, every};
use linear::{LinearCosts, Linears};
use model::{Column, Objective};
use numbers::{both, is_finite};
use objective_kinds::{any_is, is_linear};
use objectives::{ObjectiveInput, ObjectiveList};
use time::get_weight_a_topp3;
use torque::{ScaledTorque, ThermalObjective, TorqueEnd, TorqueStation, TorqueStep};

// Time: its rows hold constants.
#[tactic(auto, using(columns::proofs::Xi::xi_in), unfolding(model::specs::Problem::L))]
fn time(path: Path, weight: f64) -> bool
    ensures { (c : ℕ) → result ≡ finite_block (time_block (path_of path.entry) weight c) }
{
    every(
        first_xi(path),
        length_xi(path),
        |k| is_finite(weight * get_weight_a_topp3(path, k)),
    )
}

// ThermalEnergy at an end, if its count is positive: its cone, and the cost of its column, which the caller tells since the end holds the torque already.
fn thermal_end(end: TorqueEnd, cost: f64) -> bool
    ensures { result ≡ if_test (ltb 0 end.entry.count) (each (joint_end_test (tables_of end.entry.torque) end.entry.torque.scales.now end.entry.moving end.entry.resting) 0 end.entry.torque.d && finite cost) }
{
    if end.count == 0 {
        return true;
    }
    let moving = end.moving_station();
    let resting = end.resting_station();
    let joints = every(0, end.torque.d, |i| {
        all_finite([moving.a(i), moving.b(i), moving.g(i) + resting.g(i)])
    });
    both(joints, is_finite(cost))
}

// The cone and the cost of station k, which has a xi.
fn thermal_at(objective: ThermalObjective, k: usize) -> bool
    requires { k < length objective.torque.path.grid.now }
    ensures { result ≡ thermal_at (tables_of objective.entry.torque) objective.entry.torque.scales.now objective.entry.thermal.now objective.entry.weight k }
{
    let torque = objective.torque;
    let station = TorqueStation { torque, k };
    let joints = every(0, torque.d, |i| {
        all_finite([station.a(i), station.b(i), station.g(i)])
    });
    let cost = weighted(4.0 * objective.weight, objective.thermal, k);
    both(joints, is_finite(cost))
}

// ThermalEnergy.
#[tactic(auto, using(columns::proofs::Xi::xi_in), unfolding(model::specs::Problem::L, model::specs::Problem::stop))]
fn thermal_energy(objective: ThermalObjective) -> bool
    ensures { (c : ℕ) → result ≡ finite_block (thermal_block (path_of objective.entry.torque.path) (tables_of objective.entry.torque) objective.entry.thermal.now objective.entry.weight objective.entry.torque.scales.now c) }
{
    let torque = objective.torque;
    let thermal = objective.thermal;
    let weight = objective.weight;
    let path = torque.path;
    let ends = path.ends;
    let start = thermal_end(torque.first_end(), weighted(weight, thermal, 0));
    let end = thermal_end(torque.last_end(), weighted(weight, thermal, path.last()));
    let moving = every(
        first_xi(path),
        length_xi(path),
        |k| thermal_at(objective, k),
    );
    both(both(start, end), moving)
}

// TotalVariationTorque: joint i for a step.
fn step_joint(step: TorqueStep, i: usize) -> bool
    requires { i < step.torque.d }
    ensures { result ≡ step_test (tables_of step.entry.torque) step.entry.torque.scales.now step.entry.k i }
{
    let torque = step.torque;
    let here = TorqueStation { torque, k: step.k };
    let next = TorqueStation {
        torque,
        k: step.k + 1,
    };
    let g = here.g(i);
    let h = next.g(i);
    all_finite([here.a(i), next.a(i), here.b(i), next.b(i), h - g, g - h])
}

// Joint i at an end.
fn end_joint(end: TorqueEnd, i: usize) -> bool
    requires { i < end.torque.d }
    ensures { result ≡ end_test (tables_of end.entry.torque) end.entry.torque.scales.now end.entry.moving end.entry.resting i }
{
    let moving = end.moving_station();
    let resting = end.resting_station();
    let g = moving.g(i);
    let h = resting.g(i);
    all_finite([moving.a(i), moving.b(i), g - h, h - g])
}

// All joints at an end, if its count is positive.
fn end_joints(end: TorqueEnd) -> bool
    ensures { result ≡ if_test (ltb 0 end.entry.count) (each (end_test (tables_of end.entry.torque) end.entry.torque.scales.now end.entry.moving end.entry.resting) 0 end.entry.torque.d) }
{
    if end.count == 0 {
        return true;
    }
    every(0, end.torque.d, |i| end_joint(end, i))
}

// All joints for a step.
fn step_joints(step: TorqueStep) -> bool
    ensures { Each result (step_test (tables_of step.entry.torque) step.entry.torque.scales.now step.entry.k) 0 step.entry.torque.d }
{
    every(0, step.torque.d, |i| step_joint(step, i))
}

// TotalVariationTorque. Every column has the same cost.
#[tactic(auto, unfolding(model::specs::Problem::m, model::specs::Problem::stop))]
fn total_variation_torque(torque: ScaledTorque, weight: f64) -> bool
    ensures { (c : ℕ) → result ≡ finite_block (torque_block (path_of torque.entry.path) (tables_of torque.entry) weight torque.entry.scales.now c) }
{
    let path = torque.path;
    let ends = path.ends;
    let start = end_joints(torque.first_end());
    let end = end_joints(torque.last_end());
    let steps = every(
        ends.n0,
        path.moving(),
        |k|
            requires { k + 1 < length torque.path.grid.now }
        { step_joints(TorqueStep { torque, k }) },
    );
    both(both(start, end), both(steps, is_finite(weight)))
}

// The costs of the a and b columns. Without a Linear they are 0.
pub fn ab_costs(costs: &LinearCosts) -> bool
    ensures { result ≡ all_finite (list (cost_in costs.now.input costs.now.objectives.now) 0 (2 * (n (path_of costs.now.input.path) + 1))) }
{
    let columns = 2 * costs.input.path.grid.len();
    if any_is(costs.objectives, is_linear) {
        let linears = Linears::among(costs.objectives);
        return every(
            0,
            columns,
            |i| is_finite(linears.column_cost(costs, Column { at: i })),
        );
    }
    true
}

// One objective. Linear has no rows and no columns of its own.
fn objective(input: &ObjectiveInput, o: Objective) -> bool
    requires { Ready (lends_of input.now) o }
    ensures { (c : ℕ) → result ≡ finite_block (objective_block (lends_of input.now) c o) }
{
    match o {
        Objective::Time(weight) => time(input.path, weight),
        Objective::ThermalEnergy { weight, start, len } => {
            thermal_energy(ThermalObjective {
                torque: input.scaled(start, len),
                thermal: input.thermal,
                weight,
            })
        }
        Objective::TotalVariationTorque { weight, start, len } => {
            total_variation_torque(input.scaled(start, len), weight)
        }
        Objective::Linear { .. } => true,
    }
}

// All that count. No branch: it goes on to the last, as every scan does.
pub fn objectives(list: &ObjectiveList) -> bool
    ensures { (c : ℕ) → result ≡ finite_blocks (objective_blocks (lends_of list.now.input) c list.now.objectives.now) }
{
    let input = &list.input;
    let mut ok = true;
    for o in list.objectives {
        ok = both(ok, objective(input, *o));
    }
    ok
}
