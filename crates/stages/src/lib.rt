// Each stage is lent the running tally and moves it forward: a thin function after the by-value core, the form that document 01 names.
// The work is done by the function of the stage's own crate.

#![tactic(auto)]

ghost use Rattle.std.specs.Prelude.{◌*◌, ◌+◌, ◌^◌, ◌<◌, length, cond};
ghost use Rattle.model.specs.Problem.{n, some, uses_root};
ghost use Rattle.model.specs.Program.{nothing};
ghost use Rattle.model.specs.Standard.{root_stage};
ghost use Rattle.model.specs.Objectives.{thermal_block, time_block, torque_block};
ghost use Rattle.buffers.specs.Bounds.{standard_room, root_room, time_room, thermal_room, torque_room};
ghost use Rattle.buffers.specs.Buffers.{Closed, Builds, FillsCost};
ghost use Rattle.buffers.specs.Lent.{RoomAll};
ghost use Rattle.buffers.specs.Paths.{path_of};
ghost use Rattle.acc_jerk.specs.Tables.{Few};
ghost use Rattle.linear.specs.Parts.{cost_in};
ghost use Rattle.standard.specs.Input.{cones_of};
ghost use Rattle.torque.specs.Tables.{tables_of};

use buffers::Path;
use linear::LinearCosts;
use model::{Buffers, Objective, Tally};
use standard::StandardInput;
use torque::{ScaledTorque, ThermalObjective};

// The standard rows, modules 2 to 4.
pub fn standard_rows(t: &mut Tally, out: &mut Buffers, input: StandardInput)
    requires { RoomAll t.old (standard_room (length input.path.grid.now)) × Few input.acceleration.rows.now × Few input.jerk.rows.now }
    ensures { Closed t.old out.old t.new out.new (cones_of input.entry) (standard_room (length input.entry.path.grid.now)) }
{
    *t = standard::clarabel_standard_constraint_topp3(*t, out, input);
}

// The root stage, module 5.
pub fn root_stage(t: &mut Tally, out: &mut Buffers, path: Path, objectives: &[Objective])
    requires { RoomAll t.old (root_room (length path.grid.now)) }
    ensures { Builds t.old out.old t.new out.new (cond (some uses_root objectives.now) (root_stage (path_of path.entry)) nothing) (root_room (length path.entry.grid.now)) }
{
    *t = sqrt_a::clarabel_sqrt_a_copp3(*t, out, path, objectives);
}

// Linear: the cost of the a and b columns, before all blocks.
pub fn linear(t: &mut Tally, out: &mut Buffers, costs: &LinearCosts)
    requires { t.old.columns.at + 2 * length costs.now.input.path.grid.now < 2 ^ 64 }
    ensures { FillsCost t.old out.old t.new out.new (cost_in costs.now.input costs.now.objectives.now) 0 (2 * (n (path_of costs.now.input.path) + 1)) }
{
    *t = linear::ab_costs(*t, out, costs);
}

// Time.
pub fn time(t: &mut Tally, out: &mut Buffers, path: Path, weight: f64)
    requires { RoomAll t.old (time_room (length path.grid.now)) }
    ensures { Builds t.old out.old t.new out.new (time_block (path_of path.entry) weight t.old.columns.at) (time_room (length path.entry.grid.now)) }
{
    *t = time::clarabel_objective_time_copp3(*t, out, path, weight);
}

// ThermalEnergy.
pub fn thermal_energy(t: &mut Tally, out: &mut Buffers, objective: ThermalObjective)
    requires { RoomAll t.old (thermal_room (length objective.torque.path.grid.now)) }
    ensures { Builds t.old out.old t.new out.new (thermal_block (path_of objective.entry.torque.path) (tables_of objective.entry.torque) objective.entry.thermal.now objective.entry.weight objective.entry.torque.scales.now t.old.columns.at) (thermal_room (length objective.entry.torque.path.grid.now)) }
{
    *t = thermal_energy::clarabel_objective_thermal_energy_copp3(*t, out, objective);
}

// TotalVariationTorque.
pub fn total_variation_torque(t: &mut Tally, out: &mut Buffers, torque: ScaledTorque, weight: f64)
    requires { RoomAll t.old (torque_room (length torque.path.grid.now)) }
    ensures { Builds t.old out.old t.new out.new (torque_block (path_of torque.entry.path) (tables_of torque.entry) weight torque.entry.scales.now t.old.columns.at) (torque_room (length torque.entry.path.grid.now)) }
{
    *t = tv_torque::clarabel_objective_tv_torque_copp3(*t, out, torque, weight);
}
