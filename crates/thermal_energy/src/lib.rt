// ThermalEnergy: a second-order cone for each positive end and for each xi, and the costs of their own columns.

#![tactic(auto)]

ghost use Rattle.std.specs.Prelude.{◌≡◌, [], ◌∷◌, ◌+◌, ◌*◌, ◌^◌, ◌<◌, ◌≤◌, ℕ, Float, ltb, length};
ghost use Rattle.model.specs.Refusals.{most_joints};
ghost use Rattle.model.specs.Lists.{list, given};
ghost use Rattle.model.specs.Problem;
ghost use Rattle.model.specs.Problem.{L, skip};
ghost use Rattle.model.specs.Objectives.{thermal_block};
ghost use Rattle.buffers.specs.Bounds.{thermal_cone_room, thermal_room};
ghost use Rattle.buffers.specs.Buffers.{Columns, Wrote, Closed, Costs, Builds};
ghost use Rattle.buffers.specs.Lent.{Room, RoomAll};
ghost use Rattle.buffers.specs.Paths.{path_of};
ghost use Rattle.torque.specs.Tables.{tables_of};
ghost use Rattle.thermal_energy.specs.Cones.{first_band, joint_columns, cone_with, end_cone, moving_cone, thermal_cones, thermal_costs};

use buffers::{fill, fill_cost, fill_right, weighted};
use columns::{column_a, column_b, column_xi, first_xi, length_xi};
use model::{Buffers, Column, ConeKind, Tally, Term};
use torque::{ScaledTorque, ThermalObjective, TorqueEnd, TorqueStation};

// The first two rows of a cone, on its own column and a xi.
fn first_rows(t: Tally, out: &mut Buffers, own: Column, xi: Column) -> Tally
    requires { Room t 2 }
    ensures { Wrote t out.old result out.new (first_band own.at xi.at ∷ []) 2 }
{
    let signs = [-1.0, 1.0];
    let u = fill(t, out, t.rows, 2, |_| Term { col: own, v: -1.0 });
    let v = fill(u, out, t.rows, 2, |i| {
        let v = signs[i];
        Term { col: xi, v }
    });
    fill_right(v, out, 2, |_| 0.0)
}

// The columns of a cone's other rows, on a and b of its station.
fn joint_columns(t: Tally, out: &mut Buffers, station: TorqueStation) -> Tally
    requires { Room t most_joints }
    ensures { Columns t out.old result out.new t.rows.at (joint_columns station.entry.torque station.entry.k) station.entry.torque.d }
{
    let d = station.torque.d;
    let col = column_a(station.k);
    let u = fill(t, out, t.rows, d, |i| {
        let v = station.a(i);
        Term { col, v }
    });
    let col = column_b(station.torque.path.grid, station.k);
    fill(u, out, t.rows, d, |i| {
        let v = station.b(i);
        Term { col, v }
    })
}

// A station's cone: j is the number of the xi, and side_at tells the right sides of the joints.
fn cone<F: Fn(usize) -> f64>(
    t: Tally,
    out: &mut Buffers,
    station: TorqueStation,
    own: Column,
    j: usize,
    side_at: F,
) -> Tally
    requires room { RoomAll t thermal_cone_room × (j < length station.torque.path.grid.now) }
    requires callable { (i : ℕ) → i < station.torque.d → F.pre side_at i }
    requires told { (g : ℕ → Float) × ((i : ℕ) (x : Float) → i < station.torque.d → F.post side_at i x → x ≡ g i) }
    ensures { (g : ℕ → Float) → ((i : ℕ) (x : Float) → i < station.entry.torque.d → F.post side_at i x → x ≡ g i) → Closed t out.old result out.new (cone_with station.entry.torque own.at j station.entry.k g ∷ []) thermal_cone_room }
{
    let xi = column_xi(station.torque.path.grid, j);
    let u = first_rows(t, out, own, xi);
    let v = joint_columns(u, out, station);
    let w = fill_right(v, out, station.torque.d, side_at);
    buffers::close_cone(w, out, ConeKind::SecondOrder, t.rows)
}

// The cone of an end, if its count is positive, on xi number j.
fn end_part(t: Tally, out: &mut Buffers, end: TorqueEnd, own: Column, j: usize) -> Tally
    requires { RoomAll t thermal_cone_room × (j < length end.torque.path.grid.now) }
    ensures { Closed t out.old result out.new (given (ltb 0 end.entry.count) (end_cone end.entry.torque own.at j end.entry.moving end.entry.resting ∷ [])) thermal_cone_room }
{
    if end.count == 0 {
        return t;
    }
    let moving = end.moving_station();
    let resting = end.resting_station();
    cone(t, out, moving, own, j, |i| -(moving.g(i) + resting.g(i)))
}

// The cones of the moving stations that have a xi. Their own columns follow those of the ends.
#[tactic(auto, unfolding(model::specs::Problem::L))]
fn moving_cones(t: Tally, out: &mut Buffers, torque: ScaledTorque) -> Tally
    requires { RoomAll t (thermal_cone_room * length torque.path.grid.now) }
    ensures { Closed t out.old result out.new (list (λ j. moving_cone torque.entry (t.columns.at + Problem.ends (path_of torque.entry.path) + j) j (skip (path_of torque.entry.path) + j)) 0 (L (path_of torque.entry.path))) (thermal_cone_room * length torque.entry.path.grid.now) }
{
    let path = torque.path;
    let p = buffers::positive_ends(path.ends);
    let first = first_xi(path);
    let mut u = t;
    // Over numbers: a cone is told by the number of its xi. Each turn is one call: see crate buffers.
    for j in 0..length_xi(path) {
        let own = Column {
            at: t.columns.at + p + j,
        };
        let station = TorqueStation {
            torque,
            k: first + j,
        };
        u = cone(u, out, station, own, j, |i| -station.g(i));
    }
    u
}

// All cones.
#[tactic(auto, unfolding(model::specs::Problem::L, model::specs::Problem::stop))]
fn cones(t: Tally, out: &mut Buffers, torque: ScaledTorque) -> Tally
    requires { RoomAll t (thermal_room (length torque.path.grid.now)) }
    ensures { Closed t out.old result out.new (thermal_cones torque.entry t.columns.at) (thermal_room (length torque.entry.path.grid.now)) }
{
    let path = torque.path;
    let u = end_part(t, out, torque.first_end(), t.columns, 0);
    let own = Column {
        at: t.columns.at + path.ends.n0.min(1),
    };
    let v = end_part(u, out, torque.last_end(), own, length_xi(path) - 1);
    moving_cones(v, out, torque)
}

// All costs: the weight itself at a positive end, times that of its resting station, and four times the weight at the other columns.
#[tactic(auto, unfolding(model::specs::Problem::L))]
fn costs(t: Tally, out: &mut Buffers, objective: ThermalObjective) -> Tally
    requires { t.columns.at + length objective.torque.path.grid.now + 2 < 2 ^ 64 }
    ensures { Costs t out.old result out.new (thermal_costs (path_of objective.entry.torque.path) objective.entry.thermal.now objective.entry.weight) × (result.columns.at ≡ t.columns.at + (Problem.ends (path_of objective.entry.torque.path) + L (path_of objective.entry.torque.path))) }
{
    let path = objective.torque.path;
    let thermal = objective.thermal;
    let weight = objective.weight;
    let start = weighted(weight, thermal, 0);
    let u = fill_cost(t, out, path.ends.n0.min(1), |_| start);
    let end = weighted(weight, thermal, path.last());
    let v = fill_cost(u, out, path.ends.n1.min(1), |_| end);
    let four = 4.0 * weight;
    let first = first_xi(path);
    let count = length_xi(path);
    fill_cost(v, out, count, |j| weighted(four, thermal, first + j))
}

// The block: its cones, and the costs of its own columns.
pub fn clarabel_objective_thermal_energy_copp3(
    t: Tally,
    out: &mut Buffers,
    objective: ThermalObjective,
) -> Tally
    requires { RoomAll t (thermal_room (length objective.torque.path.grid.now)) }
    ensures { Builds t out.old result out.new (thermal_block (path_of objective.entry.torque.path) (tables_of objective.entry.torque) objective.entry.thermal.now objective.entry.weight objective.entry.torque.scales.now t.columns.at) (thermal_room (length objective.entry.torque.path.grid.now)) }
{
    let u = cones(t, out, objective.torque);
    costs(u, out, objective)
}
