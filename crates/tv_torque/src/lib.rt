// TotalVariationTorque: for each joint two rows at a positive end, and two for each step between moving stations.

#![tactic(auto)]

ghost use Rattle.std.specs.Prelude.{◌+◌, ◌*◌, ◌^◌, ◌<◌, ltb, length};
ghost use Rattle.model.specs.Refusals.{most_joints};
ghost use Rattle.model.specs.Lists.{over, given};
ghost use Rattle.model.specs.Problem;
ghost use Rattle.model.specs.Problem.{m};
ghost use Rattle.model.specs.Objectives.{torque_block};
ghost use Rattle.buffers.specs.Bounds.{torque_step_room, torque_room};
ghost use Rattle.buffers.specs.Buffers.{Wrote, Builds};
ghost use Rattle.buffers.specs.Lent.{Room, RoomAll};
ghost use Rattle.buffers.specs.Paths.{path_of};
ghost use Rattle.torque.specs.Tables.{tables_of};
ghost use Rattle.tv_torque.specs.Rows.{torque_bands, ends_of, steps_of};

use buffers::row;
use columns::{column_a, column_b};
use model::{Buffers, Column, ConeKind, Tally, Term};
use torque::{ScaledTorque, TorqueEnd, TorqueStation, TorqueStep};

// The two rows of joint i at an end.
// The bound on the own columns stands in each of the four contracts that take the first of them, and in no struct, since that column differs from call to call.
fn end_rows(t: Tally, out: &mut Buffers, end: TorqueEnd, col: Column, i: usize) -> Tally
    requires { Room t 2 × (i < end.torque.d) × (col.at + most_joints < 2 ^ 64) }
    ensures { Wrote t out.old result out.new (ends_of end.entry.torque col.at end.entry.moving end.entry.resting i) 2 }
{
    let moving = end.moving_station();
    let resting = end.resting_station();
    let at = Column { at: col.at + i };
    let own = Term { col: at, v: -1.0 };
    let ca = column_a(end.moving);
    let cb = column_b(end.torque.path.grid, end.moving);
    let a = moving.a(i);
    let b = moving.b(i);
    let g = moving.g(i);
    let h = resting.g(i);
    let p = Term { col: ca, v: a };
    let q = Term { col: cb, v: b };
    let u = row(t, out, g - h, [p, q, own]);
    let p = Term { col: ca, v: -a };
    let q = Term { col: cb, v: -b };
    row(u, out, h - g, [p, q, own])
}

// The rows of all joints at an end, if its count is positive.
fn end_part(t: Tally, out: &mut Buffers, end: TorqueEnd, col: Column) -> Tally
    requires { Room t torque_step_room × (col.at + most_joints < 2 ^ 64) }
    ensures { Wrote t out.old result out.new (given (ltb 0 end.entry.count) (over (ends_of end.entry.torque col.at end.entry.moving end.entry.resting) 0 end.entry.torque.d)) torque_step_room }
{
    if end.count == 0 {
        return t;
    }
    let mut u = t;
    // Over numbers: a joint's number tells its rows. Each turn is one call: see crate buffers.
    for i in 0..end.torque.d {
        u = end_rows(u, out, end, col, i);
    }
    u
}

// The two rows of joint i for a step.
fn step_rows(t: Tally, out: &mut Buffers, step: TorqueStep, col: Column, i: usize) -> Tally
    requires { Room t 2 × (i < step.torque.d) × (col.at + most_joints < 2 ^ 64) }
    ensures { Wrote t out.old result out.new (steps_of step.entry.torque col.at step.entry.k i) 2 }
{
    let torque = step.torque;
    let k = step.k;
    let here = TorqueStation { torque, k };
    let next = TorqueStation { torque, k: k + 1 };
    let at = Column { at: col.at + i };
    let own = Term { col: at, v: -1.0 };
    let a = here.a(i);
    let a1 = next.a(i);
    let b = here.b(i);
    let b1 = next.b(i);
    let g = here.g(i);
    let h = next.g(i);
    let ca = column_a(k);
    let ca1 = column_a(k + 1);
    let cb = column_b(torque.path.grid, k);
    let cb1 = column_b(torque.path.grid, k + 1);
    let p = Term { col: ca, v: -a };
    let p1 = Term { col: ca1, v: a1 };
    let q = Term { col: cb, v: -b };
    let q1 = Term { col: cb1, v: b1 };
    let u = row(t, out, h - g, [p, p1, q, q1, own]);
    let p = Term { col: ca, v: a };
    let p1 = Term { col: ca1, v: -a1 };
    let q = Term { col: cb, v: b };
    let q1 = Term { col: cb1, v: -b1 };
    row(u, out, g - h, [p, p1, q, q1, own])
}

// The rows of all joints for a step.
fn step_joints(t: Tally, out: &mut Buffers, step: TorqueStep, col: Column) -> Tally
    requires { Room t torque_step_room × (col.at + most_joints < 2 ^ 64) }
    ensures { Wrote t out.old result out.new (over (steps_of step.entry.torque col.at step.entry.k) 0 step.entry.torque.d) torque_step_room }
{
    let mut u = t;
    // Over numbers, as at an end. Each turn is one call: see crate buffers.
    for i in 0..step.torque.d {
        u = step_rows(u, out, step, col, i);
    }
    u
}

// All steps.
#[tactic(auto, unfolding(model::specs::Problem::m))]
fn steps(t: Tally, out: &mut Buffers, torque: ScaledTorque) -> Tally
    requires { RoomAll t (torque_step_room * length torque.path.grid.now) }
    ensures { Wrote t out.old result out.new (over (λ j. over (steps_of torque.entry (t.columns.at + torque.entry.d * (Problem.ends (path_of torque.entry.path) + j)) (torque.entry.path.ends.n0 + j)) 0 torque.entry.d) 0 (m (path_of torque.entry.path))) (torque_step_room * length torque.entry.path.grid.now) }
{
    let p = buffers::positive_ends(torque.path.ends);
    let mut u = t;
    // Over numbers: a step's number tells its own columns and its station. Each turn is one call: see crate buffers.
    for j in 0..torque.path.moving() {
        let own = Column {
            at: t.columns.at + torque.d * (p + j),
        };
        let step = TorqueStep {
            torque,
            k: torque.path.ends.n0 + j,
        };
        u = step_joints(u, out, step, own);
    }
    u
}

// All rows.
#[tactic(auto, unfolding(model::specs::Problem::stop))]
fn bands(t: Tally, out: &mut Buffers, torque: ScaledTorque) -> Tally
    requires { RoomAll t (torque_room (length torque.path.grid.now)) }
    ensures { Wrote t out.old result out.new (torque_bands torque.entry t.columns.at) (torque_room (length torque.entry.path.grid.now)) }
{
    let u = end_part(t, out, torque.first_end(), t.columns);
    let own = Column {
        at: t.columns.at + torque.d * torque.path.ends.n0.min(1),
    };
    let v = end_part(u, out, torque.last_end(), own);
    steps(v, out, torque)
}

// The block: its rows in one nonnegative cone, and the weight for each own column.
#[tactic(auto, unfolding(model::specs::Problem::m))]
pub fn clarabel_objective_tv_torque_copp3(
    t: Tally,
    out: &mut Buffers,
    torque: ScaledTorque,
    weight: f64,
) -> Tally
    requires { RoomAll t (torque_room (length torque.path.grid.now)) }
    ensures { Builds t out.old result out.new (torque_block (path_of torque.entry.path) (tables_of torque.entry) weight torque.entry.scales.now t.columns.at) (torque_room (length torque.entry.path.grid.now)) }
{
    let path = torque.path;
    let count = torque.d * (buffers::positive_ends(path.ends) + path.moving());
    let u = bands(t, out, torque);
    let v = buffers::close_cone(u, out, ConeKind::Nonnegative, t.rows);
    buffers::fill_cost(v, out, count, |_| weight)
}
