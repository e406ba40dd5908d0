// The standard rows, in two cones.

#![tactic(auto)]

mod input;

ghost use Rattle.std.specs.Prelude.{length};
ghost use Rattle.model.specs.Standard.{inequalities};
ghost use Rattle.first_order.specs.Limits.{limits};
ghost use Rattle.acc_jerk.specs.Tables.{acc_of, jerk_of, Few};
ghost use Rattle.buffers.specs.Bounds.{inequalities_room, standard_room};
ghost use Rattle.buffers.specs.Buffers.{Wrote, Closed};
ghost use Rattle.buffers.specs.Lent.{Room, RoomAll};
ghost use Rattle.buffers.specs.Paths.{path_of};
ghost use Rattle.standard.specs.Input.{cones_of};

pub use input::StandardInput;
use model::{Buffers, ConeKind, Tally};

// All inequalities.
fn inequalities(t: Tally, out: &mut Buffers, input: StandardInput) -> Tally
    requires { Room t (inequalities_room (length input.path.grid.now)) × Few input.acceleration.rows.now × Few input.jerk.rows.now }
    ensures { Wrote t out.old result out.new (inequalities (path_of input.entry.path) (limits input.entry.start input.entry.end input.entry.amax.now) (acc_of input.entry.acceleration) (jerk_of input.entry.jerk)) (inequalities_room (length input.entry.path.grid.now)) }
{
    let u = first_order::clarabel_1order_constraint_topp3(t, out, input.limits());
    let u = acc_jerk::clarabel_2order_constraint_topp3(u, out, input.acceleration_rows());
    acc_jerk::clarabel_3order_constraint_topp3(u, out, input.jerk_rows())
}

// The block.
pub fn clarabel_standard_constraint_topp3(
    t: Tally,
    out: &mut Buffers,
    input: StandardInput,
) -> Tally
    requires { RoomAll t (standard_room (length input.path.grid.now)) × Few input.acceleration.rows.now × Few input.jerk.rows.now }
    ensures { Closed t out.old result out.new (cones_of input.entry) (standard_room (length input.entry.path.grid.now)) }
{
    let u = dynamic::equalities(t, out, input.path, input.boundary);
    let v = buffers::close_cone(u, out, ConeKind::Zero, t.rows);
    let w = inequalities(v, out, input);
    buffers::close_cone(w, out, ConeKind::Nonnegative, v.rows)
}
