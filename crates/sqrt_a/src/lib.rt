// The root stage, once if any objective uses it: rows that say that no xi is negative, and a second-order cone for each xi.

#![tactic(auto)]

ghost use Rattle.std.specs.Prelude.{cond, [], ◌∷◌, ◌+◌, ◌*◌, ◌<◌, ◌≤◌, max, length};
ghost use Rattle.model.specs.Lists.{list};
ghost use Rattle.model.specs.Problem.{L, some, uses_root};
ghost use Rattle.model.specs.Program.{nothing};
ghost use Rattle.model.specs.Standard.{root_cone, root_stage};
ghost use Rattle.buffers.specs.Bounds.{root_room};
ghost use Rattle.buffers.specs.Buffers.{Wrote, Closed, Builds};
ghost use Rattle.buffers.specs.Lent.{Room, RoomAll};
ghost use Rattle.buffers.specs.Paths.{path_of};
ghost use Rattle.sqrt_a.specs.Bands.{root_bands};

use buffers::Path;
use columns::{column_a, column_xi, first_xi};
use model::{Buffers, ConeKind, Objective, Tally, Term};
use objective_kinds::has_root;

// The rows of a root cone.
fn root_rows(t: Tally, out: &mut Buffers, path: Path, j: usize) -> Tally
    requires { Room t 3 × (max path.ends.n0 1 + j < length path.grid.now) }
    ensures { Wrote t out.old result out.new (root_bands (path_of path.entry) j) 3 }
{
    let a = column_a(first_xi(path) + j);
    let u = buffers::row(t, out, 0.25, [Term { col: a, v: -1.0 }]);
    let u = buffers::row(u, out, -0.25, [Term { col: a, v: -1.0 }]);
    let xi = column_xi(path.grid, j);
    buffers::row(u, out, 0.0, [Term { col: xi, v: -1.0 }])
}

// A root cone.
fn root_cone(t: Tally, out: &mut Buffers, path: Path, j: usize) -> Tally
    requires { RoomAll t 3 × (max path.ends.n0 1 + j < length path.grid.now) }
    ensures { Closed t out.old result out.new (root_cone (path_of path.entry) j ∷ []) 3 }
{
    let u = root_rows(t, out, path, j);
    buffers::close_cone(u, out, ConeKind::SecondOrder, t.rows)
}

// All root cones.
#[tactic(auto, using(columns::proofs::Xi::xi_in), unfolding(model::specs::Problem::L))]
fn root_cones(t: Tally, out: &mut Buffers, path: Path) -> Tally
    requires { RoomAll t (3 * length path.grid.now) }
    ensures { Closed t out.old result out.new (list (root_cone (path_of path.entry)) 0 (L (path_of path.entry))) (3 * length path.entry.grid.now) }
{
    let count = columns::length_xi(path);
    let mut u = t;
    // Over numbers: a cone is told by the number of its xi. Each turn is one call: see crate buffers.
    for i in 0..count {
        u = root_cone(u, out, path, i);
    }
    u
}

// The root stage itself.
#[tactic(auto, using(columns::proofs::Xi::at_most_xi))]
fn root_stage(t: Tally, out: &mut Buffers, path: Path) -> Tally
    requires { RoomAll t (root_room (length path.grid.now)) }
    ensures { Builds t out.old result out.new (root_stage (path_of path.entry)) (root_room (length path.entry.grid.now)) }
{
    let count = columns::length_xi(path);
    let first = column_xi(path.grid, 0);
    let u = buffers::positive(t, out, first, count);
    let v = buffers::close_cone(u, out, ConeKind::Nonnegative, t.rows);
    let w = root_cones(v, out, path);
    buffers::fill_cost(w, out, count, |_i| 0.0)
}

// The root stage, if any of the objectives uses it; else nothing.
pub fn clarabel_sqrt_a_copp3(
    t: Tally,
    out: &mut Buffers,
    path: Path,
    objectives: &[Objective],
) -> Tally
    requires { RoomAll t (root_room (length path.grid.now)) }
    ensures { Builds t out.old result out.new (cond (some uses_root objectives.now) (root_stage (path_of path.entry)) nothing) (root_room (length path.entry.grid.now)) }
{
    if has_root(objectives) {
        return root_stage(t, out, path);
    }
    t
}
