// Time: rows that say that no own column is negative, a second-order cone for each xi, and the weights as costs.

#![tactic(auto)]

ghost use Rattle.std.specs.Prelude.{◌≡◌, [], ◌∷◌, ◌+◌, ◌*◌, ◌^◌, ◌<◌, ◌≤◌, length};
ghost use Rattle.model.specs.Numbers.{at, ◌⊗◌};
ghost use Rattle.model.specs.Lists.{list};
ghost use Rattle.model.specs.Problem.{L, skip};
ghost use Rattle.model.specs.Objectives.{time_weights, time_cone, time_block};
ghost use Rattle.buffers.specs.Bounds.{time_room};
ghost use Rattle.buffers.specs.Buffers.{Wrote, Closed, FillsCost, Builds};
ghost use Rattle.buffers.specs.Lent.{Room, RoomAll};
ghost use Rattle.buffers.specs.Paths.{path_of};
ghost use Rattle.time.specs.Bands.{time_bands};

use buffers::Path;
use columns::{column_xi, first_xi};
use model::{Buffers, Column, ConeKind, Tally, Term};

// The rows of a Time cone.
fn time_rows(t: Tally, out: &mut Buffers, path: Path, c: Column, j: usize) -> Tally
    requires { Room t 3 × (j < length path.grid.now) × (c.at + j < 2 ^ 64) }
    ensures { Wrote t out.old result out.new (time_bands (path_of path.entry) c.at j) 3 }
{
    let xi = Term {
        col: column_xi(path.grid, j),
        v: -1.0,
    };
    let own = Column { at: c.at + j };
    let u = buffers::row(t, out, 0.0, [xi, Term { col: own, v: -1.0 }]);
    let u = buffers::row(u, out, 0.0, [xi, Term { col: own, v: 1.0 }]);
    buffers::row(u, out, 2.0, [])
}

// A Time cone.
fn time_cone(t: Tally, out: &mut Buffers, path: Path, c: Column, j: usize) -> Tally
    requires { RoomAll t 3 × (j < length path.grid.now) × (c.at + j < 2 ^ 64) }
    ensures { Closed t out.old result out.new (time_cone (path_of path.entry) c.at j ∷ []) 3 }
{
    let u = time_rows(t, out, path, c, j);
    buffers::close_cone(u, out, ConeKind::SecondOrder, t.rows)
}

// All Time cones.
#[tactic(auto, using(columns::proofs::Xi::xi_in), unfolding(model::specs::Problem::L))]
fn time_cones(t: Tally, out: &mut Buffers, path: Path, c: Column) -> Tally
    requires { RoomAll t (3 * length path.grid.now) × (c.at + length path.grid.now < 2 ^ 64) }
    ensures { Closed t out.old result out.new (list (time_cone (path_of path.entry) c.at) 0 (L (path_of path.entry))) (3 * length path.entry.grid.now) }
{
    let count = columns::length_xi(path);
    let mut u = t;
    // Over numbers: a cone is told by the number of its xi. Each turn is one call: see crate buffers.
    for i in 0..count {
        u = time_cone(u, out, path, c, i);
    }
    u
}

// The Time weight of station k, worked out from the grid: what the list of module 1 would hold there.
#[tactic(auto, unfolding(model::specs::Problem::stop))]
pub fn get_weight_a_topp3(path: Path, k: usize) -> f64
    requires { k < length path.grid.now }
    ensures { result ≡ at (time_weights (path_of path.entry)) k }
{
    let grid = path.grid;
    let ends = path.ends;
    let last = path.last();
    let stop = path.stop();
    if (0 < ends.n0) & (k == ends.n0) {
        return 0.5 * (5.0 * grid[k] + grid[k + 1] - 6.0 * grid[0]);
    }
    if (0 < ends.n1) & (k == stop) {
        return 0.5 * (6.0 * grid[last] - 5.0 * grid[k] - grid[k - 1]);
    }
    if (ends.n0 < k) & (k < stop) {
        return 0.5 * (grid[k + 1] - grid[k - 1]);
    }
    0.0
}

// The cost of Time's columns.
#[tactic(auto, using(columns::proofs::Xi::xi_in), unfolding(model::specs::Problem::L))]
fn time_costs(t: Tally, out: &mut Buffers, path: Path, weight: f64) -> Tally
    requires { t.columns.at + length path.grid.now < 2 ^ 64 }
    ensures { FillsCost t out.old result out.new (λ j. weight ⊗ at (time_weights (path_of path.entry)) (skip (path_of path.entry) + j)) 0 (L (path_of path.entry)) }
{
    let count = columns::length_xi(path);
    let first = first_xi(path);
    buffers::fill_cost(
        t,
        out,
        count,
        |i|
            requires { first + i < length path.grid.now }
        { weight * get_weight_a_topp3(path, first + i) },
    )
}

// Time.
#[tactic(auto, using(columns::proofs::Xi::at_most_xi))]
pub fn clarabel_objective_time_copp3(t: Tally, out: &mut Buffers, path: Path, weight: f64) -> Tally
    requires { RoomAll t (time_room (length path.grid.now)) }
    ensures { Builds t out.old result out.new (time_block (path_of path.entry) weight t.columns.at) (time_room (length path.entry.grid.now)) }
{
    let count = columns::length_xi(path);
    let c = t.columns;
    let u = buffers::positive(t, out, c, count);
    let v = buffers::close_cone(u, out, ConeKind::Nonnegative, t.rows);
    let x = time_cones(v, out, path, c);
    time_costs(x, out, path, weight)
}
