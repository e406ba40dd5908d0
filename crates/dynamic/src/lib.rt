// Boundary and dynamic rows.

#![tactic(auto)]

ghost use Rattle.std.specs.Prelude.{[], ◌∷◌, ◌+◌, ◌-◌, ◌*◌, ◌<◌, ◌≤◌, ltb, length};
ghost use Rattle.model.specs.Lists.{given};
ghost use Rattle.model.specs.Numbers.{+1};
ghost use Rattle.model.specs.Problem.{m, col_a, col_b, spacing};
ghost use Rattle.model.specs.Program.{cell, row};
ghost use Rattle.model.specs.Standard.{boundary_rows, stationary_row, moving_rows, equalities};
ghost use Rattle.buffers.specs.Bounds.{equalities_room};
ghost use Rattle.buffers.specs.Buffers.{Fills, Wrote};
ghost use Rattle.buffers.specs.Lent.{Room, RoomFrom};
ghost use Rattle.buffers.specs.Paths.{path_of};

use buffers::Path;
use columns::{column_a, column_b};
use model::{Boundary, Buffers, Column, Row, Tally, Term};

// The row that holds a column at a value.
fn boundary_row(t: Tally, out: &mut Buffers, x: f64, col: Column) -> Tally
    requires { Room t 1 }
    ensures { Wrote t out.old result out.new (row x (cell col.at +1 ∷ []) ∷ []) 1 }
{
    buffers::row(t, out, x, [Term { col, v: 1.0 }])
}

// The boundary rows.
fn clarabel_boundary_constraint_topp3(
    t: Tally,
    out: &mut Buffers,
    path: Path,
    boundary: Boundary,
) -> Tally
    requires { Room t 4 }
    ensures { Wrote t out.old result out.new (boundary_rows (path_of path.entry) boundary) 4 }
{
    let last = path.last();
    let u = boundary_row(t, out, boundary.a0, column_a(0));
    let u = boundary_row(u, out, boundary.a1, column_a(last));
    let u = boundary_row(u, out, boundary.b0, column_b(path.grid, 0));
    boundary_row(u, out, boundary.b1, column_b(path.grid, last))
}

// The row of an end whose count is positive: k is its moving station, z its resting one. Three numbers and no struct: what else stands on an end of the path (TorqueEnd, LinearEnd) is another thing each time.
fn clarabel_dynamic_stationary_topp3(
    t: Tally,
    out: &mut Buffers,
    path: Path,
    count: usize,
    k: usize,
    z: usize,
) -> Tally
    requires { Room t 1 × (k < length path.grid.now) × (z < length path.grid.now) }
    ensures { Wrote t out.old result out.new (given (ltb 0 count) (stationary_row (path_of path.entry) k z ∷ [])) 1 }
{
    if count == 0 {
        return t;
    }
    let v = -1.5 * (path.grid[k] - path.grid[z]);
    let p = Term {
        col: column_a(k),
        v: 1.0,
    };
    let q = Term {
        col: column_b(path.grid, k),
        v,
    };
    buffers::row(t, out, 0.0, [p, q])
}

// One column of the moving rows: a of a station and of each after it, with the same value.
#[tactic(auto, unfolding(model::specs::Problem::m))]
fn moving_a(t: Tally, out: &mut Buffers, row: Row, path: Path, from: usize, v: f64) -> Tally
    requires { RoomFrom t row.at (length path.grid.now) × (from < length path.grid.now) }
    ensures { Fills t out.old result out.new row.at (λ i. cell (col_a (path_of path.entry) (from + i)) v) (m (path_of path.entry)) }
{
    buffers::fill(
        t,
        out,
        row,
        path.moving(),
        |i| Term {
            col: column_a(from + i),
            v,
        },
    )
}

// And b, with the spacing of each moving interval.
#[tactic(auto, unfolding(model::specs::Problem::m))]
fn moving_b(t: Tally, out: &mut Buffers, row: Row, path: Path, from: usize) -> Tally
    requires { RoomFrom t row.at (length path.grid.now) × (from ≤ path.ends.n0 + 1) }
    ensures { Fills t out.old result out.new row.at (λ i. cell (col_b (path_of path.entry) (from + i)) (spacing (path_of path.entry) (path.entry.ends.n0 + i))) (m (path_of path.entry)) }
{
    buffers::fill(
        t,
        out,
        row,
        path.moving(),
        |i| Term {
            col: column_b(path.grid, from + i),
            v: buffers::spacing(path.grid, path.ends.n0 + i),
        },
    )
}

// The moving rows, column kind by column kind.
#[tactic(auto, unfolding(model::specs::Problem::m))]
fn clarabel_dynamic_moving_topp3(t: Tally, out: &mut Buffers, path: Path) -> Tally
    requires { Room t (length path.grid.now) }
    ensures { Wrote t out.old result out.new (moving_rows (path_of path.entry) ∷ []) (length path.entry.grid.now) }
{
    let k = path.ends.n0;
    let row = t.rows;
    let u = moving_a(t, out, row, path, k, 1.0);
    let u = moving_a(u, out, row, path, k + 1, -1.0);
    let u = moving_b(u, out, row, path, k);
    let u = moving_b(u, out, row, path, k + 1);
    buffers::fill_right(u, out, path.moving(), |_| 0.0)
}

// All equalities.
#[tactic(auto, unfolding(model::specs::Problem::stop))]
pub fn equalities(t: Tally, out: &mut Buffers, path: Path, boundary: Boundary) -> Tally
    requires { Room t (equalities_room (length path.grid.now)) }
    ensures { Wrote t out.old result out.new (equalities (path_of path.entry) boundary) (equalities_room (length path.entry.grid.now)) }
{
    let ends = path.ends;
    let u = clarabel_boundary_constraint_topp3(t, out, path, boundary);
    let u = clarabel_dynamic_stationary_topp3(u, out, path, ends.n0, ends.n0, 0);
    let u = clarabel_dynamic_stationary_topp3(u, out, path, ends.n1, path.stop(), path.last());
    clarabel_dynamic_moving_topp3(u, out, path)
}
