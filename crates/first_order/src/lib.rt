// First-order rows.

#![tactic(auto)]

mod limits;

ghost use Rattle.std.specs.Prelude.{[], ◌+◌, ◌-◌, ◌*◌, ltb, length};
ghost use Rattle.model.specs.Numbers.{at};
ghost use Rattle.model.specs.Lists.{over, given};
ghost use Rattle.model.specs.Problem.{on_grid, m};
ghost use Rattle.model.specs.Standard.{upper_row, end_rows, interval_rows, first_order};
ghost use Rattle.buffers.specs.Bounds.{first_order_room};
ghost use Rattle.buffers.specs.Buffers.{Wrote};
ghost use Rattle.buffers.specs.Lent.{Room};
ghost use Rattle.buffers.specs.Paths.{path_of};
ghost use Rattle.first_order.specs.Limits.{limits_of};

use buffers::{Interval, Path};
use columns::{column_a, column_b};
pub use limits::Limits;
use model::{Bounds, Buffers, Tally, Term};
use numbers::is_finite;

// The upper row of station k, where the bound is finite. No grid moves its column.
fn upper(t: Tally, out: &mut Buffers, k: usize, bound: f64) -> Tally
    requires { Room t 1 }
    ensures { Wrote t out.old result out.new (upper_row (on_grid []) k bound) 1 }
{
    if !is_finite(bound) {
        return t;
    }
    let p = Term {
        col: column_a(k),
        v: 1.0,
    };
    buffers::row(t, out, bound, [p])
}

// The rows of an end whose count is positive: k is its moving station.
fn end_rows(t: Tally, out: &mut Buffers, count: usize, k: usize, bounds: Bounds) -> Tally
    requires { Room t 2 }
    ensures { Wrote t out.old result out.new (given (ltb 0 count) (end_rows (on_grid []) k bounds)) 2 }
{
    if count == 0 {
        return t;
    }
    let u = upper(t, out, k, bounds.maximum);
    let p = Term {
        col: column_a(k),
        v: -1.0,
    };
    buffers::row(u, out, -bounds.minimum, [p])
}

// The finite upper rows of the stations that move on both sides.
#[tactic(auto, unfolding(model::specs::Problem::stop))]
fn uppers(t: Tally, out: &mut Buffers, limits: Limits) -> Tally
    requires { Room t (length limits.path.grid.now) }
    ensures { Wrote t out.old result out.new (over (λ k. upper_row (path_of limits.entry.path) k (at limits.entry.amax.now k)) (limits.entry.path.ends.n0 + 1) (m (path_of limits.entry.path) - 1)) (length limits.entry.path.grid.now) }
{
    let mut u = t;
    // Over the stations' numbers: a row's column is told by its station's. Each turn is one call: see crate buffers.
    for k in limits.path.ends.n0 + 1..limits.path.stop() {
        u = upper(u, out, k, limits.amax[k]);
    }
    u
}

// The two rows of an interval.
fn interval_rows(t: Tally, out: &mut Buffers, interval: Interval) -> Tally
    requires { Room t 2 }
    ensures { Wrote t out.old result out.new (interval_rows (path_of interval.entry.path) interval.entry.k) 2 }
{
    let Interval { path, k } = interval;
    let h = interval.spacing();
    let b = column_b(path.grid, k);
    let next = column_b(path.grid, k + 1);
    let p = Term {
        col: column_a(k),
        v: -2.0,
    };
    let u = buffers::row(t, out, 0.0, [p, Term { col: b, v: -h }]);
    let q = Term {
        col: b,
        v: -2.0 * h,
    };
    buffers::row(u, out, 0.0, [p, q, Term { col: next, v: -h }])
}

// The rows of all moving intervals.
#[tactic(auto, unfolding(model::specs::Problem::stop))]
fn clarabel_interval_a_constraint_topp3(t: Tally, out: &mut Buffers, path: Path) -> Tally
    requires { Room t (2 * length path.grid.now) }
    ensures { Wrote t out.old result out.new (over (interval_rows (path_of path.entry)) path.entry.ends.n0 (m (path_of path.entry))) (2 * length path.entry.grid.now) }
{
    let mut u = t;
    // Over the stations' numbers: an interval is told by its first station's. Each turn is one call: see crate buffers.
    for k in path.ends.n0..path.stop() {
        u = interval_rows(u, out, Interval { path, k });
    }
    u
}

// All first-order rows.
#[tactic(auto, unfolding(model::specs::Problem::m, model::specs::Problem::stop))]
pub fn clarabel_1order_constraint_topp3(t: Tally, out: &mut Buffers, limits: Limits) -> Tally
    requires { Room t (first_order_room (length limits.path.grid.now)) }
    ensures { Wrote t out.old result out.new (first_order (path_of limits.entry.path) (limits_of limits.entry)) (first_order_room (length limits.entry.path.grid.now)) }
{
    let path = limits.path;
    let ends = path.ends;
    let u = end_rows(t, out, ends.n0, ends.n0, limits.start);
    let u = end_rows(u, out, ends.n1, path.stop(), limits.end);
    let u = buffers::positive(u, out, column_a(ends.n0 + 1), path.moving() - 1);
    let u = uppers(u, out, limits);
    clarabel_interval_a_constraint_topp3(u, out, path)
}
