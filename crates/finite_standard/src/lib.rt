// Refusal 20 of the standard rows, told from grid, bounds and tables: each number that would be written is looked at, and nothing is written.

#![tactic(auto)]

ghost use Rattle.std.specs.Prelude.{◌≡◌, ◌+◌, ◌-◌, ◌<◌, ltb, length, get_or};
ghost use Rattle.model.specs.Numbers.{finite, ◌⊘◌, +1};
ghost use Rattle.model.specs.Lists.{list, over};
ghost use Rattle.model.specs.Problem.{m, spacing};
ghost use Rattle.model.specs.Standard.{acceleration_rows, jerk_rows_at, equalities, first_order};
ghost use Rattle.buffers.specs.Paths.{path_of};
ghost use Rattle.acc_jerk.specs.Tables.{acc_of, jerk_of};
ghost use Rattle.finiteness.specs.Finite.{Each, if_test, finite_bands, finite_cones};
ghost use Rattle.finite_standard.specs.Tests.{jerk_test, back_at, ahead_at};
ghost use Rattle.first_order.specs.Limits.{limits_of};
ghost use Rattle.standard.specs.Input.{cones_of};

use acc_jerk::{AccelerationRows, Form, JerkRows, JerkStation, jerk_value};
use buffers::{Interval, Path};
use finiteness::{all_finite, every};
use first_order::Limits;
use model::Boundary;
use numbers::{both, is_finite};
use standard::StandardInput;

// A number of a row that an end has where its count is positive.
fn at_end(stationary: usize, x: f64) -> bool
    ensures { result ≡ if_test (ltb 0 stationary) (finite x) }
{
    if stationary == 0 {
        return true;
    }
    is_finite(x)
}

// Module 2: the right sides of the boundary rows, the stationary rows, the spacings of the moving rows. Their other numbers are constants.
#[tactic(auto, unfolding(model::specs::Problem::m, model::specs::Problem::stop))]
fn equalities(path: Path, boundary: Boundary) -> bool
    ensures { result ≡ finite_bands (equalities (path_of path.entry) boundary) }
{
    let grid = path.grid;
    let (first, last) = (path.ends.n0, path.stop());
    let one = all_finite([boundary.a0, boundary.a1, boundary.b0, boundary.b1]);
    let two = at_end(path.ends.n0, -1.5 * (grid[first] - grid[0]));
    let three = at_end(path.ends.n1, -1.5 * (grid[last] - grid[path.last()]));
    // By the number of a station: a closure that makes an Interval needs a clause of its own, and is no plainer.
    let four = every(
        first,
        path.moving(),
        |k| is_finite(buffers::spacing(grid, k)),
    );
    both(both(both(one, two), three), four)
}

// Module 3: the lower rows of the ends, and of each interval its spacing, and -2 times that, which may overflow where the spacing does not.
// The upper rows are there only where their bound is finite.
#[tactic(auto, unfolding(model::specs::Problem::m))]
fn first_order(limits: Limits) -> bool
    ensures { result ≡ finite_bands (first_order (path_of limits.entry.path) (limits_of limits.entry)) }
{
    let path = limits.path;
    let grid = path.grid;
    let one = at_end(path.ends.n0, limits.start.minimum);
    let two = at_end(path.ends.n1, limits.end.minimum);
    // By the number of a station: a closure that makes an Interval needs a clause of its own, and is no plainer.
    let three = every(path.ends.n0, path.moving(), |k| {
        let h = buffers::spacing(grid, k);
        all_finite([h, -2.0 * h])
    });
    both(both(one, two), three)
}

// The acceleration rows: those of the stations that move on both sides stand one after another in the tables, so the scan goes over places of these.
#[tactic(auto, unfolding(model::specs::Problem::stop))]
fn acceleration(rows: AccelerationRows) -> bool
    ensures { result ≡ finite_bands (list (acceleration_rows (path_of rows.entry.path) (acc_of rows.entry.tables)) (rows.entry.path.ends.n0 + 1) (m (path_of rows.entry.path) - 1)) }
{
    let tables = rows.tables;
    let first = acc_jerk::offset(tables.rows, rows.path.ends.n0 + 1);
    let last = acc_jerk::offset(tables.rows, rows.path.stop());
    every(
        first,
        last - first,
        |k| all_finite([tables.a[k], tables.b[k], tables.max[k]]),
    )
}

// The sums of a station's jerk rows, on an interval. Of a row the sum alone: a product that is not finite makes it not finite too.
// Over places of the whole tables, as the definition of the test goes: over the station's parts it is no plainer.
fn sums(station: JerkStation, interval: Interval, form: Form) -> bool
    ensures { Each result (jerk_test form station.entry.rows.tables.b.now station.entry.rows.tables.c.now (+1 ⊘ spacing (path_of interval.entry.path) interval.entry.k)) station.entry.from (get_or station.entry.rows.tables.rows.now station.entry.k 0) }
{
    let b = station.rows.tables.b;
    let c = station.rows.tables.c;
    let r = 1.0 / interval.spacing();
    every(
        station.from,
        station.count(),
        |i| is_finite(jerk_value(form, b[i], c[i], r)),
    )
}

// The sums of a station's backward group, unless it is the first.
fn back_at(station: JerkStation) -> bool
    ensures { result ≡ back_at (path_of station.entry.rows.path) station.entry.rows.tables.b.now station.entry.rows.tables.c.now station.entry.k station.entry.from (get_or station.entry.rows.tables.rows.now station.entry.k 0) }
{
    let path = station.rows.path;
    if station.k <= path.ends.n0 {
        return true;
    }
    let k = station.k - 1;
    sums(station, Interval { path, k }, Form::Here)
}

// The sums of a station's forward group, unless it is the last.
#[tactic(auto, unfolding(model::specs::Problem::stop))]
fn ahead_at(station: JerkStation) -> bool
    ensures { result ≡ ahead_at (path_of station.entry.rows.path) station.entry.rows.tables.b.now station.entry.rows.tables.c.now station.entry.k station.entry.from (get_or station.entry.rows.tables.rows.now station.entry.k 0) }
{
    let path = station.rows.path;
    let k = station.k;
    if path.stop() <= k {
        return true;
    }
    sums(station, Interval { path, k }, Form::Ahead)
}

// Both groups of a station, and what they share. Over places of the whole tables, as in `sums`.
fn jerk_at(station: JerkStation) -> bool
    ensures { result ≡ finite_bands (jerk_rows_at (path_of station.entry.rows.path) (jerk_of station.entry.rows.tables) station.entry.k) }
{
    let tables = station.rows.tables;
    let shared = every(
        station.from,
        station.count(),
        |i| all_finite([tables.a[i], tables.max[i]]),
    );
    both(shared, both(back_at(station), ahead_at(station)))
}

// The jerk rows of all moving stations. Where a station's numbers begin goes on with each, so a loop carries it: a `scan` is no plainer.
#[tactic(auto, unfolding(model::specs::Problem::m, model::specs::Problem::stop))]
fn jerk(rows: JerkRows) -> bool
    ensures { result ≡ finite_bands (over (jerk_rows_at (path_of rows.entry.path) (jerk_of rows.entry.tables)) rows.entry.path.ends.n0 (m (path_of rows.entry.path) + 1)) }
{
    let first = rows.path.ends.n0;
    let last = rows.path.stop();
    let mut from = acc_jerk::offset(rows.tables.rows, first);
    let mut ok = true;
    // Over the stations' numbers: a JerkStation is told by its own.
    for k in first..last + 1 {
        ok = both(ok, jerk_at(JerkStation { rows, k, from }));
        from = from + rows.tables.rows[k] as usize;
    }
    ok
}

// The numbers of modules 2 to 4.
pub fn standard_rows(input: StandardInput) -> bool
    ensures { result ≡ finite_cones (cones_of input.entry) }
{
    let one = equalities(input.path, input.boundary);
    let two = first_order(input.limits());
    let three = acceleration(input.acceleration_rows());
    let four = jerk(input.jerk_rows());
    both(one, both(both(two, three), four))
}
