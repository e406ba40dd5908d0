// Acceleration and jerk rows.

#![tactic(auto)]

mod acceleration;
mod jerk;
mod station;

ghost use Rattle.std.specs.Prelude.{◌≡◌, [], ◌∷◌, ◌+◌, ◌-◌, ◌*◌, ◌^◌, ◌<◌, ◌≤◌, ltb, length, get_or, take};
ghost use Rattle.model.specs.Numbers.{at};
ghost use Rattle.model.specs.Lists.{list, over, given, total};
ghost use Rattle.model.specs.Problem.{m, stop};
ghost use Rattle.model.specs.Program.{cell};
ghost use Rattle.model.specs.Standard.{acceleration_rows, backward_rows, forward_rows, jerk_rows_at};
ghost use Rattle.acc_jerk.specs.Tables.{acc_of, jerk_of, Few, jerk_value, jerk_band};
ghost use Rattle.buffers.specs.Bounds.{acceleration_room, jerk_room};
ghost use Rattle.buffers.specs.Buffers.{Wrote, Fills};
ghost use Rattle.buffers.specs.Lent.{Room, RoomFrom};
ghost use Rattle.buffers.specs.Paths.{path_of};

pub use acceleration::AccelerationRows;
use buffers::Interval;
use columns::{column_a, column_b};
pub use jerk::JerkRows;
use model::{Buffers, Column, Row, Tally, Term};
pub use station::JerkStation;

// Where station k's part of the tables begins.
pub fn offset(counts: &[u32], k: usize) -> usize
    requires { (k ≤ length counts.now) × (total counts.now < 2 ^ 64) }
    ensures { result ≡ total (take k counts.now) }
{
    numbers::total(&counts[..k])
}

// A column that holds these numbers.
fn column_table(t: Tally, out: &mut Buffers, row: Row, col: Column, numbers: &[f64]) -> Tally
    requires { RoomFrom t row.at (length numbers.now) }
    ensures { Fills t out.old result out.new row.at (λ i. cell col.at (at numbers.now i)) (length numbers.now) }
{
    buffers::fill(t, out, row, numbers.len(), |i| Term { col, v: numbers[i] })
}

// The rows of station k, whose numbers stand in the tables from `from` on.
fn acceleration_at(
    t: Tally,
    out: &mut Buffers,
    rows: AccelerationRows,
    k: usize,
    from: usize,
) -> Tally
    requires { Room t (get_or rows.tables.rows.now k 0) × (from ≡ total (take k rows.tables.rows.now)) × (k < length rows.path.grid.now) × (from + get_or rows.tables.rows.now k 0 ≤ length rows.tables.a.now) }
    ensures { Wrote t out.old result out.new (acceleration_rows (path_of rows.entry.path) (acc_of rows.entry.tables) k ∷ []) (get_or rows.entry.tables.rows.now k 0) }
{
    let tables = rows.tables;
    let count = tables.rows[k] as usize;
    let end = from + count;
    let row = t.rows;
    let a = column_a(k);
    let b = column_b(rows.path.grid, k);
    let u = column_table(t, out, row, a, &tables.a[from..end]);
    let u = column_table(u, out, row, b, &tables.b[from..end]);
    let max = &tables.max[from..end];
    buffers::fill_right(u, out, count, |i| max[i])
}

// The acceleration rows of the stations that move on both sides.
#[tactic(auto, unfolding(model::specs::Problem::m, model::specs::Problem::stop))]
pub fn clarabel_2order_constraint_topp3(
    t: Tally,
    out: &mut Buffers,
    rows: AccelerationRows,
) -> Tally
    requires { Room t (acceleration_room (length rows.path.grid.now)) × Few rows.tables.rows.now }
    ensures { Wrote t out.old result out.new (list (acceleration_rows (path_of rows.entry.path) (acc_of rows.entry.tables)) (rows.entry.path.ends.n0 + 1) (m (path_of rows.entry.path) - 1)) (acceleration_room (length rows.entry.path.grid.now)) }
{
    let first = rows.path.ends.n0 + 1;
    let mut from = offset(rows.tables.rows, first);
    let mut u = t;
    // Over the stations' numbers: a column is told by its station's, and where its part of the tables begins goes on with it, so no chain is plainer.
    for k in first..rows.path.stop() {
        u = acceleration_at(u, out, rows, k, from);
        from = from + rows.tables.rows[k] as usize;
    }
    u
}

// Which number of a jerk row.
#[derive(Clone, Copy)]
pub enum Form {
    Back,
    Here,
    Ahead,
    Next,
}

// That number, of b and c and r = 1/spacing.
pub fn jerk_value(form: Form, b: f64, c: f64, r: f64) -> f64
    ensures { result ≡ jerk_value form b c r }
{
    match form {
        Form::Back => (-c) * r,
        Form::Here => b + c * r,
        Form::Ahead => b - c * r,
        Form::Next => c * r,
    }
}

// A column that holds b and c in one form. Beside `column_table` it stays: both are one `fill`, and what they have in common is that call.
fn column_jerk(
    t: Tally,
    out: &mut Buffers,
    row: Row,
    col: Column,
    station: JerkStation,
    form: Form,
    r: f64,
) -> Tally
    requires { RoomFrom t row.at (get_or station.rows.tables.rows.now station.k 0) }
    ensures { Fills t out.old result out.new row.at (λ i. cell col.at (jerk_value form (at station.entry.rows.tables.b.now (station.entry.from + i)) (at station.entry.rows.tables.c.now (station.entry.from + i)) r)) (get_or station.entry.rows.tables.rows.now station.entry.k 0) }
{
    let b = station.part(station.rows.tables.b);
    let c = station.part(station.rows.tables.c);
    buffers::fill(
        t,
        out,
        row,
        station.count(),
        |i| Term {
            col,
            v: jerk_value(form, b[i], c[i], r),
        },
    )
}

// The rows of a station on an interval: their forms at its first station and at the next.
fn group(
    t: Tally,
    out: &mut Buffers,
    station: JerkStation,
    interval: Interval,
    near: Form,
    far: Form,
) -> Tally
    requires { Room t (get_or station.rows.tables.rows.now station.k 0) }
    ensures { Wrote t out.old result out.new (jerk_band (path_of interval.entry.path) (jerk_of station.entry.rows.tables) station.entry.k interval.entry.k near far ∷ []) (get_or station.entry.rows.tables.rows.now station.entry.k 0) }
{
    let tables = station.rows.tables;
    let grid = interval.path.grid;
    let row = t.rows;
    let r = 1.0 / interval.spacing();
    let a = column_a(station.k);
    let b = column_b(grid, interval.k);
    let next = column_b(grid, interval.k + 1);
    let u = column_table(t, out, row, a, station.part(tables.a));
    let u = column_jerk(u, out, row, b, station, near, r);
    let u = column_jerk(u, out, row, next, station, far, r);
    let max = station.part(tables.max);
    buffers::fill_right(u, out, station.count(), |i| max[i])
}

// The backward group of a station, unless it is the first.
fn backward(t: Tally, out: &mut Buffers, station: JerkStation) -> Tally
    requires { Room t (get_or station.rows.tables.rows.now station.k 0) }
    ensures { Wrote t out.old result out.new (given (ltb station.entry.rows.path.ends.n0 station.entry.k) (backward_rows (path_of station.entry.rows.path) (jerk_of station.entry.rows.tables) station.entry.k ∷ [])) (get_or station.entry.rows.tables.rows.now station.entry.k 0) }
{
    let path = station.rows.path;
    if station.k <= path.ends.n0 {
        return t;
    }
    let k = station.k - 1;
    group(
        t,
        out,
        station,
        Interval { path, k },
        Form::Back,
        Form::Here,
    )
}

// The forward group of a station, unless it is the last.
fn forward(t: Tally, out: &mut Buffers, station: JerkStation) -> Tally
    requires { Room t (get_or station.rows.tables.rows.now station.k 0) }
    ensures { Wrote t out.old result out.new (given (ltb station.entry.k (stop (path_of station.entry.rows.path))) (forward_rows (path_of station.entry.rows.path) (jerk_of station.entry.rows.tables) station.entry.k ∷ [])) (get_or station.entry.rows.tables.rows.now station.entry.k 0) }
{
    let path = station.rows.path;
    let k = station.k;
    if path.stop() <= k {
        return t;
    }
    group(
        t,
        out,
        station,
        Interval { path, k },
        Form::Ahead,
        Form::Next,
    )
}

// Both groups of a station.
fn jerk_at(t: Tally, out: &mut Buffers, station: JerkStation) -> Tally
    requires { Room t (2 * get_or station.rows.tables.rows.now station.k 0) }
    ensures { Wrote t out.old result out.new (jerk_rows_at (path_of station.entry.rows.path) (jerk_of station.entry.rows.tables) station.entry.k) (2 * get_or station.entry.rows.tables.rows.now station.entry.k 0) }
{
    let u = backward(t, out, station);
    forward(u, out, station)
}

// The jerk rows of all moving stations.
#[tactic(auto, unfolding(model::specs::Problem::m, model::specs::Problem::stop))]
pub fn clarabel_3order_constraint_topp3(t: Tally, out: &mut Buffers, rows: JerkRows) -> Tally
    requires { Room t (jerk_room (length rows.path.grid.now)) × Few rows.tables.rows.now }
    ensures { Wrote t out.old result out.new (over (jerk_rows_at (path_of rows.entry.path) (jerk_of rows.entry.tables)) rows.entry.path.ends.n0 (m (path_of rows.entry.path) + 1)) (jerk_room (length rows.entry.path.grid.now)) }
{
    let first = rows.path.ends.n0;
    let mut from = offset(rows.tables.rows, first);
    let mut u = t;
    // Over the stations' numbers: a JerkStation is told by its own, and where its part of the tables begins goes on with it, so no chain is plainer.
    for k in first..rows.path.stop() + 1 {
        u = jerk_at(u, out, JerkStation { rows, k, from });
        from = from + rows.tables.rows[k] as usize;
    }
    u
}
