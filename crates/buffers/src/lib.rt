// The writers that every stage uses: entries, rows, cones and cost, at the tally's places. A store past a buffer's end is left out.
// The tally and the buffers are two parameters of each writer here and in every stage: document 01 names the by-value tally, and a struct of both would lend the tally too.
// The loops of the stages are a `for` whose turn is one call. A function that took the call would ask, turn by turn, for room in the tally and how far it moves, and would stand twice, for rows and for cones: no plainer.

#![tactic(auto)]

mod interval;
mod path;

ghost use Rattle.std.specs.Prelude.{◌≡◌, [], ◌∷◌, ◌+◌, ◌-◌, ◌*◌, ◌^◌, ◌<◌, ◌≤◌, ℕ, Float, min, length, set};
ghost use Rattle.std.proofs.lemmas.List.Edits.{sets};
ghost use Rattle.model.specs.Numbers.{at, ◌⊖◌, ◌⊗◌};
ghost use Rattle.model.specs.Lists.{list};
ghost use Rattle.model.specs.Program.{Cell, row, entry, positive_row, kind_number};
ghost use Rattle.buffers.specs.Buffers.{Puts, Fills, PutsRight, FillsRight, Wrote, PutsCone, PutsCost, FillsCost, Columns};
ghost use Rattle.buffers.specs.Lent.{Room, RoomFrom, term, row_of, constant_cells};
ghost use Rattle.buffers.specs.Owned.{PutsOwner};

pub use interval::Interval;
use model::{Buffers, Column, ConeKind, Ends, Row, Tally, Term};
pub use path::{Path, path_in};

// A store that an index past the end leaves out, as `set` of a list does.
fn store<T: Copy>(xs: &mut [T], at: usize, x: T)
    ensures { xs.new ≡ set xs.old at x }
{
    if at < xs.len() {
        xs[at] = x;
    }
}

// count stores from a place on.
fn store_each<T: Copy, F: Fn(usize) -> T>(xs: &mut [T], at: usize, count: usize, value_at: F)
    requires room { at + count < 2 ^ 64 }
    requires callable { (i : ℕ) → i < count → F.pre value_at i }
    ensures { (f : ℕ → T) → ((i : ℕ) (x : T) → i < count → F.post value_at i x → x ≡ f i) → xs.new ≡ sets xs.old at (list f 0 count) }
{
    // Over numbers: the value is told by its number, and the store's place is one that need not be in the slice.
    for i in 0..count {
        store(xs, at + i, value_at(i));
    }
}

// The index of the owner being written, whose block began at tally t and ended at u: the firsts, then the lengths. Then the next owner is written.
pub fn put_owner(t: Tally, u: Tally, out: &mut Buffers) -> Tally
    requires { (t.entries ≤ u.entries) × (t.rows.at ≤ u.rows.at) × (t.cones ≤ u.cones) × (t.columns.at ≤ u.columns.at) × (t.owner < 2 ^ 60) }
    ensures { PutsOwner t u out.old result out.new }
{
    let eight = [
        t.entries,
        t.rows.at,
        t.cones,
        t.columns.at,
        u.entries - t.entries,
        u.rows.at - t.rows.at,
        u.cones - t.cones,
        u.columns.at - t.columns.at,
    ];
    store_each(out.index, 8 * t.owner, 8, |i| eight[i]);
    Tally {
        owner: t.owner + 1,
        ..u
    }
}

// One entry more.
pub fn put(t: Tally, out: &mut Buffers, row: Row, p: Term) -> Tally
    requires { t.entries + 1 < 2 ^ 64 }
    ensures { Puts t out.old result out.new (entry row.at (term p)) }
{
    let at = t.entries;
    store(out.rows, at, row.at);
    store(out.columns, at, p.col.at);
    store(out.values, at, p.v);
    Tally {
        entries: at + 1,
        ..t
    }
}

// One right side more. Beside put_cost it stays: what the two have in common is `store`.
pub fn put_right(t: Tally, out: &mut Buffers, x: f64) -> Tally
    requires { t.rows.at + 1 < 2 ^ 64 }
    ensures { PutsRight t out.old result out.new x }
{
    let at = t.rows.at;
    store(out.right, at, x);
    let next = Row { at: at + 1 };
    Tally { rows: next, ..t }
}

// One cone more. The kind is a byte, which is what the buffer holds, and any byte was taken from the start; close_cone takes a ConeKind.
pub fn put_cone(t: Tally, out: &mut Buffers, kind: u8, dim: usize) -> Tally
    requires { t.cones + 1 < 2 ^ 64 }
    ensures { PutsCone t out.old result out.new kind dim }
{
    let at = t.cones;
    store(out.kinds, at, kind);
    store(out.dimensions, at, dim);
    Tally { cones: at + 1, ..t }
}

// The cone of all rows that were written since a row: its kind as a byte.
pub fn close_cone(t: Tally, out: &mut Buffers, kind: ConeKind, first: Row) -> Tally
    requires { (t.cones + 1 < 2 ^ 64) × (first.at ≤ t.rows.at) }
    ensures { PutsCone t out.old result out.new (kind_number kind) (t.rows.at - first.at) }
{
    put_cone(t, out, kind as u8, t.rows.at - first.at)
}

// The cost of one column more.
pub fn put_cost(t: Tally, out: &mut Buffers, x: f64) -> Tally
    requires { t.columns.at + 1 < 2 ^ 64 }
    ensures { PutsCost t out.old result out.new x }
{
    let at = t.columns.at;
    store(out.cost, at, x);
    let next = Column { at: at + 1 };
    Tally { columns: next, ..t }
}

// Entries of one row.
fn put_all<const N: usize>(t: Tally, out: &mut Buffers, row: Row, terms: [Term; N]) -> Tally
    requires { t.entries + N < 2 ^ 64 }
    ensures { Columns t out.old result out.new row.at (constant_cells terms.entry) 1 }
{
    let mut u = t;
    for p in &terms {
        u = put(u, out, row, *p);
    }
    u
}

// A row of at most five entries.
pub fn row<const N: usize>(t: Tally, out: &mut Buffers, x: f64, terms: [Term; N]) -> Tally
    requires { Room t 1 × (N ≤ 5) }
    ensures { Wrote t out.old result out.new (row_of x terms.entry ∷ []) 1 }
{
    let u = put_all(t, out, t.rows, terms);
    put_right(u, out, x)
}

// count rows that say that columns are not negative, from one on.
pub fn positive(t: Tally, out: &mut Buffers, from: Column, count: usize) -> Tally
    requires { Room t count × (from.at + count < 2 ^ 64) }
    ensures { Wrote t out.old result out.new (list positive_row from.at count) count }
{
    let mut u = t;
    // Over numbers: a column's number is what a row is written from.
    for i in 0..count {
        let col = Column { at: from.at + i };
        u = row(u, out, 0.0, [Term { col, v: -1.0 }]);
    }
    u
}

// count entries one below the other, from a row on: a column of a band, or a diagonal.
pub fn fill<F: Fn(usize) -> Term>(
    t: Tally,
    out: &mut Buffers,
    row: Row,
    count: usize,
    term_at: F,
) -> Tally
    requires room { RoomFrom t row.at count }
    requires callable { (i : ℕ) → i < count → F.pre term_at i }
    ensures { (f : ℕ → Cell) → ((i : ℕ) (p : _) → i < count → F.post term_at i p → term p ≡ f i) → Fills t out.old result out.new row.at f count }
{
    let mut u = t;
    // Over numbers: entry i stands in the i-th row from `row` on.
    for i in 0..count {
        u = put(u, out, Row { at: row.at + i }, term_at(i));
    }
    u
}

// count right sides.
pub fn fill_right<F: Fn(usize) -> f64>(
    t: Tally,
    out: &mut Buffers,
    count: usize,
    side_at: F,
) -> Tally
    requires room { t.rows.at + count < 2 ^ 64 }
    requires callable { (i : ℕ) → i < count → F.pre side_at i }
    ensures { (f : ℕ → Float) → ((i : ℕ) (x : Float) → i < count → F.post side_at i x → x ≡ f i) → FillsRight t out.old result out.new f count }
{
    let at = t.rows.at;
    store_each(out.right, at, count, side_at);
    let next = Row { at: at + count };
    Tally { rows: next, ..t }
}

// The costs of count columns. Beside fill_right it stays, as put_cost does: what the two have in common is `store_each`.
pub fn fill_cost<F: Fn(usize) -> f64>(
    t: Tally,
    out: &mut Buffers,
    count: usize,
    cost_at: F,
) -> Tally
    requires room { t.columns.at + count < 2 ^ 64 }
    requires callable { (i : ℕ) → i < count → F.pre cost_at i }
    ensures { (f : ℕ → Float) → ((i : ℕ) (x : Float) → i < count → F.post cost_at i x → x ≡ f i) → FillsCost t out.old result out.new f 0 count }
{
    let at = t.columns.at;
    store_each(out.cost, at, count, cost_at);
    let next = Column { at: at + count };
    Tally { columns: next, ..t }
}

// How many ends are positive.
pub fn positive_ends(ends: Ends) -> usize
    ensures { result ≡ min ends.n0 1 + min ends.n1 1 }
{
    ends.n0.min(1) + ends.n1.min(1)
}

// The spacing from station k to the next, for who has a grid alone, and in a closure, where an Interval's fact would be one more clause.
pub fn spacing(grid: &[f64], k: usize) -> f64
    requires { k + 1 < length grid.now }
    ensures { result ≡ at grid.now (k + 1) ⊖ at grid.now k }
{
    grid[k + 1] - grid[k]
}

// A number of a table, weighted.
pub fn weighted(weight: f64, table: &[f64], k: usize) -> f64
    requires { k < length table.now }
    ensures { result ≡ weight ⊗ at table.now k }
{
    weight * table[k]
}
