// Decodes a case's problem.
ghost use Rattle.std.specs.Prelude.{◌≡◌, cond};
ghost use Rattle.replay_list.specs.File.{item_at};
ghost use Rattle.replay_list.specs.Format.{each, count_at, bound_at, job_at, length_at, floats_of, starts_at, places_at, float_number, record_at, record_or_none, records_from};

use crate::file::{Place, past};
use copp3_c::{ObjectiveRecord, ObjectiveRecords};
use model::{Boundary, Bounds, Ends, Job};
use std::array::from_fn;

// Where the parts of a case begin: the grid, tables 0 and 1, the grid as if the other tables came
// right after it, the records, the buffers' lengths, the answers, and what the buffers hold. Table 0
// ends at `split` among the numbers of tables 0 and 1, and table 1 at `end`.
#[derive(Clone, Copy)]
pub struct Places {
    pub grid: usize,
    pub numbers: usize,
    pub tables: usize,
    pub records: usize,
    pub lengths: usize,
    pub answers: usize,
    pub held: usize,
    pub split: usize,
    pub end: usize,
}

pub fn count_at(start: Place<'_>, i: usize) -> usize
    ensures { result ≡ count_at start.entry.list.now start.entry.at i }
{
    start.past(1, 1).past(i, 8).long() as usize
}

fn bound_at(start: Place<'_>, i: usize) -> f64
    ensures { result ≡ bound_at start.entry.list.now start.entry.at i }
{
    start.past(33, 1).past(i, 8).float()
}

// A length of the case: of the grid at 0, of table k at k + 1, of the pool at 17, of the records at 18.
pub fn length_at(start: Place<'_>, k: usize) -> usize
    ensures { result ≡ length_at start.entry.list.now start.entry.at k }
{
    start.past(97, 1).item(k)
}

#[tactic(auto, unfolding(crate::specs::Format::job_at))]
pub fn job_at(start: Place<'_>) -> Job
    ensures { result ≡ job_at start.entry.list.now start.entry.at }
{
    let boundary = Boundary {
        a0: bound_at(start, 0),
        a1: bound_at(start, 1),
        b0: bound_at(start, 2),
        b1: bound_at(start, 3),
    };
    let first = Bounds {
        maximum: bound_at(start, 4),
        minimum: bound_at(start, 5),
    };
    let last = Bounds {
        maximum: bound_at(start, 6),
        minimum: bound_at(start, 7),
    };
    let ends = Ends {
        n0: count_at(start, 1),
        n1: count_at(start, 2),
    };
    Job {
        boundary,
        start: first,
        end: last,
        ends,
        d: count_at(start, 0),
        count: count_at(start, 3),
    }
}

// How many floats list k has: tables 0 and 1 have none.
#[tactic(auto, unfolding(crate::specs::Format::floats_of))]
fn floats_of(start: Place<'_>, k: usize) -> usize
    ensures { result ≡ floats_of start.entry.list.now start.entry.at k }
{
    match k {
        1 | 2 => 0,
        _ => length_at(start, k),
    }
}

// Where each list of floats begins among all floats of the case, and where the last ends.
pub fn starts_at(start: Place<'_>) -> [usize; 19]
    ensures { result ≡ starts_at start.entry.list.now start.entry.at }
{
    let mut starts = [0; 19];
    // A range: each start is found from the one before it, which a `scan` or a `from_fn` would have to
    // carry by hand.
    for k in 0..18 {
        starts[k + 1] = past(starts[k], floats_of(start, k), 1);
    }
    starts
}

#[tactic(auto, using(crate::proofs::Decoding::started), unfolding(crate::specs::Format::places_at, crate::specs::Format::numbers_place, crate::specs::Format::numbers_end, crate::specs::Format::tables_place, crate::specs::Format::records_place, crate::specs::Format::lengths_place))]
pub fn places_at(start: Place<'_>, starts: &[usize; 19]) -> Places
    requires { starts.now ≡ starts_at start.list.now start.at }
    ensures { result ≡ places_at start.entry.list.now start.entry.at }
{
    let grid = past(start.at, 173, 1);
    let numbers = past(grid, starts[1], 8);
    let split = length_at(start, 1);
    let end = past(split, length_at(start, 2), 1);
    let tables = past(grid, end, 4);
    let records = past(tables, starts[18], 8);
    let lengths = past(records, length_at(start, 18), 41);
    let answers = past(lengths, 32, 1);
    let held = past(answers, 32, 1);
    Places {
        grid,
        numbers,
        tables,
        records,
        lengths,
        answers,
        held,
        split,
        end,
    }
}

// Float i in the list's order: the first ones are the grid's, which begins at one place; the others
// follow from another on, past the numbers of tables 0 and 1.
#[tactic(auto, unfolding(crate::specs::Format::float_number))]
fn float_number(grid: Place<'_>, tables: usize, first: usize, i: usize) -> f64
    ensures { result ≡ float_number grid.entry.list.now grid.entry.at tables first i }
{
    if i < first {
        grid.past(i, 8).float()
    } else {
        grid.to(tables).past(i, 8).float()
    }
}

pub fn read_floats(grid: Place<'_>, tables: usize, first: usize) -> [f64; 128]
    ensures { result ≡ each (float_number grid.entry.list.now grid.entry.at tables first) 128 }
{
    from_fn(|i| float_number(grid, tables, first, i))
}

pub fn read_numbers(from: Place<'_>) -> [u32; 64]
    ensures { result ≡ each (item_at from.entry.list.now from.entry.at) 64 }
{
    from_fn(|i| from.past(i, 4).short())
}

#[tactic(auto, unfolding(crate::specs::Format::record_at))]
fn record_at(from: Place<'_>) -> ObjectiveRecord
    ensures { result ≡ record_at from.entry.list.now from.entry.at }
{
    ObjectiveRecord {
        kind: u64::from(from.byte()),
        weight: from.past(1, 1).float(),
        start: from.past(9, 1).long() as usize,
        len: from.past(17, 1).long() as usize,
        start2: from.past(25, 1).long() as usize,
        len2: from.past(33, 1).long() as usize,
    }
}

// Record i of the n at a place, and past these Time of weight 0, which nothing looks at.
#[tactic(auto, unfolding(crate::specs::Format::record_or_none))]
fn record_or_none(from: Place<'_>, n: usize, i: usize) -> ObjectiveRecord
    ensures { result ≡ record_or_none from.entry.list.now from.entry.at n i }
{
    if n <= i {
        return ObjectiveRecord {
            kind: 0,
            weight: 0.0,
            start: 0,
            len: 0,
            start2: 0,
            len2: 0,
        };
    }
    record_at(from.past(i, 41))
}

pub fn records_at(from: Place<'_>, n: usize) -> ObjectiveRecords
    ensures { result ≡ records_from from.entry.list.now from.entry.at n }
{
    ObjectiveRecords {
        items: from_fn(|i| record_or_none(from, n, i)),
    }
}
