// The arrays whose fronts are lent to the assembly, and whether they hold what the list says.
ghost use Rattle.std.specs.Prelude.{◌≡◌, true};
ghost use Rattle.replay_list.specs.Format.{held_at};
ghost use Rattle.replay_list.specs.Agreement.{places_here, BuffersHold};
ghost use Rattle.replay_list.specs.Arrays.{held_in};

use crate::compare::agrees;
use crate::file::{Place, past};
use copp3_c::AnswerRecord;

// By reference: an array that is moved is copied.
#[derive(Clone, Copy)]
pub struct Arrays<'a> {
    pub rows: &'a [usize; 128],
    pub columns: &'a [usize; 128],
    pub values: &'a [f64; 128],
    pub right: &'a [f64; 128],
    pub kinds: &'a [u8; 128],
    pub dimensions: &'a [usize; 128],
    pub cost: &'a [f64; 128],
    pub index: &'a [usize; 160],
}

// Where what the buffers hold begins, after the rows, and where it ends.
#[derive(Clone, Copy)]
pub struct Held {
    pub columns: usize,
    pub values: usize,
    pub right: usize,
    pub kinds: usize,
    pub dimensions: usize,
    pub cost: usize,
    pub index: usize,
    pub end: usize,
}

#[tactic(auto, unfolding(crate::specs::Format::held_at))]
pub fn held_at(at: usize, counts: AnswerRecord, written: usize) -> Held
    ensures { result ≡ held_at at counts written }
{
    let columns = past(at, counts.entries, 8);
    let values = past(columns, counts.entries, 8);
    let right = past(values, counts.entries, 8);
    let kinds = past(right, counts.rows, 8);
    let dimensions = past(kinds, counts.cones, 1);
    let cost = past(dimensions, counts.cones, 8);
    let index = past(cost, counts.columns, 8);
    let end = past(index, written, 8);
    Held {
        columns,
        values,
        right,
        kinds,
        dimensions,
        cost,
        index,
        end,
    }
}

impl Arrays<'_> {
    // Whether the arrays hold what the list says from a place on, for the counts of an answer and so
    // many places of the index.
    #[tactic(auto, using(crate::proofs::Laws::float_before))]
    pub fn agree(&self, rows: Place<'_>, counts: AnswerRecord, written: usize) -> bool
        ensures { result ≡ true → BuffersHold rows.entry.list.now rows.entry.at counts written places_here (held_in self.now) }
    {
        let held = held_at(rows.at, counts, written);
        // Taken apart first: the check does not cover a reference that is lent as a slice right from its field.
        let Arrays {
            rows: row_numbers,
            columns,
            values,
            right,
            kinds,
            dimensions,
            cost,
            index,
        } = *self;
        agrees(row_numbers, rows, counts.entries)
            && agrees(columns, rows.to(held.columns), counts.entries)
            && agrees(values, rows.to(held.values), counts.entries)
            && agrees(right, rows.to(held.right), counts.rows)
            && agrees(kinds, rows.to(held.kinds), counts.cones)
            && agrees(dimensions, rows.to(held.dimensions), counts.cones)
            && agrees(cost, rows.to(held.cost), counts.columns)
            && agrees(index, rows.to(held.index), written)
    }
}
