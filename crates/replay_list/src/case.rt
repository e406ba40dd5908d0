// Replays a case: decodes it, calls sizing and the assembly, and compares.
ghost use Rattle.std.specs.Prelude.{◌≡◌, true, ◌≤◌, get_or};
ghost use Rattle.replay_list.specs.File.{item_at};
ghost use Rattle.replay_list.specs.Format.{sizing_at, assembly_at, index_written, case_end};
ghost use Rattle.replay_list.specs.Decoded.{problem_of};
ghost use Rattle.replay_list.specs.Agreement.{assembled, lent_buffers, LentFit, ResultAgrees, Agrees, ToldOf};

use crate::arrays::{Arrays, held_at};
use crate::compare::Element;
use crate::decoded::{Decoded, decode};
use crate::file::{Place, past};
use crate::layout::{Case, laid_out};
use crate::{input, lent};
use copp3_c::AnswerRecord;

// What was found: the case's group, whether all agrees, which is None where the case is not whole,
// that is where not all its bytes are at hand, and where the next case begins.
#[derive(Clone, Copy)]
pub struct Replayed {
    pub group: u8,
    pub agrees: Option<bool>,
    pub next: usize,
}

#[tactic(auto, unfolding(crate::specs::Format::sizing_at))]
fn sizing_at(answers: Place<'_>) -> AnswerRecord
    ensures { result ≡ sizing_at answers.entry.list.now answers.entry.at }
{
    AnswerRecord {
        number: answers.item(0),
        place: answers.item(1),
        entries: answers.item(2),
        rows: answers.item(3),
        cones: answers.item(4),
        columns: answers.item(5),
    }
}

// The assembly's answer has sizing's counts where it accepts.
#[tactic(auto, unfolding(crate::specs::Format::assembly_at, crate::specs::Format::sizing_at))]
fn assembly_at(answers: Place<'_>) -> AnswerRecord
    ensures { result ≡ assembly_at answers.entry.list.now answers.entry.at }
{
    let number = answers.item(6);
    let place = answers.item(7);
    if number == 0 {
        return AnswerRecord {
            number,
            place,
            ..sizing_at(answers)
        };
    }
    AnswerRecord {
        number,
        place,
        entries: 0,
        rows: 0,
        cones: 0,
        columns: 0,
    }
}

// How many places of the index are written: eight for each objective and for the two owners before them.
#[tactic(auto, unfolding(crate::specs::Format::index_written))]
fn index_written(count: usize, answer: AnswerRecord) -> usize
    ensures { result ≡ index_written count answer }
{
    if answer.number == 0 {
        past(16, count, 8)
    } else {
        0
    }
}

// Calls the assembly, into the fronts of new arrays, as long as the list says, and compares.
// The fact on the lengths stays a `requires`: with a struct that holds their place and the fact, it would have to be said here that this place is the case's own.
fn assembly_agrees(case: &Case<'_>, decoded: &Decoded) -> bool
    requires { LentFit case.now.start.list.now case.now.places.lengths }
    ensures { result ≡ true → ResultAgrees case.now.start.list.now case.now.places decoded.now.job.count (item_at case.now.start.list.now case.now.places.lengths) (assembled decoded.now.job decoded.now.records (problem_of decoded.now) (lent_buffers case.now.start.list.now case.now.places.lengths)) }
{
    let lengths = case.start.to(case.places.lengths);
    // Locals and no fields of a struct: where the front of a field is lent, as `&mut arrays.rows[..n]`,
    // nothing is known of that field after the call.
    let mut rows = [usize::BEFORE; 128];
    let mut columns = [usize::BEFORE; 128];
    let mut values = [f64::BEFORE; 128];
    let mut right = [f64::BEFORE; 128];
    let mut kinds = [u8::BEFORE; 128];
    let mut dimensions = [usize::BEFORE; 128];
    let mut cost = [f64::BEFORE; 128];
    let mut index = [usize::BEFORE; 160];
    let answer = copp3_c::copp3_assemble(
        decoded.job,
        decoded.records,
        decoded.list(0),
        decoded.table0(),
        decoded.table1(),
        decoded.list(3),
        decoded.list(4),
        decoded.list(5),
        decoded.list(6),
        decoded.list(7),
        decoded.list(8),
        decoded.list(9),
        decoded.list(10),
        decoded.list(11),
        decoded.list(12),
        decoded.list(13),
        decoded.list(14),
        decoded.list(15),
        decoded.list(16),
        decoded.list(17),
        &mut rows[..lengths.item(0)],
        &mut columns[..lengths.item(1)],
        &mut values[..lengths.item(2)],
        &mut right[..lengths.item(3)],
        &mut kinds[..lengths.item(4)],
        &mut dimensions[..lengths.item(5)],
        &mut cost[..lengths.item(6)],
        &mut index[..lengths.item(7)],
    );
    let arrays = Arrays {
        rows: &rows,
        columns: &columns,
        values: &values,
        right: &right,
        kinds: &kinds,
        dimensions: &dimensions,
        cost: &cost,
        index: &index,
    };
    let expected = assembly_at(case.start.to(case.places.answers));
    let written = index_written(decoded.job.count, expected);
    let held = case.start.to(case.places.held);
    answer == expected && arrays.agree(held, expected, written)
}

// Whether the buffers' lengths are within the arrays here.
fn buffers_fit(lengths: Place<'_>) -> bool
    ensures { result ≡ true → LentFit lengths.entry.list.now lengths.entry.at }
{
    (0..7).all(|k| lengths.item(k) <= 128) && lengths.item(7) <= 160
}

// Whether the case is within the arrays here.
fn fits(case: &Case<'_>) -> bool
    ensures { result ≡ true → (get_or case.now.starts 18 0 ≤ 128) × (case.now.places.end ≤ 64) × LentFit case.now.start.list.now case.now.places.lengths }
{
    case.starts[18] <= 128
        && case.places.end <= 64
        && input::length_at(case.start, 18) <= 16
        && buffers_fit(case.start.to(case.places.lengths))
}

fn case_agrees(case: &Case<'_>) -> bool
    ensures { result ≡ true → Agrees case.now.start.list.now case.now.start.at }
{
    if !fits(case) {
        return false;
    }
    let decoded = decode(case);
    let sized = sizing_at(case.start.to(case.places.answers));
    lent::size(&decoded) == sized && assembly_agrees(case, &decoded)
}

// Where the next case begins, which the list's own numbers say.
#[tactic(auto, unfolding(crate::specs::Format::case_end))]
fn end_of(case: &Case<'_>) -> usize
    ensures { result ≡ case_end case.now.start.list.now case.now.start.at }
{
    let answer = assembly_at(case.start.to(case.places.answers));
    let written = index_written(input::count_at(case.start, 3), answer);
    held_at(case.places.held, answer, written).end
}

// The case that begins at `at`.
#[tactic(auto, using(crate::proofs::Decoding::cut_off, crate::proofs::Decoding::at_hand))]
pub fn replay_case(s: &[u8], at: usize) -> Replayed
    ensures { ToldOf s.now at result }
{
    let start = Place { list: s, at };
    let case = laid_out(start);
    let group = start.byte();
    let next = end_of(&case);
    if s.len() < next {
        return Replayed {
            group,
            agrees: None,
            next,
        };
    }
    let agrees = case_agrees(&case);
    Replayed {
        group,
        agrees: Some(agrees),
        next,
    }
}
