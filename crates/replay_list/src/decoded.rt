// A case's problem as it was read.
ghost use Rattle.std.specs.Prelude.{◌≡◌, ◌≤◌, ◌<◌, get_or};
ghost use Rattle.replay_list.specs.Format.{part, list_in, job_at, records_at, problem_at};
ghost use Rattle.replay_list.specs.Decoded.{problem_of};

use crate::input;
use crate::layout::Case;
use copp3_c::ObjectiveRecords;
use model::Job;

// The job and the records, all floats with where each list of them begins and the last ends, and the
// numbers of tables 0 and 1, of which table 0 ends at `split` and table 1 at `end`. The arrays are the
// case's own, since nothing here is on a heap, and a struct cannot lend parts of itself to itself: so
// the parts go by where they begin and end, and are lent by the methods.
#[derive(Clone, Copy)]
pub struct Decoded {
    pub job: Job,
    pub records: ObjectiveRecords,
    pub floats: [f64; 128],
    pub starts: [usize; 19],
    pub numbers: [u32; 64],
    pub split: usize,
    pub end: usize,
}

// Elements from a place to another, and none where the second is past the end.
#[tactic(auto, unfolding(crate::specs::Format::part))]
fn part<T>(s: &[T], from: usize, to: usize) -> &[T]
    ensures { result.now ≡ part s.now from to }
{
    s.get(from..to).unwrap_or(&s[..0])
}

impl Decoded {
    // List k of the floats, from starts[k] to starts[k + 1].
    pub fn list(&self, k: usize) -> &[f64]
        requires { k < 18 }
        ensures { result.now ≡ list_in self.now.floats self.now.starts k }
    {
        part(&self.floats, self.starts[k], self.starts[k + 1])
    }

    // Tables 0 and 1.
    pub fn table0(&self) -> &[u32]
        ensures { result.now ≡ part self.now.numbers 0 self.now.split }
    {
        part(&self.numbers, 0, self.split)
    }

    pub fn table1(&self) -> &[u32]
        ensures { result.now ≡ part self.now.numbers self.now.split self.now.end }
    {
        part(&self.numbers, self.split, self.end)
    }
}

pub fn decode(case: &Case<'_>) -> Decoded
    requires floats_fit { get_or case.now.starts 18 0 ≤ 128 }
    requires numbers_fit { case.now.places.end ≤ 64 }
    ensures job_read { result.job ≡ job_at case.now.start.list.now case.now.start.at }
    ensures records_read { result.records ≡ records_at case.now.start.list.now case.now.start.at }
    ensures problem_read { problem_of result ≡ problem_at case.now.start.list.now case.now.start.at }
{
    let start = case.start;
    let places = case.places;
    let starts = case.starts;
    Decoded {
        job: input::job_at(start),
        records: input::records_at(start.to(places.records), input::length_at(start, 18)),
        floats: input::read_floats(start.to(places.grid), places.tables, starts[1]),
        starts,
        numbers: input::read_numbers(start.to(places.numbers)),
        split: places.split,
        end: places.end,
    }
}
