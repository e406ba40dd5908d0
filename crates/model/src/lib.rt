// The declared types, in the forms that document 01 names. The definitions of specs/ speak of them.

#![tactic(auto)]

mod rule;

ghost use Rattle.std.specs.Prelude.{◌≡◌, Err, take};
ghost use Rattle.model.specs.Counts.{four_counts};
ghost use Rattle.model.specs.OwnerAnswers.{told_owner};

pub use rule::{Rule, err_if};

// Boundary states, in the order of refusal 1: initial a, terminal a, initial b, terminal b.
#[repr(C)]
#[derive(Clone, Copy)]
pub struct Boundary {
    pub a0: f64,
    pub a1: f64,
    pub b0: f64,
    pub b1: f64,
}

// The bounds of a stationary end.
#[repr(C)]
#[derive(Clone, Copy)]
pub struct Bounds {
    pub maximum: f64,
    pub minimum: f64,
}

// The stationary counts N0 and N1.
#[repr(C)]
#[derive(Clone, Copy)]
pub struct Ends {
    pub n0: usize,
    pub n1: usize,
}

// An objective: its weight, and the parts of the pool that hold its lists. Document 01 names the parts (start, length), so they are plain fields.
#[derive(Clone, Copy)]
pub enum Objective {
    Time(f64),
    ThermalEnergy {
        weight: f64,
        start: usize,
        len: usize,
    },
    TotalVariationTorque {
        weight: f64,
        start: usize,
        len: usize,
    },
    Linear {
        weight: f64,
        alpha: usize,
        alpha_len: usize,
        beta: usize,
        beta_len: usize,
    },
}

// What a job says beside its lists: boundary states, stationary bounds and counts, the dimension d, how many of the 16 objectives count.
#[repr(C)]
#[derive(Clone, Copy)]
pub struct Job {
    pub boundary: Boundary,
    pub start: Bounds,
    pub end: Bounds,
    pub d: usize,
    pub ends: Ends,
    pub count: usize,
}

// A row number and a column number, each of its own sort until it is stored.
#[derive(Clone, Copy, Default)]
pub struct Row {
    pub at: usize,
}

// It holds no bound: document 01 names the type, and `column_a` makes one of any number; so the contracts of what counts on from a column state it.
#[derive(Clone, Copy, Default)]
pub struct Column {
    pub at: usize,
}

// A value at a column of some row.
#[derive(Clone, Copy)]
pub struct Term {
    pub col: Column,
    pub v: f64,
}

// The running tally: entries, rows, cones and columns written so far, and the owner being written (its place in the order of the index).
#[derive(Clone, Copy, Default)]
pub struct Tally {
    pub entries: usize,
    pub rows: Row,
    pub cones: usize,
    pub columns: Column,
    pub owner: usize,
}

// The four counts that sizing answers.
#[derive(Clone, Copy, PartialEq, Eq, Debug, Default)]
pub struct FourCounts {
    pub entries: usize,
    pub rows: usize,
    pub cones: usize,
    pub columns: usize,
}

// What the tally of a whole problem counts.
impl From<Tally> for FourCounts {
    ghost from_gives = { λ t c. c ≡ four_counts t.entries t.rows.at t.cones t.columns.at };

    fn from(t: Tally) -> FourCounts {
        FourCounts {
            entries: t.entries,
            rows: t.rows.at,
            cones: t.cones,
            columns: t.columns.at,
        }
    }
}

// A refusal, and its place.
#[derive(Clone, Copy, PartialEq, Eq, Debug)]
pub struct Refusal {
    pub rule: Rule,
    pub place: usize,
}

// What a check finds: nothing to refuse, or a refusal.
pub type Verdict = Result<(), Refusal>;

// What sizing and the assembly answer.
pub type Answer = Result<FourCounts, Refusal>;

// Who owns a row or a column, in the order of the index.
#[derive(Clone, Copy, PartialEq, Eq, Debug)]
pub enum Owner {
    StandardRows,
    RootStage,
    ObjectiveNumber(usize),
}

// Refusals 28 and 29.
#[derive(Clone, Copy, PartialEq, Eq, Debug)]
pub enum OwnerRefusal {
    IndexTooShort = 28,
    NotCovered = 29,
}

impl OwnerRefusal {
    // Document 01's number.
    pub fn number(self) -> usize
        ensures { result ≡ (told_owner (Err self)).number }
    {
        self as usize
    }
}

pub type OwnerAnswer = Result<Owner, OwnerRefusal>;

// What a cone holds its slacks to: document 01's kinds 0, 1 and 2.
#[derive(Clone, Copy)]
pub enum ConeKind {
    Zero,
    Nonnegative,
    SecondOrder,
}

// Tables 0 and 3 to 5: how many acceleration rows each station has, and their numbers, station by station.
#[derive(Clone, Copy)]
pub struct Acceleration<'a> {
    pub rows: &'a [u32],
    pub a: &'a [f64],
    pub b: &'a [f64],
    pub max: &'a [f64],
}

// Tables 1 and 6 to 9, of the jerk rows.
#[derive(Clone, Copy)]
pub struct Jerk<'a> {
    pub rows: &'a [u32],
    pub a: &'a [f64],
    pub b: &'a [f64],
    pub c: &'a [f64],
    pub max: &'a [f64],
}

// Tables 11 to 13: d torque coefficients for each station, station by station.
#[derive(Clone, Copy)]
pub struct Torque<'a> {
    pub a: &'a [f64],
    pub b: &'a [f64],
    pub g: &'a [f64],
}

// Tables 14 and 15.
#[derive(Clone, Copy)]
pub struct Roots<'a> {
    pub start: &'a [f64],
    pub end: &'a [f64],
}

// A problem as it is lent: what the job says, the 16 objectives, the grid, the tables, and the pool that holds the objectives' lists.
#[derive(Clone, Copy)]
pub struct Problem<'a> {
    pub job: Job,
    // An array of 16 with the job's count beside it: document 01 names this form, and nothing here is on a heap.
    pub objectives: [Objective; 16],
    pub grid: &'a [f64],
    pub acceleration: Acceleration<'a>,
    pub jerk: Jerk<'a>,
    pub amax: &'a [f64],
    pub thermal: &'a [f64],
    pub torque: Torque<'a>,
    pub roots: Roots<'a>,
    pub pool: &'a [f64],
}

impl<'a> Problem<'a> {
    // The objectives that count.
    pub fn listed(&self) -> &[Objective]
        ensures { result.now ≡ take self.now.job.count self.now.objectives }
    {
        &self.objectives[..self.job.count.min(16)]
    }
}

// Buffers 0 to 6, and the index. A usize is a whole number of 64 bits.
#[derive(Drop)]
pub struct Buffers<'a> {
    pub rows: &'a mut [usize],
    pub columns: &'a mut [usize],
    pub values: &'a mut [f64],
    pub right: &'a mut [f64],
    pub kinds: &'a mut [u8],
    pub dimensions: &'a mut [usize],
    pub cost: &'a mut [f64],
    pub index: &'a mut [usize],
}
