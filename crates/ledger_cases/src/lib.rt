// Document 01's ledger: the letter and the answer of each of its fourteen cases, by the case's number.
// Cases go by their number, and any number was taken from the start: an enum of them would need a function from any number to it.
#![tactic(auto)]

ghost use Rattle.std.specs.Prelude.{◌≡◌, length, take};
ghost use Rattle.model.specs.Numbers.{+1};
ghost use Rattle.model.specs.declared.Objective.TheVariants.{ThermalEnergy, TotalVariationTorque, Linear};
ghost use Rattle.model.specs.Answers.{told, sizing};
ghost use Rattle.model.specs.Ledger.{cases};
ghost use Rattle.ledger_cases.specs.Cases.{problem_of, Small, problem_at, letter_at, usual_case, job_of};

use model::{
    Acceleration, Answer, Boundary, Bounds, Ends, Jerk, Job, Objective, Problem, Roots, Torque,
};
use numbers::item_or;

// What a case may change. Its grid and amax are the first `stations` numbers of theirs; its objectives are `count` equal ones; it has `jerk` rows per station. The arrays stand beside their lengths: nothing here is on a heap, and a slice would have to be lent from somewhere.
#[derive(Clone, Copy)]
struct Case {
    a0: f64,
    stations: usize,
    grid: [f64; 4],
    ends: Ends,
    d: usize,
    objective: Objective,
    count: usize,
    amax: [f64; 4],
    jerk: u32,
}

// What is not said of a case: "grid 0, 1, .. n", initial a 0, one objective, amax plus infinity, no jerk rows.
fn usual(stations: usize, n0: usize, n1: usize, d: usize, objective: Objective) -> Case
    ensures { result ≡ usual_case stations n0 n1 d objective }
{
    Case {
        a0: 0.0,
        stations,
        grid: [0.0, 1.0, 2.0, 3.0],
        ends: Ends { n0, n1 },
        d,
        objective,
        count: 1,
        amax: [f64::INFINITY; 4],
        jerk: 0,
    }
}

// Scales of 1 for each of d joints stand first in the pool.
fn torque(d: usize) -> Objective
    ensures { result ≡ TotalVariationTorque +1 0 d }
{
    Objective::TotalVariationTorque {
        weight: 1.0,
        start: 0,
        len: d,
    }
}

fn thermal(d: usize) -> Objective
    ensures { result ≡ ThermalEnergy +1 0 d }
{
    Objective::ThermalEnergy {
        weight: 1.0,
        start: 0,
        len: d,
    }
}

// Alpha and beta stand after one scale.
fn linear() -> Objective
    ensures { result ≡ Linear +1 1 3 4 3 }
{
    Objective::Linear {
        weight: 1.0,
        alpha: 1,
        alpha_len: 3,
        beta: 4,
        beta_len: 3,
    }
}

// Case number i from 0: A, B, .. N, and A again past N. An arm says what its case has other than case A, or the usual case of another size.
fn case_at(i: usize) -> Case
    ensures { (problem_of result ≡ problem_at i) × Small result }
{
    let time = Objective::Time(1.0);
    let mut c = usual(3, 0, 0, 1, time);
    match i {
        1 => c.count = 2,
        2 => return usual(4, 1, 1, 1, time),
        3 => return usual(4, 1, 2, 1, time),
        4 => return usual(3, 0, 0, 1, torque(1)),
        5 => return usual(3, 0, 0, 1, thermal(1)),
        6 => return usual(4, 1, 0, 2, thermal(2)),
        7 => return usual(3, 0, 0, 1, linear()),
        8 => c.amax[1] = 4.0,
        9 => return usual(3, 0, 0, 1, Objective::Time(f64::NAN)),
        10 => {
            c.a0 = -1.0;
            c.stations = 2;
        }
        11 => c.grid[2] = 1.0,
        12 => c.jerk = 1,
        13 => c.stations = 2,
        _ => (),
    }
    c
}

// Boundaries and stationary minima 0, stationary maxima plus infinity.
fn job_of(c: Case) -> Job
    ensures { result ≡ job_of c }
{
    let ends = c.ends;
    let free = Bounds {
        maximum: f64::INFINITY,
        minimum: 0.0,
    };
    Job {
        boundary: Boundary {
            a0: c.a0,
            a1: 0.0,
            b0: 0.0,
            b1: 0.0,
        },
        start: free,
        end: free,
        ends,
        d: c.d,
        count: c.count,
    }
}

// The first k numbers of a table.
fn first<T>(s: &[T], k: usize) -> &[T]
    ensures { result.now ≡ take k s.now }
{
    &s[..k.min(s.len())]
}

// What sizing answers. Tables that a case does not use are empty or zeros; the pool is a scale of 1 per joint, then alpha and beta.
fn answer(c: Case) -> Answer
    requires { Small c }
    ensures { told result ≡ sizing (problem_of c) }
{
    let n = c.stations;
    let grid = c.grid;
    let amax = c.amax;
    let zeros: [f64; 8] = [0.0; 8];
    let z = &zeros[..];
    let none = first(z, 0);
    let jerk = first(z, c.jerk as usize * n);
    let torque = first(z, c.d * n);
    let no_rows: [u32; 4] = [0; 4];
    let jerk_rows: [u32; 4] = [c.jerk; 4];
    let pool = [1.0, 1.0, 0.0, 0.0, 0.0, 0.0, 0.0, 0.0, 0.0, 0.0];
    let problem = Problem {
        job: job_of(c),
        objectives: [c.objective; 16],
        grid: first(&grid, n),
        acceleration: Acceleration {
            rows: first(&no_rows, n),
            a: none,
            b: none,
            max: none,
        },
        jerk: Jerk {
            rows: first(&jerk_rows, n),
            a: jerk,
            b: jerk,
            c: jerk,
            max: jerk,
        },
        amax: first(&amax, n),
        thermal: first(z, n),
        torque: Torque {
            a: torque,
            b: torque,
            g: torque,
        },
        roots: Roots {
            start: none,
            end: none,
        },
        pool: first(&pool[2 - c.d..], c.d + 2 * n),
    };
    sizing::size(&problem)
}

// How many cases there are.
pub fn count() -> usize
    ensures { result ≡ length cases }
{
    14
}

// The letter that document 01 calls case number i by; the cases go from 0.
#[tactic(auto, using(crate::proofs::Numbers::letter_or))]
pub fn letter_at(i: usize) -> u8
    ensures { result ≡ letter_at i }
{
    item_or(b"ABCDEFGHIJKLMN", i, b'A')
}

// What sizing answers of case number i.
pub fn answer_at(i: usize) -> Answer
    ensures { told result ≡ sizing (problem_at i) }
{
    answer(case_at(i))
}
