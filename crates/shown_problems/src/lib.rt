// The problems that the program `show` assembles, by their numbers: 0 is document 01's case A, 1 has all four objectives, 2 and any other is case L.
// Every public function takes any number, from the start. An enum of the three problems would need a function from any number to it, and a method beside each function here.
#![tactic(auto)]

ghost use Rattle.std.specs.Prelude.{◌≡◌};
ghost use Rattle.model.specs.Answers.{answered, assembly};
ghost use Rattle.model.specs.Lent.{buffers_of, SameBuffers};
ghost use Rattle.shown_problems.specs.Problems.{small, three_stations, problem_at, stations_at, count_at, objectives_at, job_with};

use model::{
    Acceleration, Answer, Boundary, Bounds, Buffers, Ends, Jerk, Job, Objective, Problem, Roots,
    Torque,
};

// How many stations problem number i has.
pub fn stations_at(i: usize) -> usize
    ensures { result ≡ stations_at i }
{
    if i == 1 { 5 } else { 3 }
}

// How many objectives it has.
pub fn objective_count_at(i: usize) -> usize
    ensures { result ≡ count_at i }
{
    if i == 1 { 4 } else { 1 }
}

// Its objectives, in the array of 16 that the assembly takes. Their lists are parts of the pool: two scales, then alpha and beta.
pub fn objectives_at(i: usize) -> [Objective; 16]
    ensures { result ≡ objectives_at i }
{
    let mut o = [Objective::Time(1.0); 16];
    if i == 1 {
        o[1] = Objective::ThermalEnergy {
            weight: 0.5,
            start: 0,
            len: 1,
        };
        o[2] = Objective::TotalVariationTorque {
            weight: 0.25,
            start: 1,
            len: 1,
        };
        o[3] = Objective::Linear {
            weight: 2.0,
            alpha: 2,
            alpha_len: 5,
            beta: 7,
            beta_len: 5,
        };
    }
    o
}

// Boundaries and stationary minima 0, the start's maximum as given, the end's plus infinity, one joint.
fn job_with(maximum: f64, stationary: usize, count: usize) -> Job
    ensures { result ≡ job_with maximum stationary count }
{
    Job {
        boundary: Boundary {
            a0: 0.0,
            a1: 0.0,
            b0: 0.0,
            b1: 0.0,
        },
        start: Bounds {
            maximum,
            minimum: 0.0,
        },
        end: Bounds {
            maximum: f64::INFINITY,
            minimum: 0.0,
        },
        d: 1,
        ends: Ends {
            n0: stationary,
            n1: stationary,
        },
        count,
    }
}

// Cases A and L: the grid is 0, 1 and `last`, amax plus infinity, the pool one scale of 1 and zeros, tables zeros or empty.
fn three_stations(last: f64, out: &mut Buffers) -> Answer
    ensures same { SameBuffers out.old out.new }
    ensures answer { answered result (buffers_of out.new) ≡ assembly (three_stations last) (buffers_of out.old) }
{
    let infinity = f64::INFINITY;
    let grid = [0.0, 1.0, last];
    let counts: [u32; 3] = [0; 3];
    let amax = [infinity; 3];
    let zeros = [0.0; 3];
    let empty = [0.0; 0];
    let pool = [1.0, 0.0, 0.0, 0.0, 0.0, 0.0, 0.0];
    // Slices, since an array is lent once and each of these is several tables.
    let no_rows = &counts[..];
    let zero = &zeros[..];
    let none = &empty[..];
    let problem = Problem {
        job: job_with(infinity, 0, objective_count_at(0)),
        objectives: objectives_at(0),
        grid: &grid,
        acceleration: Acceleration {
            rows: no_rows,
            a: none,
            b: none,
            max: none,
        },
        jerk: Jerk {
            rows: no_rows,
            a: none,
            b: none,
            c: none,
            max: none,
        },
        amax: &amax,
        thermal: zero,
        torque: Torque {
            a: zero,
            b: zero,
            g: zero,
        },
        roots: Roots {
            start: none,
            end: none,
        },
        pool: &pool,
    };
    assembly::assemble(&problem, out)
}

// The problem with all four objectives. Its acceleration row and its jerk row are at station 2, so that each of their tables has one number.
fn small(out: &mut Buffers) -> Answer
    ensures same { SameBuffers out.old out.new }
    ensures answer { answered result (buffers_of out.new) ≡ assembly small (buffers_of out.old) }
{
    let infinity = f64::INFINITY;
    let grid = [0.0, 1.0, 2.5, 4.0, 5.0];
    let counts: [u32; 5] = [0, 0, 1, 0, 0];
    let amax = [infinity, infinity, 4.0, infinity, infinity];
    let thermal = [0.5, 1.0, 1.0, 1.0, 0.5];
    let torque_a = [1.0, 1.0, 2.0, 1.0, 1.0];
    let torque_b = [0.5; 5];
    let torque_g = [0.0, 0.25, 0.5, 0.25, 0.0];
    let pool = [0.5, 2.0, 0.0, 0.0, 0.1, 0.0, 0.0, 0.0, 0.0, 0.0, 0.05, 0.0];
    let empty = [0.0; 0];
    // Slices, since an array is lent once and each of these is two tables.
    let one_row = &counts[..];
    let none = &empty[..];
    let problem = Problem {
        job: job_with(4.0, 1, objective_count_at(1)),
        objectives: objectives_at(1),
        grid: &grid,
        acceleration: Acceleration {
            rows: one_row,
            a: &[0.25],
            b: &[1.0],
            max: &[3.0],
        },
        jerk: Jerk {
            rows: one_row,
            a: &[0.5],
            b: &[0.25],
            c: &[1.0],
            max: &[10.0],
        },
        amax: &amax,
        thermal: &thermal,
        torque: Torque {
            a: &torque_a,
            b: &torque_b,
            g: &torque_g,
        },
        roots: Roots {
            start: none,
            end: none,
        },
        pool: &pool,
    };
    assembly::assemble(&problem, out)
}

// The assembly of problem number i.
pub fn assemble(i: usize, out: &mut Buffers) -> Answer
    ensures same { SameBuffers out.old out.new }
    ensures answer { answered result (buffers_of out.new) ≡ assembly (problem_at i) (buffers_of out.old) }
{
    // Each of the three makes its own arrays and lends them to the assembly, so what is chosen is a call.
    match i {
        0 => three_stations(2.0, out),
        1 => small(out),
        _ => three_stations(1.0, out),
    }
}
