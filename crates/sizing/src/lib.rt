// Sizing: every refusal tested before 19, or the four counts by document 01's formulas. And the room test, refusal 19.
#![tactic(auto)]

mod formulas;
mod measures;

ghost use Rattle.std.specs.Prelude.{◌≡◌, List, ◌+◌, ◌-◌, ◌*◌, ◌≤◌, ◌<◌, ltb, length, get_or, Float};
ghost use Rattle.model.specs.Refusals.{most_stations};
ghost use Rattle.model.specs.Numbers.{at};
ghost use Rattle.model.specs.Lists.{sum_over};
ghost use Rattle.model.specs.Problem.{problem as with_tables, flag};
ghost use Rattle.model.specs.declared.rule.Rule.TheVariants.{BufferTooShort};
ghost use Rattle.model.specs.Verdicts.{refuse};
ghost use Rattle.model.specs.Counts.{upper, counts};
ghost use Rattle.model.specs.Answers.{told, sizing, room_refusal};
ghost use Rattle.model.specs.Lent.{problem_of};
ghost use Rattle.checks.specs.Fitting.{Fits};
ghost use Rattle.sizing.specs.Bounds.{acc_most, jerk_most};
ghost use Rattle.sizing.specs.Measured.{MeasuredOf};

use buffers::{path_in, positive_ends};
use columns::length_xi;
pub use measures::Measures;
use model::{Answer, Bounds, FourCounts, Job, Problem, Rule, Verdict};
use numbers::is_finite;

// Sums over the stations between the ends: finite upper bounds, acceleration rows, jerk rows.
#[derive(Clone, Copy)]
struct Inside {
    uppers: usize,
    acc: usize,
    jerk: usize,
}

// 1 for a finite bound.
fn upper_of(x: f64) -> usize
    ensures { result ≡ upper x }
{
    usize::from(is_finite(x))
}

// 1 for a positive end with a finite maximum.
fn end_upper(count: usize, bounds: Bounds) -> usize
    ensures { result ≡ flag count * upper bounds.maximum }
{
    count.min(1) * upper_of(bounds.maximum)
}

// The stations from `from` to below `to`, in one pass.
fn sums_inside(amax: &[f64], acc_rows: &[u32], jerk_rows: &[u32], from: usize, to: usize) -> Inside
    requires { (from ≤ to) × (to ≤ length amax.now) × (to ≤ length acc_rows.now) × (to ≤ length jerk_rows.now) × (to ≤ most_stations) }
    ensures { (result.uppers ≡ sum_over (λ k. upper (at amax.now k)) from (to - from)) × (result.acc ≡ sum_over (λ k. get_or acc_rows.now k 0) from (to - from)) × (result.jerk ≡ sum_over (λ k. get_or jerk_rows.now k 0) from (to - from)) × (result.uppers ≤ most_stations) × (result.acc ≤ acc_most) × (result.jerk ≤ acc_most) }
{
    let mut uppers: usize = 0;
    let mut acc: usize = 0;
    let mut jerk: usize = 0;
    // Over numbers: three tables at one station.
    for k in from..to {
        uppers += upper_of(amax[k]);
        acc += acc_rows[k] as usize;
        jerk += jerk_rows[k] as usize;
    }
    Inside { uppers, acc, jerk }
}

// The jerk rows of the moving intervals: each station between the ends counts twice.
fn jerk_inside(jerk_rows: &[u32], first: usize, last: usize, between: usize) -> usize
    requires { (first < length jerk_rows.now) × (last < length jerk_rows.now) × (between ≤ acc_most) }
    ensures { (result ≡ get_or jerk_rows.now first 0 + between + between + get_or jerk_rows.now last 0) × (result ≤ jerk_most) }
{
    let a = jerk_rows[first] as usize;
    let b = jerk_rows[last] as usize;
    a + between + between + b
}

// The numbers of a problem as the checks leave it.
#[tactic(auto, unfolding(model::specs::Problem::m, model::specs::Problem::ends, model::specs::Problem::L, model::specs::Problem::stop))]
fn measure(problem: &Problem) -> Measures
    requires { Fits (problem_of problem.now) }
    ensures { MeasuredOf (problem_of problem.now) result }
{
    let Job {
        ends,
        start,
        end,
        d,
        ..
    } = problem.job;
    let path = path_in(problem);
    let stop = path.stop();
    let jerk_rows = problem.jerk.rows;
    let inside = sums_inside(
        problem.amax,
        problem.acceleration.rows,
        jerk_rows,
        ends.n0 + 1,
        stop,
    );
    let jerk = jerk_inside(jerk_rows, ends.n0, stop, inside.jerk);
    let uppers = end_upper(ends.n0, start) + end_upper(ends.n1, end) + inside.uppers;
    Measures {
        d,
        n: path.last(),
        m: path.moving(),
        ends: positive_ends(ends),
        l: length_xi(path),
        uppers,
        acc: inside.acc,
        jerk,
    }
}

// The four counts of a problem whose numbers and tables are as an accepted problem's. Tables 3 to 15 and the pool play no part.
pub fn count(problem: &Problem) -> FourCounts
    requires { Fits (problem_of problem.now) }
    ensures lent { result ≡ counts (problem_of problem.now) }
    ensures others { (t3 t4 t5 t6 t7 t8 t9 t10 t11 t12 t13 t14 t15 pool : List Float) → result ≡ counts (with_tables problem.now.job problem.now.objectives problem.now.grid.now problem.now.acceleration.rows.now problem.now.jerk.rows.now problem.now.amax.now t3 t4 t5 t6 t7 t8 t9 t10 t11 t12 t13 t14 t15 pool) }
{
    let measures = measure(problem);
    measures.counted(problem.listed())
}

// The first refusal of a problem, or its four counts.
#[tactic(auto, using(crate::proofs::Answers::size_refused, crate::proofs::Answers::size_counted))]
pub fn size(problem: &Problem) -> Answer
    ensures { told result ≡ sizing (problem_of problem.now) }
{
    checks::check(problem)?;
    Ok(count(problem))
}

// Refusal 19 of one buffer.
fn short(place: usize, have: usize, need: usize) -> Verdict
    ensures { result ≡ refuse BufferTooShort place (ltb have need) }
{
    Rule::BufferTooShort.refuse_if(place, have < need)
}

// Refusal 19, from the lengths of rows, columns, values, right side, cone kinds, cone dimensions and cost.
#[tactic(auto, using(checks::proofs::Chain::then_ok, checks::proofs::Chain::then_err), unfolding(model::specs::Answers::room_refusal))]
pub fn room(counts: FourCounts, lengths: [usize; 7]) -> Verdict
    ensures { result ≡ room_refusal counts lengths }
{
    short(0, lengths[0], counts.entries)?;
    short(1, lengths[1], counts.entries)?;
    short(2, lengths[2], counts.entries)?;
    short(3, lengths[3], counts.rows)?;
    short(4, lengths[4], counts.cones)?;
    short(5, lengths[5], counts.cones)?;
    short(6, lengths[6], counts.columns)
}
