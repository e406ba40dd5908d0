// Refusals 1 to 18. Each check answers what its definition says; `check` answers the first refusal of a whole problem.
#![tactic(auto, using(crate::proofs::Chain::then_ok, crate::proofs::Chain::then_err))]

mod limited;

ghost use Rattle.std.specs.Prelude.{◌≡◌, ℕ, Bool, ◌+◌, ◌-◌, ◌*◌, ◌≤◌, ◌<◌, ltb, leb, length, get_or};
ghost use Rattle.model.specs.Numbers.{unusable, unfit};
ghost use Rattle.model.specs.Problem.{weight};
ghost use Rattle.model.specs.Lent.{problem_of};
ghost use Rattle.model.specs.declared.rule.Rule.TheVariants.{WeightUnfit, TooManyRows};
ghost use Rattle.model.specs.Verdicts.{◌then◌, refuse, lowest, itself};
ghost use Rattle.model.specs.Refusals.{first_refusal, signs_refusal, boundary_refusal, grid_refusal, list_refusal, scales_refusal, lists_refusal, objectives_refusal, setup_refusal, table_if, unusable_end, crossed, refusal, most_stations, most_rows};
ghost use Rattle.checks.specs.Groups.{job_refusal};

use limited::Limited;
use model::{Boundary, Bounds, Ends, Job, Objective, Problem, Rule, Verdict};
use numbers::is_finite;

// NaN or minus infinity.
#[tactic(auto, using(crate::proofs::Tests::nan_or_low))]
fn is_unusable(x: f64) -> bool
    ensures { result ≡ unusable x }
{
    x.is_nan() | (x == f64::NEG_INFINITY)
}

// What a weight or a scale may not be.
fn is_unfit(x: f64) -> bool
    ensures { result ≡ unfit x }
{
    !is_finite(x) | (x < 0.0)
}

// A rule's refusal for the lowest of the numbers from `from` to below `to` that fails.
fn check_each<P: Fn(usize) -> usize, F: Fn(usize) -> bool>(
    rule: Rule,
    from: usize,
    to: usize,
    place: P,
    fails: F,
) -> Verdict
    requires of_place { (i : ℕ) → from ≤ i → i < to → P.pre place i }
    requires of_fails { (i : ℕ) → from ≤ i → i < to → F.pre fails i }
    ensures { (at : ℕ → ℕ) (test : ℕ → Bool) (count : ℕ)
        → count ≡ to - from
        → ((i y : ℕ) → from ≤ i → i < to → P.post place i y → y ≡ at i)
        → ((i : ℕ) (b : Bool) → from ≤ i → i < to → F.post fails i b → b ≡ test i)
        → result ≡ lowest rule at test from count }
{
    // Over numbers: the place and the test are of a number, and a test may look at two stations.
    for k in from..to {
        rule.refuse_if(place(k), fails(k))?;
    }
    Ok(())
}

// Refusal 1.
#[tactic(auto, using(crate::proofs::Chain::then_ok, crate::proofs::Chain::then_err, crate::proofs::Chain::in_group))]
fn check_first(boundary: Boundary) -> Verdict
    ensures { result ≡ first_refusal boundary }
{
    Rule::BoundaryNotFinite.refuse_if(0, !is_finite(boundary.a0))?;
    Rule::BoundaryNotFinite.refuse_if(1, !is_finite(boundary.a1))?;
    Rule::BoundaryNotFinite.refuse_if(2, !is_finite(boundary.b0))?;
    Rule::BoundaryNotFinite.refuse_if(3, !is_finite(boundary.b1))
}

// Refusals 2 and 3.
#[tactic(auto, using(crate::proofs::Chain::then_ok, crate::proofs::Chain::then_err, crate::proofs::Chain::in_group))]
fn check_signs(boundary: Boundary) -> Verdict
    ensures { result ≡ signs_refusal boundary }
{
    Rule::BoundaryNegative.refuse_if(0, boundary.a0 < 0.0)?;
    Rule::BoundaryNegative.refuse_if(1, boundary.a1 < 0.0)?;
    Rule::BackwardAtRest.refuse_if(0, (boundary.a0 == 0.0) & (boundary.b0 < 0.0))?;
    Rule::BackwardAtRest.refuse_if(1, (boundary.a1 == 0.0) & (0.0 < boundary.b1))
}

fn check_boundary(boundary: Boundary) -> Verdict
    ensures { result ≡ boundary_refusal boundary }
{
    check_first(boundary)?;
    check_signs(boundary)
}

// Refusals 4 to 7.
#[tactic(auto, using(crate::proofs::Chain::then_ok, crate::proofs::Chain::then_err), unfolding(model::specs::Refusals::grid_refusal))]
fn check_grid(grid: &[f64]) -> Verdict
    ensures { result ≡ grid_refusal most_stations grid.now }
{
    let stations = grid.len();
    Rule::TooFewStations.refuse_if(0, stations < 3)?;
    Rule::TooManyStations.refuse_if(0, 65537 < stations)?;
    check_each(
        Rule::GridNotFinite,
        0,
        stations,
        |k| k,
        |k| !is_finite(grid[k]),
    )?;
    check_each(
        Rule::GridNotRising,
        1,
        stations,
        |k| k,
        |k| !(grid[k - 1] < grid[k]),
    )
}

// Whether a part ends past the pool; start + len may pass 64 bits.
fn is_past(pool: usize, start: usize, len: usize) -> bool
    ensures { result ≡ ltb pool (start + len) }
{
    pool < len || pool - len < start
}

// Refusal 12 of one list.
#[tactic(auto, unfolding(model::specs::Refusals::list_refusal))]
fn check_list(pool: &[f64], place: usize, long: usize, start: usize, len: usize) -> Verdict
    ensures { result ≡ list_refusal pool.now place long start len }
{
    Rule::ListUnfit.refuse_if(place, (len != long) | is_past(pool.len(), start, len))
}

// Refusals 12 and 13 of an objective with d scales.
#[tactic(auto, using(crate::proofs::Chain::then_ok, crate::proofs::Chain::then_err), unfolding(model::specs::Refusals::scales_refusal))]
fn check_scaled(pool: &[f64], d: usize, place: usize, start: usize, len: usize) -> Verdict
    ensures { result ≡ scales_refusal pool.now d place start len }
{
    check_list(pool, place, d, start, len)?;
    let scales = &pool[start..start + len];
    check_each(Rule::ScaleUnfit, 0, len, |_| place, |j| is_unfit(scales[j]))
}

// Refusals 12 and 13 of an objective.
#[tactic(auto, using(crate::proofs::Chain::then_ok, crate::proofs::Chain::then_err), unfolding(model::specs::Refusals::lists_refusal))]
fn check_lists(problem: &Problem, place: usize, o: Objective) -> Verdict
    ensures { result ≡ lists_refusal problem.now.pool.now problem.now.job.d (length problem.now.grid.now) place o }
{
    let pool = problem.pool;
    match o {
        Objective::Time(_) => Ok(()),
        Objective::ThermalEnergy { start, len, .. }
        | Objective::TotalVariationTorque { start, len, .. } => check_scaled(
            pool,
            problem.job.d,
            place,
            start,
            len,
        ),
        Objective::Linear {
            alpha,
            alpha_len,
            beta,
            beta_len,
            ..
        } => {
            let stations = problem.grid.len();
            check_list(pool, place, stations, alpha, alpha_len)?;
            check_list(pool, place, stations, beta, beta_len)
        }
    }
}

fn weight_of(o: Objective) -> f64
    ensures { result ≡ weight o }
{
    match o {
        Objective::Time(weight)
        | Objective::ThermalEnergy { weight, .. }
        | Objective::TotalVariationTorque { weight, .. }
        | Objective::Linear { weight, .. } => weight,
    }
}

// Refusals 11 to 13 of an objective.
fn check_objective(problem: &Problem, place: usize, o: Objective) -> Verdict
    ensures { result ≡ (refuse WeightUnfit place (unfit (weight o)) then lists_refusal problem.now.pool.now problem.now.job.d (length problem.now.grid.now) place o) }
{
    Rule::WeightUnfit.refuse_if(place, is_unfit(weight_of(o)))?;
    check_lists(problem, place, o)
}

// Refusals 11 to 13, objective by objective.
#[tactic(auto, using(crate::proofs::Slots::one_refuses, crate::proofs::Slots::one_passes, crate::proofs::Slots::all_pass))]
fn check_objectives(problem: &Problem, objectives: &[Objective]) -> Verdict
    ensures { result ≡ objectives_refusal problem.now.pool.now problem.now.job.d (length problem.now.grid.now) 0 objectives.now }
{
    for (i, o) in objectives.iter().enumerate() {
        check_objective(problem, i, *o)?;
    }
    Ok(())
}

// Refusals 8 to 13.
#[tactic(auto, using(crate::proofs::Chain::then_ok, crate::proofs::Chain::then_err, crate::proofs::Within::few), unfolding(model::specs::Refusals::setup_refusal))]
fn check_setup(problem: &Problem) -> Verdict
    ensures { result ≡ setup_refusal problem.now.job.d problem.now.job.count problem.now.objectives (length problem.now.grid.now) problem.now.pool.now }
{
    let Job { d, count, .. } = problem.job;
    Rule::DimensionOutOfRange.refuse_if(0, (d == 0) | (32 < d))?;
    Rule::NoObjective.refuse_if(0, count == 0)?;
    Rule::TooManyObjectives.refuse_if(0, 16 < count)?;
    check_objectives(problem, problem.listed())
}

// Whether no interval moves, refusal 14; N0 + N1 may pass 64 bits.
fn is_still(n: usize, ends: Ends) -> bool
    ensures { result ≡ leb n (ends.n0 + ends.n1) }
{
    n <= ends.n0 || n - ends.n0 <= ends.n1
}

// Refusal 15 of table t, if it counts. The test comes apart from the length that is needed, as in the definition, which says it of tables that do not count too.
#[tactic(auto, unfolding(model::specs::Refusals::table_if))]
fn check_table(counts: bool, t: usize, have: usize, need: usize) -> Verdict
    ensures { result ≡ table_if counts t have need }
{
    Rule::TableLength.refuse_if(t, counts & (have != need))
}

// Refusal 16 within a table.
fn check_rows(rows: &[u32], stations: usize) -> Verdict
    requires { stations ≤ length rows.now }
    ensures { result ≡ lowest TooManyRows itself (λ k. ltb most_rows (get_or rows.now k 0)) 0 stations }
{
    check_each(Rule::TooManyRows, 0, stations, |k| k, |k| 256 < rows[k])
}

// Whether refusal 17 applies to a stationary end.
#[tactic(auto, unfolding(model::specs::Refusals::unusable_end))]
fn is_unusable_end(count: usize, bounds: Bounds) -> bool
    ensures { result ≡ unusable_end count bounds }
{
    (0 < count) & (is_unusable(bounds.maximum) | !is_finite(bounds.minimum))
}

// Whether refusal 18 applies to a stationary end.
#[tactic(auto, unfolding(model::specs::Refusals::crossed))]
fn is_crossed(count: usize, bounds: Bounds) -> bool
    ensures { result ≡ crossed count bounds }
{
    (0 < count) & (bounds.maximum < bounds.minimum)
}

// Refusals 1 to 13.
fn check_job(problem: &Problem) -> Verdict
    ensures { result ≡ job_refusal (problem_of problem.now) }
{
    check_boundary(problem.job.boundary)?;
    check_grid(problem.grid)?;
    check_setup(problem)
}

// Refusals 1 to 18 of a problem: the first that applies.
#[tactic(auto, using(crate::proofs::Chain::then_ok, crate::proofs::Chain::then_err, crate::proofs::Chain::by_parts))]
pub fn check(problem: &Problem) -> Verdict
    ensures { result ≡ refusal (problem_of problem.now) }
{
    check_job(problem)?;
    let limited = Limited { problem };
    limited.check_tables()?;
    limited.check_bounds()
}
