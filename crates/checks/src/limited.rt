// Refusals 14 to 18, of a problem within the limits that refusals 4, 5, 8 and 10 set.

#![tactic(auto, using(crate::proofs::Chain::then_ok, crate::proofs::Chain::then_err), unfolding(model::specs::Refusals::table, model::specs::Refusals::table_if))]

ghost use Rattle.std.specs.Prelude.{◌≡◌, ◌+◌, ◌-◌, ◌≤◌, length, max};
ghost use Rattle.model.specs.Problem.{n};
ghost use Rattle.model.specs.Lists.{total};
ghost use Rattle.model.specs.Lent.{problem_of};
ghost use Rattle.model.specs.Refusals.{most_stations, tables_refusal, bounds_refusal};
ghost use Rattle.checks.specs.Limits.{WithinLimits, Counted, Spanned};
ghost use Rattle.checks.specs.Groups.{counts_lengths, rows_refusal, acc_lengths, jerk_lengths, standard_lengths, torque_lengths, root_lengths, objective_lengths};

use crate::{
    check_each, check_rows, check_table, is_crossed, is_still, is_unusable, is_unusable_end,
};
use model::{Acceleration, Jerk, Job, Problem, Rule, Torque, Verdict};
use numbers::total;
use objective_kinds::{any_is, is_linear, is_thermal, is_torque};

#[derive(Clone, Copy)]
pub(crate) struct Limited<'a> {
    pub(crate) problem: &'a Problem<'a>,
    ghost limits: { WithinLimits (problem_of problem.now) },
}

// max(count, 1) - 1
fn roots_of(count: usize) -> usize
    ensures { result ≡ max count 1 - 1 }
{
    count.max(1) - 1
}

impl<'a> Limited<'a> {
    // How many stations there are, n + 1.
    fn stations(self) -> usize
        ensures { result ≡ n (problem_of self.entry.problem.now).path + 1 }
    {
        let problem = self.problem;
        problem.grid.len()
    }

    // Refusal 15 of tables 0 and 1.
    fn check_counts(self) -> Verdict
        ensures { result ≡ counts_lengths (problem_of self.entry.problem.now) }
    {
        let problem = self.problem;
        let stations = self.stations();
        check_table(true, 0, problem.acceleration.rows.len(), stations)?;
        check_table(true, 1, problem.jerk.rows.len(), stations)
    }

    // Refusal 16, table 0 before table 1.
    fn check_all_rows(self) -> Verdict
        requires { Counted (problem_of self.problem.now) }
        ensures { result ≡ rows_refusal (problem_of self.entry.problem.now) }
    {
        let problem = self.problem;
        let stations = self.stations();
        check_rows(problem.acceleration.rows, stations)?;
        check_rows(problem.jerk.rows, stations)
    }

    // Tables 3 to 5, of as many rows as the counts add up to.
    fn check_acceleration(self, counts: &[u32]) -> Verdict
        requires { length counts.now ≤ most_stations }
        ensures { result ≡ acc_lengths (problem_of self.entry.problem.now) (total counts.now) }
    {
        let problem = self.problem;
        let Acceleration { a, b, max, .. } = problem.acceleration;
        let rows = total(counts);
        check_table(true, 3, a.len(), rows)?;
        check_table(true, 4, b.len(), rows)?;
        check_table(true, 5, max.len(), rows)
    }

    // Tables 6 to 9, likewise.
    fn check_jerk(self, counts: &[u32]) -> Verdict
        requires { length counts.now ≤ most_stations }
        ensures { result ≡ jerk_lengths (problem_of self.entry.problem.now) (total counts.now) }
    {
        let problem = self.problem;
        let Jerk { a, b, c, max, .. } = problem.jerk;
        let rows = total(counts);
        check_table(true, 6, a.len(), rows)?;
        check_table(true, 7, b.len(), rows)?;
        check_table(true, 8, c.len(), rows)?;
        check_table(true, 9, max.len(), rows)
    }

    // Refusal 15 of tables 2 to 9.
    fn check_standard_lengths(self) -> Verdict
        requires { Counted (problem_of self.problem.now) }
        ensures { result ≡ standard_lengths (problem_of self.entry.problem.now) }
    {
        let problem = self.problem;
        check_table(true, 2, problem.amax.len(), self.stations())?;
        self.check_acceleration(problem.acceleration.rows)?;
        self.check_jerk(problem.jerk.rows)
    }

    // Tables 11 to 13, if they count.
    fn check_torque(self, counts: bool) -> Verdict
        ensures { result ≡ torque_lengths (problem_of self.entry.problem.now) counts }
    {
        let problem = self.problem;
        let Torque { a, b, g } = problem.torque;
        let need = problem.job.d * self.stations();
        check_table(counts, 11, a.len(), need)?;
        check_table(counts, 12, b.len(), need)?;
        check_table(counts, 13, g.len(), need)
    }

    // Tables 14 and 15, if they count.
    fn check_roots(self, counts: bool) -> Verdict
        ensures { result ≡ root_lengths (problem_of self.entry.problem.now) counts }
    {
        let problem = self.problem;
        let ends = problem.job.ends;
        check_table(counts, 14, problem.roots.start.len(), roots_of(ends.n0))?;
        check_table(counts, 15, problem.roots.end.len(), roots_of(ends.n1))
    }

    // Refusal 15 of tables 10 to 15.
    fn check_objective_lengths(self) -> Verdict
        ensures { result ≡ objective_lengths (problem_of self.entry.problem.now) }
    {
        let problem = self.problem;
        let objectives = problem.listed();
        let thermal = any_is(objectives, is_thermal);
        check_table(thermal, 10, problem.thermal.len(), self.stations())?;
        self.check_torque(thermal | any_is(objectives, is_torque))?;
        self.check_roots(any_is(objectives, is_linear))
    }

    // Refusals 14 to 16.
    #[tactic(auto, using(crate::proofs::Chain::then_ok, crate::proofs::Chain::then_err, crate::proofs::Chain::by_groups))]
    pub(crate) fn check_tables(self) -> Verdict
        ensures { result ≡ tables_refusal (problem_of self.entry.problem.now) }
    {
        let problem = self.problem;
        // n, as in check_bounds: no Path here
        let still = is_still(problem.grid.len() - 1, problem.job.ends);
        Rule::NoMovingInterval.refuse_if(0, still)?;
        self.check_counts()?;
        self.check_all_rows()?;
        self.check_standard_lengths()?;
        self.check_objective_lengths()
    }

    // Refusals 17 and 18.
    #[tactic(auto, using(crate::proofs::Chain::then_ok, crate::proofs::Chain::then_err), unfolding(model::specs::Refusals::bounds_refusal, model::specs::Problem::m))]
    pub(crate) fn check_bounds(self) -> Verdict
        requires { Spanned (problem_of self.problem.now) }
        ensures { result ≡ bounds_refusal (problem_of self.entry.problem.now).path (problem_of self.entry.problem.now).limits }
    {
        let problem = self.problem;
        let Job {
            ends,
            start,
            end,
            ..
        } = problem.job;
        let amax = problem.amax;
        // crate checks does not stand above buffers, whose Path is what refusals 4, 5 and 14 leave
        let to = problem.grid.len() - 1 - ends.n1;
        Rule::BoundUnusable.refuse_if(0, is_unusable_end(ends.n0, start))?;
        Rule::BoundUnusable.refuse_if(1, is_unusable_end(ends.n1, end))?;
        check_each(
            Rule::BoundUnusable,
            ends.n0 + 1,
            to,
            |k| 2 + k,
            |k| is_unusable(amax[k]),
        )?;
        Rule::BoundsCrossed.refuse_if(0, is_crossed(ends.n0, start))?;
        Rule::BoundsCrossed.refuse_if(1, is_crossed(ends.n1, end))
    }
}
