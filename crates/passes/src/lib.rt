// The two passes over an accepted problem: every number is tested, told from the tables; then the program is written.

#![tactic(auto)]

ghost use Rattle.std.specs.Prelude.{◌≡◌};
ghost use Rattle.model.specs.Refusals.{refusal};
ghost use Rattle.model.specs.Answers.{every_finite};
ghost use Rattle.model.specs.Lent.{problem_of};
ghost use Rattle.model.specs.Verdicts.{accepted};
ghost use Rattle.buffers.specs.Bounds.{program_room};
ghost use Rattle.passes.specs.Program.{start_at, Completes};

use blocks::{linear_in, objective_blocks, objectives_in, standard_block, standard_in};
use buffers::put_owner;
use finite_objectives::{ab_costs, objectives};
use finite_standard::standard_rows;
use model::{Buffers, Column, Problem, Tally};
use numbers::both;

// Whether every number to be written is finite (20), told from grid and tables: a number that stands in several rows is not tested for each of them.
pub fn every_number(problem: &Problem) -> bool
    requires { refusal (problem_of problem.now) ≡ accepted }
    ensures { result ≡ every_finite (problem_of problem.now) }
{
    let costs = ab_costs(&linear_in(problem));
    let rows = standard_rows(standard_in(problem));
    let own = objectives(&objectives_in(problem));
    both(costs, both(rows, own))
}

// The tally before the standard rows, when the cost of so many columns is written.
fn before_rows(columns: Column) -> Tally
    ensures { result ≡ start_at columns.at }
{
    Tally {
        columns,
        ..Tally::default()
    }
}

// Both halves, from nothing, and the index. A store past a buffer's end is left out.
pub fn write(problem: &Problem, out: &mut Buffers) -> Tally
    requires { refusal (problem_of problem.now) ≡ accepted }
    ensures { Completes (start_at 0) out.old result out.new (problem_of problem.now) program_room }
{
    let begin = before_rows(Column { at: 0 });
    let t = standard_block(begin, out, problem);
    // the column tally of the index starts behind the a and b columns
    let t = put_owner(before_rows(t.columns), t, out);
    objective_blocks(t, out, problem)
}
