// The assembly: checks, room, a test of every number, then the writing.

#![tactic(auto)]

ghost use Rattle.std.specs.Prelude.{◌≡◌, not, ◌≤◌, ltb};
ghost use Rattle.model.specs.Refusals.{most_objectives};
ghost use Rattle.model.specs.declared.rule.Rule.TheVariants.{NumberNotFinite, IndexTooShort};
ghost use Rattle.model.specs.Verdicts.{◌then◌, refuse};
ghost use Rattle.model.specs.Owners.{index_places};
ghost use Rattle.model.specs.Answers.{lengths, room_refusal, verdict_of, answered, assembly};
ghost use Rattle.model.specs.Lent.{problem_of, buffers_of, SameBuffers};

use model::{Answer, Buffers, FourCounts, Problem, Rule, Verdict};
use passes::{every_number, write};

// 19, then 28 for an index so long, then 20, of the four counts, the number of objectives and of whether every number is finite: a test, with which no value goes.
#[tactic(auto, using(checks::proofs::Chain::then_ok, checks::proofs::Chain::then_err))]
fn room_and_finite(
    counts: FourCounts,
    objectives: usize,
    finite: bool,
    lengths: [usize; 7],
    long: usize,
) -> Verdict
    requires { objectives ≤ most_objectives }
    ensures { result ≡ (room_refusal counts lengths then refuse IndexTooShort 0 (ltb long (index_places objectives)) then refuse NumberNotFinite 0 (not finite)) }
{
    sizing::room(counts, lengths)?;
    Rule::IndexTooShort.refuse_if(0, long < 8 * (objectives + 2))?;
    Rule::NumberNotFinite.refuse_if(0, !finite)
}

// The lengths of buffers 0 to 6.
fn lengths_of(out: &Buffers) -> [usize; 7]
    ensures { result ≡ lengths (buffers_of out.now) }
{
    [
        out.rows.len(),
        out.columns.len(),
        out.values.len(),
        out.right.len(),
        out.kinds.len(),
        out.dimensions.len(),
        out.cost.len(),
    ]
}

// Every refusal, of buffers with these lengths and an index so long. The index comes apart from the seven lengths of refusal 19: it has a refusal of its own.
fn verdict(problem: &Problem, lengths: [usize; 7], long: usize) -> Verdict
    ensures { result ≡ verdict_of (problem_of problem.now) lengths long }
{
    checks::check(problem)?;
    let counts = sizing::count(problem);
    let finite = every_number(problem);
    room_and_finite(counts, problem.job.count, finite, lengths, long)
}

// The whole: a refusal with every buffer as it was, or the four counts with the program and its index in the buffers.
pub fn assemble(problem: &Problem, out: &mut Buffers) -> Answer
    ensures same { SameBuffers out.old out.new }
    ensures answer { answered result (buffers_of out.new) ≡ assembly (problem_of problem.now) (buffers_of out.old) }
{
    let lengths = lengths_of(out);
    verdict(problem, lengths, out.index.len())?;
    let t = write(problem, out);
    Ok(FourCounts::from(t))
}
