// What the stages are lent of a problem.

ghost use Rattle.std.specs.Prelude.{◌≡◌, take};
ghost use Rattle.objectives.specs.Lends.{lends_of};
ghost use Rattle.blocks.specs.Blocks.{LinearReady, RowsReady, ObjectivesReady, lends_in};

use buffers::path_in;
use linear::{LinearCosts, LinearInput};
use model::Problem;
use objectives::{ObjectiveInput, ObjectiveList};
use standard::StandardInput;

// What the cost of the a and b columns is told from.
pub fn linear_in<'a>(problem: &'a Problem) -> LinearCosts<'a>
    requires { LinearReady problem.now }
    ensures grid { result.input.path.grid.now ≡ problem.now.grid.now }
    ensures ends { result.input.path.ends ≡ problem.now.job.ends }
    ensures start { result.input.roots.start.now ≡ problem.now.roots.start.now }
    ensures end { result.input.roots.end.now ≡ problem.now.roots.end.now }
    ensures pool { result.input.pool.now ≡ problem.now.pool.now }
    ensures objectives { result.objectives.now ≡ take problem.now.job.count problem.now.objectives }
{
    LinearCosts {
        input: LinearInput {
            path: path_in(problem),
            roots: problem.roots,
            pool: problem.pool,
        },
        objectives: problem.listed(),
    }
}

// What the standard rows are written from.
pub fn standard_in<'a>(problem: &Problem<'a>) -> StandardInput<'a>
    requires { RowsReady problem.now }
    ensures grid { result.path.grid ≡ problem.now.grid }
    ensures ends { result.path.ends ≡ problem.now.job.ends }
    ensures boundary { result.boundary ≡ problem.now.job.boundary }
    ensures start { result.start ≡ problem.now.job.start }
    ensures end { result.end ≡ problem.now.job.end }
    ensures amax { result.amax ≡ problem.now.amax }
    ensures acceleration { result.acceleration ≡ problem.now.acceleration }
    ensures jerk { result.jerk ≡ problem.now.jerk }
{
    let job = problem.job;
    StandardInput {
        path: path_in(problem),
        boundary: job.boundary,
        start: job.start,
        end: job.end,
        amax: problem.amax,
        acceleration: problem.acceleration,
        jerk: problem.jerk,
    }
}

// The objectives that count, with what their own rows and columns are written from.
pub fn objectives_in<'a>(problem: &'a Problem) -> ObjectiveList<'a>
    requires { ObjectivesReady problem.now }
    ensures lends { lends_of result.input ≡ lends_in problem.now }
    ensures objectives { result.objectives.now ≡ take problem.now.job.count problem.now.objectives }
{
    ObjectiveList {
        input: ObjectiveInput {
            path: path_in(problem),
            thermal: problem.thermal,
            torque: problem.torque,
            d: problem.job.d,
            pool: problem.pool,
        },
        objectives: problem.listed(),
    }
}
