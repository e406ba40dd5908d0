// The two halves of the assembly: the a and b columns with the standard rows, and what has columns of its own.

#![tactic(auto)]

mod inputs;

ghost use Rattle.std.specs.Prelude.{◌^◌, ◌<◌, length, take};
ghost use Rattle.buffers.specs.Bounds.{standard_block_room, own_blocks_room};
ghost use Rattle.buffers.specs.Buffers.{Builds};
ghost use Rattle.buffers.specs.Lent.{RoomAll};
ghost use Rattle.objectives.specs.Owned.{BuildsOwners};
ghost use Rattle.blocks.specs.Blocks.{StandardReady, ObjectivesReady, standard_lent, lends_in, own_blocks};

use buffers::put_owner;
pub use inputs::{linear_in, objectives_in, standard_in};
use model::{Buffers, Problem, Tally};
use objectives::clarabel_objective_copp3;

// The cost of the a and b columns, which Linear alone charges, and the standard rows.
pub fn standard_block(t: Tally, out: &mut Buffers, problem: &Problem) -> Tally
    requires { RoomAll t (standard_block_room (length problem.now.grid.now)) × StandardReady problem.now }
    ensures { Builds t out.old result out.new (standard_lent problem.now) (standard_block_room (length problem.now.grid.now)) }
{
    let mut u = t;
    stages::linear(&mut u, out, &linear_in(problem));
    stages::standard_rows(&mut u, out, standard_in(problem));
    u
}

// The root stage and the objectives' own rows and columns, each an owner of its own in the index.
pub fn objective_blocks(t: Tally, out: &mut Buffers, problem: &Problem) -> Tally
    requires { RoomAll t own_blocks_room × (t.owner < 2 ^ 31) × ObjectivesReady problem.now }
    ensures { BuildsOwners t out.old result out.new (own_blocks (lends_in problem.now) t.columns.at (take problem.now.job.count problem.now.objectives)) own_blocks_room }
{
    let list = objectives_in(problem);
    let mut u = t;
    stages::root_stage(&mut u, out, list.input.path, list.objectives);
    let u = put_owner(t, u, out);
    clarabel_objective_copp3(u, out, &list)
}
