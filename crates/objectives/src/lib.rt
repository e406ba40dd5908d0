// The objectives, one after another, each with columns of its own.

#![tactic(auto)]

mod input;
mod list;

ghost use Rattle.std.specs.Prelude.{◌^◌, ◌<◌, ◌≤◌, length};
ghost use Rattle.model.specs.Refusals.{most_objectives};
ghost use Rattle.model.specs.Objectives.{objective_block};
ghost use Rattle.model.specs.Assembled.{objective_blocks};
ghost use Rattle.buffers.specs.Bounds.{objective_room, objectives_room};
ghost use Rattle.buffers.specs.Buffers.{Builds};
ghost use Rattle.buffers.specs.Lent.{RoomAll};
ghost use Rattle.objectives.specs.Input.{Ready};
ghost use Rattle.objectives.specs.Lends.{lends_of};
ghost use Rattle.objectives.specs.Owned.{BuildsOwners};

use buffers::put_owner;
pub use input::ObjectiveInput;
pub use list::ObjectiveList;
use model::{Buffers, Objective, Tally};
use torque::ThermalObjective;

// One objective. Linear has no rows: what it adds to the cost stands there from the start.
fn objective(t: Tally, out: &mut Buffers, input: &ObjectiveInput, o: Objective) -> Tally
    requires { RoomAll t objective_room × Ready (lends_of input.now) o }
    ensures { Builds t out.old result out.new (objective_block (lends_of input.now) t.columns.at o) objective_room }
{
    let mut u = t;
    match o {
        Objective::Time(weight) => stages::time(&mut u, out, input.path, weight),
        Objective::ThermalEnergy { weight, start, len } => {
            let thermal = ThermalObjective {
                torque: input.scaled(start, len),
                thermal: input.thermal,
                weight,
            };
            stages::thermal_energy(&mut u, out, thermal)
        }
        Objective::TotalVariationTorque { weight, start, len } => {
            let torque = input.scaled(start, len);
            stages::total_variation_torque(&mut u, out, torque, weight)
        }
        Objective::Linear { .. } => (),
    }
    u
}

// One of those that count. A function of its own, proved with no file, so that document 01's wrong program for later ones can be an edit of it.
// `Ready` stands here as with `objective`: a struct of an objective and that fact would be made at every call.
fn one_objective(t: Tally, out: &mut Buffers, input: &ObjectiveInput, o: Objective) -> Tally
    requires { RoomAll t objective_room × Ready (lends_of input.now) o }
    ensures { Builds t out.old result out.new (objective_block (lends_of input.now) t.columns.at o) objective_room }
{
    objective(t, out, input, o)
}

// All that count, each an owner of its own in the index.
pub fn clarabel_objective_copp3(t: Tally, out: &mut Buffers, list: &ObjectiveList) -> Tally
    requires { RoomAll t objectives_room × (t.owner < 2 ^ 32) × (length list.now.objectives.now ≤ most_objectives) }
    ensures { BuildsOwners t out.old result out.new (objective_blocks (lends_of list.now.input) t.columns.at list.now.objectives.now) objectives_room }
{
    let input = &list.input;
    let mut u = t;
    for o in list.objectives {
        let w = one_objective(u, out, input, *o);
        u = put_owner(u, w, out);
    }
    u
}
