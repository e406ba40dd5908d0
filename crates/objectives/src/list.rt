// Objectives, with what they are written from.

ghost use Rattle.std.specs.Prelude.{length};
ghost use Rattle.objectives.specs.Input.{AllReady};
ghost use Rattle.objectives.specs.Lends.{lends_of};
ghost use Rattle.objectives.specs.Props.{all_ready_prop};

use crate::input::ObjectiveInput;
use model::Objective;

// What refusals 8, 12 and 15 leave of them.
#[derive(Clone, Copy)]
pub struct ObjectiveList<'a> {
    pub input: ObjectiveInput<'a>,
    pub objectives: &'a [Objective],
    ghost ready: { AllReady (lends_of input) objectives.now (length objectives.now) } by { all_ready_prop (lends_of input) objectives.now (length objectives.now) },
}
