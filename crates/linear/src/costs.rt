// Objectives, with what their costs are told from.

ghost use Rattle.std.specs.Prelude.{All};
ghost use Rattle.linear.specs.Parts.{FitsIn};
ghost use Rattle.linear.specs.Props.{all_fit_prop};

use crate::parts::LinearInput;
use model::Objective;

// What the Linears among the objectives are told from, and the objectives: what refusals 12 and 15 leave of them.
#[derive(Clone, Copy)]
pub struct LinearCosts<'a> {
    pub input: LinearInput<'a>,
    pub objectives: &'a [Objective],
    ghost fit: { All (FitsIn input) objectives.now } by { all_fit_prop input objectives.now },
}
