// The Linears among the objectives.

ghost use Rattle.std.specs.Prelude.{◌≡◌, ◌≤◌, ℕ, All, length, map, take, filter};
ghost use Rattle.model.specs.Lists.{joined};
ghost use Rattle.model.specs.Numbers.{+0};
ghost use Rattle.model.specs.Problem.{is_linear};
ghost use Rattle.model.specs.Refusals.{most_objectives};
ghost use Rattle.linear.specs.Charges.{Charged, Long};
ghost use Rattle.linear.specs.Parts.{FitsIn, charges_in, listed_as};

use crate::column_cost;
use crate::costs::LinearCosts;
use crate::parts::{LinearInput, LinearObjective};
use model::{Column, Objective};

// The weight of a Linear, and where alpha and beta begin in the pool. They are as long as the grid.
#[derive(Clone, Copy)]
pub struct LinearLists {
    pub weight: f64,
    pub alpha: usize,
    pub beta: usize,
}

impl LinearLists {
    // The cost x of column c after this Linear.
    fn charge(self, x: f64, input: &LinearInput, c: Column) -> f64
        requires { FitsIn input.now (listed_as (length input.now.path.grid.now) self) }
        ensures { Charged result x c.at (charges_in input.now (listed_as (length input.now.path.grid.now) self)) }
    {
        let stations = input.path.grid.len();
        let linear = LinearObjective {
            path: input.path,
            roots: input.roots,
            alpha: &input.pool[self.alpha..self.alpha + stations],
            beta: &input.pool[self.beta..self.beta + stations],
            weight: self.weight,
        };
        linear.clarabel_objective_linear_copp3(x, c)
    }
}

// The cost x of column c after these Linears, one after another. No other place charges a Linear, so that the compiler puts the charge into this loop.
pub(crate) fn charged(x: f64, input: &LinearInput, linears: &[LinearLists], c: Column) -> f64
    requires { All (FitsIn input.now) (map (listed_as (length input.now.path.grid.now)) linears.now) }
    ensures { Charged result x c.at (joined (charges_in input.now) (map (listed_as (length input.now.path.grid.now)) linears.now)) }
{
    // A copy, so that what is the same for all of them is read once.
    let lent = *input;
    let mut y = x;
    for linear in linears {
        y = linear.charge(y, &lent, c);
    }
    y
}

// They stand at the front of an array, in the order of the objectives.
#[derive(Clone, Copy)]
pub struct Linears {
    pub kept: [LinearLists; 16],
    pub count: usize,
    ghost within: { count ≤ 16 },
}

impl Linears {
    // Of at most 16 objectives. They are gathered once for all columns, so that each column's cost goes over them alone.
    pub fn among(objectives: &[Objective]) -> Linears
        ensures { (result.count ≤ length objectives.now) × ((l : ℕ) → length objectives.now ≤ most_objectives → All (Long l) objectives.now → map (listed_as l) (take result.count result.kept) ≡ filter is_linear objectives.now) }
    {
        let none = LinearLists {
            weight: 0.0,
            alpha: 0,
            beta: 0,
        };
        let mut kept = [none; 16];
        let mut count = 0;
        for o in objectives {
            if let Objective::Linear {
                weight,
                alpha,
                beta,
                ..
            } = *o
            {
                if count < 16 {
                    kept[count] = LinearLists {
                        weight,
                        alpha,
                        beta,
                    };
                    count += 1;
                }
            }
        }
        Linears { kept, count }
    }

    // The cost of column c with all objectives. More than 16 objectives are gone over as they are.
    pub fn column_cost(&self, costs: &LinearCosts, c: Column) -> f64
        requires { length costs.now.objectives.now ≤ most_objectives → map (listed_as (length costs.now.input.path.grid.now)) (take self.now.count self.now.kept) ≡ filter is_linear costs.now.objectives.now }
        ensures { Charged result +0 c.at (joined (charges_in costs.now.input) costs.now.objectives.now) }
    {
        if costs.objectives.len() > 16 {
            return column_cost(costs, c);
        }
        charged(0.0, &costs.input, &self.kept[..self.count], c)
    }
}
