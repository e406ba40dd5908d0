// Linear: what it adds to the cost of the a and b columns. Each column's cost is told on its own.

#![tactic(auto)]

mod costs;
mod end;
mod linears;
mod objective;
mod parts;

ghost use Rattle.std.specs.Prelude.{◌+◌, ◌*◌, ◌^◌, ◌<◌, length};
ghost use Rattle.model.specs.Numbers.{+0};
ghost use Rattle.model.specs.Lists.{joined};
ghost use Rattle.model.specs.Problem.{n};
ghost use Rattle.buffers.specs.Buffers.{FillsCost};
ghost use Rattle.buffers.specs.Paths.{path_of};
ghost use Rattle.linear.specs.Charges.{Charged};
ghost use Rattle.linear.specs.Parts.{FitsIn, charges_in, cost_in};

pub use costs::LinearCosts;
use linears::charged;
pub use linears::{LinearLists, Linears};
use model::{Buffers, Column, Objective, Tally};
use objective_kinds::{any_is, is_linear};
pub use parts::LinearInput;

// The cost of column c after an objective, from its cost x before: only a Linear adds to it.
fn charge(x: f64, input: &LinearInput, o: Objective, c: Column) -> f64
    requires { FitsIn input.now o }
    ensures { Charged result x c.at (charges_in input.now o) }
{
    match o {
        Objective::Linear {
            weight,
            alpha,
            beta,
            ..
        } => {
            let lists = LinearLists {
                weight,
                alpha,
                beta,
            };
            charged(x, input, &[lists], c)
        }
        _ => x,
    }
}

// The cost of column c with all objectives.
pub fn column_cost(costs: &LinearCosts, c: Column) -> f64
    ensures { Charged result +0 c.at (joined (charges_in costs.now.input) costs.now.objectives.now) }
{
    let input = &costs.input;
    let mut x = 0.0;
    for o in costs.objectives {
        x = charge(x, input, *o, c);
    }
    x
}

// The cost of the a and b columns: each told and written on its own, so that nothing is read back. Without a Linear it is 0.
pub fn ab_costs(t: Tally, out: &mut Buffers, costs: &LinearCosts) -> Tally
    requires { t.columns.at + 2 * length costs.now.input.path.grid.now < 2 ^ 64 }
    ensures { FillsCost t out.old result out.new (cost_in costs.now.input costs.now.objectives.now) 0 (2 * (n (path_of costs.now.input.path) + 1)) }
{
    let count = 2 * costs.input.path.grid.len();
    if any_is(costs.objectives, is_linear) {
        let linears = Linears::among(costs.objectives);
        return buffers::fill_cost(
            t,
            out,
            count,
            |i| linears.column_cost(costs, Column { at: i }),
        );
    }
    buffers::fill_cost(t, out, count, |_i| 0.0)
}
