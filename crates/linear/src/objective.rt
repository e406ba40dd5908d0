// What one Linear objective adds to the cost of a column.

ghost use Rattle.std.specs.Prelude.{◌≡◌, ◌+◌, ◌≤◌, length};
ghost use Rattle.model.specs.Numbers.{at, ◌⊗◌};
ghost use Rattle.model.specs.Lists.{list};
ghost use Rattle.model.specs.Problem.{m};
ghost use Rattle.model.specs.Program.{cell};
ghost use Rattle.buffers.specs.Paths.{path_of};
ghost use Rattle.linear.specs.Charges.{Charged};
ghost use Rattle.linear.specs.Parts.{charges_by};

use crate::parts::{LinearEnd, LinearObjective};
use columns::{column_a, column_b};
use model::Column;

impl<'a> LinearObjective<'a> {
    // The cost x of column c after alpha or beta; first is the column of station 0.
    #[tactic(auto, unfolding(model::specs::Problem::stop))]
    fn list_part(self, x: f64, table: &[f64], first: Column, c: Column) -> f64
        requires { (length table.now ≡ length self.path.grid.now) × (first.at ≤ length self.path.grid.now) }
        ensures { Charged result x c.at (list (λ k. cell (first.at + k) (self.entry.weight ⊗ at table.now k)) self.entry.path.ends.n0 (m (path_of self.entry.path) + 1)) }
    {
        let stop = self.path.stop();
        if c.at < first.at + self.path.ends.n0 {
            return x;
        }
        if first.at + stop < c.at {
            return x;
        }
        x + buffers::weighted(self.weight, table, c.at - first.at)
    }

    // The cost of column c after the objective, from its cost x before.
    #[tactic(auto, unfolding(model::specs::Problem::stop))]
    pub fn clarabel_objective_linear_copp3(self, x: f64, c: Column) -> f64
        ensures { Charged result x c.at (charges_by self.entry) }
    {
        let path = self.path;
        let a = column_a(0);
        let b = column_b(path.grid, 0);
        let start = LinearEnd {
            objective: self,
            moving: path.ends.n0,
            last: 0,
            roots: self.roots.start,
        };
        let end = LinearEnd {
            objective: self,
            moving: path.stop(),
            last: path.last(),
            roots: self.roots.end,
        };
        let y = start.part(x, c);
        let z = end.part(y, c);
        let v = self.list_part(z, self.alpha, a, c);
        self.list_part(v, self.beta, b, c)
    }
}
