// What an end of the path adds to the cost of its moving station's column.

ghost use Rattle.std.specs.Prelude.{◌≡◌, ◌<◌, ◌≤◌, length};
ghost use Rattle.model.specs.Lists.{list};
ghost use Rattle.model.specs.Program.{cell};
ghost use Rattle.linear.specs.Charges.{Sums, Charged};
ghost use Rattle.linear.specs.Parts.{charge_at};

use crate::parts::LinearEnd;
use model::Column;

impl<'a> LinearEnd<'a> {
    // What station k adds.
    #[tactic(auto, unfolding(model::specs::Objectives::end_charge))]
    fn charge(self, k: usize) -> f64
        requires { (0 < k) × (k ≤ length self.roots.now) }
        ensures { result ≡ charge_at self.entry k }
    {
        let grid = self.objective.path.grid;
        let alpha = self.objective.alpha;
        let beta = self.objective.beta;
        let weight = self.objective.weight;
        let x = grid[k] - grid[self.last];
        let gamma = x / (grid[self.moving] - grid[self.last]);
        weight * gamma * self.roots[k - 1] * (alpha[k] + beta[k] / (1.5 * x))
    }

    // The cost x of the moving station's column after what all of them add, one after another.
    fn sum(self, x: f64) -> f64
        ensures { Sums result x self.entry.moving (charge_at self.entry) 1 (length self.entry.roots.now) }
    {
        let mut y = x;
        // Over the stations' numbers: what station k adds is told from the grid, alpha and beta at k and the root at k - 1.
        for k in 1..=self.roots.len() {
            y = y + self.charge(k);
        }
        y
    }

    // The cost x of column c after what the end adds.
    pub fn part(self, x: f64, c: Column) -> f64
        ensures { Charged result x c.at (list (λ k. cell self.entry.moving (charge_at self.entry k)) 1 (length self.entry.roots.now)) }
    {
        if c.at != self.moving {
            return x;
        }
        self.sum(x)
    }
}
