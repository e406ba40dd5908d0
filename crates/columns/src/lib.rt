// The numbers of the a, b and xi columns, and how many xi there are.

#![tactic(auto)]

ghost use Rattle.std.specs.Prelude.{◌≡◌, [], ◌<◌, ◌≤◌, max, length};
ghost use Rattle.model.specs.Refusals.{most_stations};
ghost use Rattle.model.specs.Problem.{on_grid, col_a, col_b, col_xi, L};
ghost use Rattle.buffers.specs.Paths.{path_of};

use buffers::Path;
use model::Column;

// a of station k, which no grid moves.
pub fn column_a(k: usize) -> Column
    ensures { result.at ≡ col_a (on_grid []) k }
{
    Column { at: k }
}

// b of station k.
pub fn column_b(grid: &[f64], k: usize) -> Column
    requires { (0 < length grid.now) × (length grid.now ≤ most_stations) × (k ≤ most_stations) }
    ensures { result.at ≡ col_b (on_grid grid.now) k }
{
    Column { at: grid.len() + k }
}

// xi number j. That there is a xi of that number stands with each function that takes one: the loops over the xi hand on the number alone.
pub fn column_xi(grid: &[f64], j: usize) -> Column
    requires { (0 < length grid.now) × (length grid.now ≤ most_stations) × (j ≤ most_stations) }
    ensures { result.at ≡ col_xi (on_grid grid.now) j }
{
    Column {
        at: 2 * grid.len() + j,
    }
}

// The first station that has a xi.
pub fn first_xi(path: Path) -> usize
    ensures { result ≡ max path.entry.ends.n0 1 }
{
    path.ends.n0.max(1)
}

// How many xi there are.
pub fn length_xi(path: Path) -> usize
    ensures { result ≡ L (path_of path.entry) }
{
    path.grid.len() - path.ends.n0.max(1) - path.ends.n1.max(1)
}
