// A path that the checks accept, and the numbers that stages take from it.

ghost use Rattle.std.specs.Prelude.{◌≡◌};
ghost use Rattle.model.specs.Problem.{n, m, stop};
ghost use Rattle.buffers.specs.Inputs.{Sized, path};

use model::{Ends, Problem};

// The grid with its stationary counts. Refusals 4, 5 and 14 leave at least 3 stations, at most 65,537, and a moving interval.
#[derive(Clone, Copy)]
pub struct Path<'a> {
    pub grid: &'a [f64],
    pub ends: Ends,
    ghost sized: { Sized grid.now ends },
}

impl<'a> Path<'a> {
    // n, the last station.
    pub fn last(self) -> usize
        ensures { result ≡ n (path self.entry.grid.now self.entry.ends) }
    {
        self.grid.len() - 1
    }

    // How many intervals move.
    #[tactic(auto, unfolding(model::specs::Problem::m))]
    pub fn moving(self) -> usize
        ensures { result ≡ m (path self.entry.grid.now self.entry.ends) }
    {
        self.last() - self.ends.n0 - self.ends.n1
    }

    // The last moving station.
    #[tactic(auto, unfolding(model::specs::Problem::stop))]
    pub fn stop(self) -> usize
        ensures { result ≡ stop (path self.entry.grid.now self.entry.ends) }
    {
        self.last() - self.ends.n1
    }
}

// The path of a problem.
pub fn path_in<'a>(problem: &Problem<'a>) -> Path<'a>
    requires { Sized problem.now.grid.now problem.now.job.ends }
    ensures grid { result.grid ≡ problem.now.grid }
    ensures ends { result.ends ≡ problem.now.job.ends }
{
    Path {
        grid: problem.grid,
        ends: problem.job.ends,
    }
}
