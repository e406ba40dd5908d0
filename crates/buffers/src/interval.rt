// An interval of a path.

ghost use Rattle.std.specs.Prelude.{◌≡◌, ◌+◌, ◌<◌, length};
ghost use Rattle.model.specs.Problem.{spacing};
ghost use Rattle.buffers.specs.Paths.{path_of};

use crate::Path;

// The interval from station k to the next.
#[derive(Clone, Copy)]
pub struct Interval<'a> {
    pub path: Path<'a>,
    pub k: usize,
    ghost inside: { k + 1 < length path.grid.now },
}

impl<'a> Interval<'a> {
    // How long it is.
    pub fn spacing(self) -> f64
        ensures { result ≡ spacing (path_of self.entry.path) self.entry.k }
    {
        crate::spacing(self.path.grid, self.k)
    }
}
