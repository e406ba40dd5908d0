// What the first-order rows are written from.

ghost use Rattle.std.specs.Prelude.{◌≡◌, length};

use buffers::Path;
use model::Bounds;

// The path, the bounds at its ends, and table 2 with a bound for each station, as refusal 15 leaves it.
#[derive(Clone, Copy)]
pub struct Limits<'a> {
    pub path: Path<'a>,
    pub start: Bounds,
    pub end: Bounds,
    pub amax: &'a [f64],
    ghost sized: { length amax.now ≡ length path.grid.now },
}
