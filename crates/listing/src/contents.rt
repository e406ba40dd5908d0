// What a page is told of the buffers.
ghost use Rattle.std.specs.Prelude.{◌≡◌};
ghost use Rattle.model.specs.Lent.{buffers_of};
ghost use Rattle.listing.specs.Listed.{contents_of};

use model::Buffers;

// What buffers 0 to 6 and the index hold, each lent by `&`. The page took eight slices by `&` from the start, and `&Buffers` would ask its callers for `&mut` ones.
#[derive(Clone, Copy)]
pub struct Contents<'a> {
    pub rows: &'a [usize],
    pub columns: &'a [usize],
    pub values: &'a [f64],
    pub right: &'a [f64],
    pub kinds: &'a [u8],
    pub dimensions: &'a [usize],
    pub cost: &'a [f64],
    pub index: &'a [usize],
}

impl<'a> From<&'a Buffers<'_>> for Contents<'a> {
    ghost from_gives = { λ buffers contents. contents_of contents ≡ buffers_of buffers.now };

    fn from(buffers: &'a Buffers<'_>) -> Contents<'a> {
        Contents {
            rows: buffers.rows,
            columns: buffers.columns,
            values: buffers.values,
            right: buffers.right,
            kinds: buffers.kinds,
            dimensions: buffers.dimensions,
            cost: buffers.cost,
            index: buffers.index,
        }
    }
}
