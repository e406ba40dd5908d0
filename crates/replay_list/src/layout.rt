// A case with where its parts begin.
ghost use Rattle.std.specs.Prelude.{◌≡◌};
ghost use Rattle.replay_list.specs.Format.{starts_at, places_at};

use crate::file::Place;
use crate::input;
use crate::input::Places;

// Where the case begins, where each list of floats begins among all floats of the case and where the
// last ends, and where its parts begin.
#[derive(Clone, Copy)]
pub struct Case<'a> {
    pub start: Place<'a>,
    pub starts: [usize; 19],
    pub places: Places,
    ghost lists: { starts ≡ starts_at start.list.now start.at },
    ghost parts: { places ≡ places_at start.list.now start.at },
}

pub fn laid_out(start: Place<'_>) -> Case<'_>
    ensures { (result.start.list.now ≡ start.entry.list.now) × (result.start.at ≡ start.entry.at) }
{
    let starts = input::starts_at(start);
    let places = input::places_at(start, &starts);
    Case {
        start,
        starts,
        places,
    }
}
