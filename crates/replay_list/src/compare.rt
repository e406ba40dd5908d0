// Compares a buffer with the list, bit for bit: the places that were written with the list's numbers,
// and all later places with what the buffer held before the call.
ghost use Rattle.std.specs.Prelude.{◌≡◌, ℕ, true, List, length};
ghost use Rattle.std.specs.Float.{binary64, nan};
ghost use Rattle.std.specs.Float.Ieee.{of_bits, to_bits};
ghost use Rattle.model.specs.Verdicts.{itself};
ghost use Rattle.replay_list.specs.File.{byte_at, long_at, expected, Holds};

use crate::file::Place;

// What a buffer has at a place: a number, or a float by its bits.
pub trait Element: Copy {
    ghost number: { Self → ℕ };

    ghost read: { List ℕ → ℕ → ℕ };

    ghost WIDTH: { ℕ };

    ghost BEFORE: { Self };

    // How many bytes of the list it takes.
    const WIDTH: usize;

    // What a buffer holds before a call.
    const BEFORE: Self;

    // Whether it is what the list has at a place.
    fn is_at(self, place: Place<'_>) -> bool
        ensures { result ≡ true → number self ≡ read place.entry.list.now place.entry.at };

    // Whether it is that.
    fn is_before(self) -> bool
        ensures { result ≡ true → number self ≡ number BEFORE };
}

impl Element for u8 {
    ghost number = { itself };

    ghost read = { byte_at };

    ghost WIDTH = { 1 };

    ghost BEFORE = { 165 };

    const WIDTH: usize = 1;

    const BEFORE: u8 = 165;

    fn is_at(self, place: Place<'_>) -> bool {
        self == place.byte()
    }

    fn is_before(self) -> bool {
        self == Self::BEFORE
    }
}

impl Element for usize {
    ghost number = { itself };

    ghost read = { long_at };

    ghost WIDTH = { 8 };

    ghost BEFORE = { 13876516240719085568 };

    const WIDTH: usize = 8;

    const BEFORE: usize = 13876516240719085568;

    fn is_at(self, place: Place<'_>) -> bool {
        self as u64 == place.long()
    }

    fn is_before(self) -> bool {
        self == Self::BEFORE
    }
}

impl Element for f64 {
    ghost number = { to_bits binary64 };

    ghost read = { long_at };

    ghost WIDTH = { 8 };

    ghost BEFORE = { of_bits binary64 13876516240719085568 };

    const WIDTH: usize = 8;

    const BEFORE: f64 = -1234.5;

    fn is_at(self, place: Place<'_>) -> bool {
        has_bits(self, place.long())
    }

    #[tactic(auto, using(crate::proofs::Laws::float_before))]
    fn is_before(self) -> bool {
        // The bits of BEFORE.
        has_bits(self, 13876516240719085568)
    }
}

// Whether x is no NaN and has these bits.
fn has_bits(x: f64, bits: u64) -> bool
    ensures { result ≡ true → (x ≡ nan → ⊥) × (to_bits binary64 x ≡ bits) }
{
    !x.is_nan() && f64::to_bits(x) == bits
}

// Whether x is what a buffer of n written places, which the list has from a place on, holds at place i.
#[tactic(auto, unfolding(crate::specs::File::expected))]
fn is_expected<T: Element>(x: T, from: Place<'_>, n: usize, i: usize) -> bool
    ensures { result ≡ true → T.number x ≡ expected T.read T.WIDTH (T.number T.BEFORE) from.entry.list.now from.entry.at n i }
{
    if i < n {
        x.is_at(from.past(i, T::WIDTH))
    } else {
        x.is_before()
    }
}

pub fn agrees<T: Element>(found: &[T], from: Place<'_>, n: usize) -> bool
    ensures { result ≡ true → (d : T) → Holds T.number d (expected T.read T.WIDTH (T.number T.BEFORE) from.entry.list.now from.entry.at n) (length found.now) found.now }
{
    found
        .iter()
        .enumerate()
        .all(|(i, x)| is_expected(*x, from, n, i))
}
