// Whether several numbers are all finite. specs/ says it of bands, cones and blocks, proofs/ has the laws by which scans compose.

#![tactic(auto)]

ghost use Rattle.std.specs.Prelude.{◌≡◌, ◌+◌, ◌^◌, ◌<◌, ◌≤◌, ℕ, Bool};
ghost use Rattle.finiteness.specs.Finite.{Each, finite_each};

use numbers::{both, is_finite};

// No branch: it looks at every number.
pub fn all_finite<const N: usize>(xs: [f64; N]) -> bool
    ensures { result ≡ finite_each xs.entry }
{
    let mut ok = true;
    for x in &xs {
        ok = both(ok, is_finite(*x));
    }
    ok
}

// Whether a test passes at each of count places, from one on. No branch: it goes on to its end.
pub fn every<F: Fn(usize) -> bool>(from: usize, count: usize, test: F) -> bool
    requires room { from + count < 2 ^ 64 }
    requires callable { (k : ℕ) → from ≤ k → k < from + count → F.pre test k }
    ensures { (f : ℕ → Bool) → ((k : ℕ) (b : Bool) → from ≤ k → k < from + count → F.post test k b → b ≡ f k) → Each result f from count }
{
    let mut ok = true;
    // Over numbers: the test is told by its place.
    for k in from..from + count {
        ok = both(ok, test(k));
    }
    ok
}
