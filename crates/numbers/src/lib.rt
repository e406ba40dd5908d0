// Tests on numbers, the sum of counts, and an element of a list.

#![tactic(auto)]

ghost use Rattle.std.specs.Prelude.{◌≡◌, ◌&&◌, ◌^◌, ◌<◌, get_or};
ghost use Rattle.model.specs.Numbers.{finite};
ghost use Rattle.model.specs.Lists.{total};

// Neither NaN nor infinite: only then is x - x a number. Not `x.is_finite()`, of which two tests do not become one instruction: with it the scans of refusal 20 took some 1.4 times as long.
#[tactic(auto, using(crate::proofs::Finite::difference_told))]
pub fn is_finite(x: f64) -> bool
    ensures { result ≡ finite x }
{
    !(x - x).is_nan()
}

// Both tests pass. No branch: a scan goes on to its end anyway. `&` answers in std's word for bits; that it is the `&&` of the definitions is said once, here.
pub fn both(a: bool, b: bool) -> bool
    ensures { result ≡ (a && b) }
{
    a & b
}

// The sum of counts.
pub fn total(counts: &[u32]) -> usize
    requires { total counts.now < 2 ^ 64 }
    ensures { result ≡ total counts.now }
{
    counts.iter().map(|count| *count as usize).sum()
}

// Element i, or the default past the end.
pub fn item_or<T: Copy>(xs: &[T], i: usize, default: T) -> T
    ensures { result ≡ get_or xs.now i default }
{
    xs.get(i).copied().unwrap_or(default)
}
