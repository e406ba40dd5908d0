// A double as text: in decimals if it is the nearest to a whole multiple of 1/10,000, and else its 16 hex digits.
ghost use Rattle.std.specs.Prelude.{◌≡◌};
ghost use Rattle.text.specs.Text.{says};
ghost use Rattle.text.specs.Number.{minus, magnitude, nearest, fraction, sign, number};

use crate::Writer;

// Whether x is −0 or a finite number below 0: 1 / x is below 0 at these alone, and at −∞ it is −0. Not `f64::is_sign_negative`: it asks of its caller that x is no NaN.
pub fn minus(x: f64) -> bool
    ensures { result ≡ minus x }
{
    1.0 / x < 0.0
}

// Not `f64::abs`: at −∞ it differs, since 1 / −∞ is −0, which is not below 0.
#[tactic(auto, unfolding(crate::specs::Number::magnitude))]
fn magnitude(x: f64) -> f64
    ensures { result ≡ magnitude x }
{
    if minus(x) { -x } else { x }
}

// How many ten-thousandths a double is nearest to.
#[tactic(auto, unfolding(crate::specs::Number::nearest))]
fn nearest(x: f64) -> Option<u64>
    ensures { result ≡ nearest x }
{
    let scaled = x * 10000.0 + 0.5;
    if scaled > -1.0 && scaled < 18446744073709551616.0 {
        let k = std::num::truncating_f64_to_u64(scaled);
        if k < 2251799813685248 && std::num::nearest_u64_to_f64(k) / 10000.0 == x {
            return Some(k);
        }
    }
    None
}

impl Writer<'_> {
    #[tactic(auto, using(crate::proofs::Laws::written_nothing, crate::proofs::Laws::written_first), unfolding(crate::specs::Number::fraction))]
    fn fraction(&mut self, f: u64)
        ensures { says (fraction f) self }
    {
        if f == 0 {
            return;
        }
        self.put(b'.');
        if f % 1000 == 0 {
            self.digits(10, 1, f / 1000);
        } else if f % 100 == 0 {
            self.digits(10, 2, f / 100);
        } else if f % 10 == 0 {
            self.digits(10, 3, f / 10);
        } else {
            self.digits(10, 4, f);
        }
    }

    #[tactic(auto, using(crate::proofs::Laws::written_nothing))]
    fn sign(&mut self, x: f64)
        ensures { says (sign x) self }
    {
        if minus(x) {
            self.put(b'-');
        }
    }

    #[tactic(auto, using(crate::proofs::Doubles::number_nan))]
    pub fn number(&mut self, x: f64)
        ensures { says (number x) self }
    {
        if x.is_nan() {
            self.words(b"NaN");
            return;
        }
        match nearest(magnitude(x)) {
            Some(k) => {
                self.sign(x);
                self.decimal(k / 10000);
                self.fraction(k % 10000);
            }
            None => {
                self.words(b"0x");
                self.digits(16, 16, f64::to_bits(x));
            }
        }
    }
}
