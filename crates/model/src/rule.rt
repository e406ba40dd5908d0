// The refusals of document 01, and 40 of the C interface.
ghost use Rattle.std.specs.Prelude.{◌≡◌};
ghost use Rattle.model.specs.Rules.{rule_number};
ghost use Rattle.model.specs.Verdicts.{refuse, err_if};

use crate::{Refusal, Verdict};

// Why a problem is refused; the discriminants are document 01's numbers. 28 here is the assembly's; 28 and 29 of who owns a row or a column are OwnerRefusal's.
#[derive(Clone, Copy, PartialEq, Eq, Debug)]
pub enum Rule {
    // "1 a boundary number is not finite"
    BoundaryNotFinite = 1,
    // "2 a boundary a is below 0"
    BoundaryNegative = 2,
    // "3 initial a is zero with b below 0 (place 0), or terminal a is zero with b above 0 (place 1)."
    BackwardAtRest = 3,
    // "4 fewer than 3 stations."
    TooFewStations = 4,
    // "Refusal 5 now begins at 65,538 stations."
    TooManyStations = 5,
    // "6 a grid number is not finite"
    GridNotFinite = 6,
    // "7 a grid number is not above the one before"
    GridNotRising = 7,
    // "8 d is outside 1 to 32."
    DimensionOutOfRange = 8,
    // "9 no objective."
    NoObjective = 9,
    // "10 more than 16."
    TooManyObjectives = 10,
    // "11 weight NaN, infinite or negative"
    WeightUnfit = 11,
    // "12 a list is not d long (scales) or n+1 long (alpha, beta), or runs past the pool"
    ListUnfit = 12,
    // "13 a scale is NaN, infinite or negative."
    ScaleUnfit = 13,
    // "14 N0 + N1 is n or more."
    NoMovingInterval = 14,
    // "15 a table that counts has a wrong length"
    TableLength = 15,
    // "16 a row count is above 256"
    TooManyRows = 16,
    // "17 a bound that is read is NaN or minus infinity, or a stationary minimum is plus infinity"
    BoundUnusable = 17,
    // "18 a stationary maximum is below its minimum"
    BoundsCrossed = 18,
    // "19 a buffer is shorter than needed"
    BufferTooShort = 19,
    // "20 a number to be written to values, right side or cost is not finite."
    NumberNotFinite = 20,
    // 28: "An index buffer too short, by one place or more"
    IndexTooShort = 28,
    // 40, of the C interface alone: an objective's kind is none of the four
    UnknownKind = 40,
}

impl Rule {
    // Document 01's number.
    pub fn number(self) -> usize
        ensures { result ≡ rule_number self }
    {
        self as usize
    }

    // The refusal at a place.
    pub fn at(self, place: usize) -> Refusal
        ensures { result ≡ record { rule = self; place = place } }
    {
        Refusal { rule: self, place }
    }

    // The refusal at a place if the test passes.
    #[tactic(auto, using(crate::proofs::Refused::refuse_is))]
    pub fn refuse_if(self, place: usize, test: bool) -> Verdict
        ensures { result ≡ refuse self place test }
    {
        err_if(test, self.at(place))
    }
}

// An error of any type if the test passes.
#[tactic(auto, unfolding(crate::specs::Verdicts::err_if))]
pub fn err_if<E: Drop>(test: bool, error: E) -> Result<(), E>
    ensures { result ≡ err_if test error }
{
    if test { Err(error) } else { Ok(()) }
}
