// Document 01's formulas of the four counts.

#![tactic(auto)]

ghost use Rattle.std.specs.Prelude.{◌≡◌, ◌+◌, ◌*◌, ◌≤◌, length};
ghost use Rattle.model.specs.Refusals.{most_objectives};
ghost use Rattle.model.specs.Problem.{Problem, objectives, has_root};
ghost use Rattle.model.specs.Counts.{◌plus◌, standard_counts, root_counts, objective_counts, objectives_counts, counts};
ghost use Rattle.sizing.specs.Bounds.{standard_most, root_most, objective_most, objectives_most, Few};
ghost use Rattle.sizing.specs.Measured.{MeasuredOf};

use crate::Measures;
use model::{FourCounts, Objective};
use objective_kinds::has_root;

// Not an impl of Add: the sum of any two counts may pass 64 bits, and Add's may not ask that it doesn't.
fn sum(a: FourCounts, b: FourCounts) -> FourCounts
    requires { Few (2 * standard_most) a × Few (2 * standard_most) b }
    ensures { result ≡ (a plus b) }
{
    FourCounts {
        entries: a.entries + b.entries,
        rows: a.rows + b.rows,
        cones: a.cones + b.cones,
        columns: a.columns + b.columns,
    }
}

// Each clause is of any p measured so, since `count` also promises what does not depend on tables 3 to 15; and each `Few` has another bound. So neither is a ghost field.
impl Measures {
    // Before the objectives.
    fn standard(self) -> FourCounts
        ensures { ((p : Problem) → MeasuredOf p self → result ≡ standard_counts p) × Few standard_most result }
    {
        FourCounts {
            entries: 3 + 3 * self.ends + 10 * self.m + self.uppers + 2 * self.acc + 3 * self.jerk,
            rows: 3 + 2 * self.ends + 4 * self.m + self.uppers + self.acc + self.jerk,
            cones: 2,
            columns: 2 * self.n + 2,
        }
    }

    // The root stage, if there is one: a test, as document 01's formula has it, and no value goes with it.
    fn root(self, present: bool) -> FourCounts
        ensures { ((p : Problem) → MeasuredOf p self → present ≡ has_root p → result ≡ root_counts p) × Few root_most result }
    {
        if present {
            FourCounts {
                entries: 4 * self.l,
                rows: 4 * self.l,
                cones: 1 + self.l,
                columns: self.l,
            }
        } else {
            FourCounts::default()
        }
    }

    // What a Time adds.
    fn time(self) -> FourCounts
        ensures { (result ≡ record { entries = 5 * self.l; rows = 4 * self.l; cones = 1 + self.l; columns = self.l }) × Few objective_most result }
    {
        FourCounts {
            entries: 5 * self.l,
            rows: 4 * self.l,
            cones: 1 + self.l,
            columns: self.l,
        }
    }

    // What a ThermalEnergy adds.
    fn thermal(self) -> FourCounts
        ensures { (result ≡ record { entries = (4 + 2 * self.d) * (self.ends + self.l); rows = (2 + self.d) * (self.ends + self.l); cones = self.ends + self.l; columns = self.ends + self.l }) × Few objective_most result }
    {
        let cones = self.ends + self.l;
        FourCounts {
            entries: (4 + 2 * self.d) * cones,
            rows: (2 + self.d) * cones,
            cones,
            columns: cones,
        }
    }

    // What a TotalVariationTorque adds.
    fn torque(self) -> FourCounts
        ensures { (result ≡ record { entries = 6 * self.d * self.ends + 10 * self.d * self.m; rows = 2 * self.d * (self.ends + self.m); cones = 1; columns = self.d * (self.ends + self.m) }) × Few objective_most result }
    {
        let columns = self.d * (self.ends + self.m);
        let rows = 2 * self.d * (self.ends + self.m);
        let at_ends = 6 * self.d * self.ends;
        let moving = 10 * self.d * self.m;
        FourCounts {
            entries: at_ends + moving,
            rows,
            cones: 1,
            columns,
        }
    }

    // What an objective adds.
    fn objective(self, o: Objective) -> FourCounts
        ensures { ((p : Problem) → MeasuredOf p self → result ≡ objective_counts p o) × Few objective_most result }
    {
        match o {
            Objective::Time(_) => self.time(),
            Objective::ThermalEnergy { .. } => self.thermal(),
            Objective::TotalVariationTorque { .. } => self.torque(),
            Objective::Linear { .. } => FourCounts::default(),
        }
    }

    // What the objectives that count add.
    fn objectives(self, objectives: &[Objective]) -> FourCounts
        requires { length objectives.now ≤ most_objectives }
        ensures { ((p : Problem) → MeasuredOf p self → result ≡ objectives_counts p objectives.now) × Few objectives_most result }
    {
        let mut t = FourCounts::default();
        for o in objectives {
            t = sum(t, self.objective(*o));
        }
        t
    }

    // The four counts, of a job with these objectives.
    pub(crate) fn counted(self, listed: &[Objective]) -> FourCounts
        requires { length listed.now ≤ most_objectives }
        ensures { (p : Problem) → MeasuredOf p self → listed.now ≡ objectives p → result ≡ counts p }
    {
        let standard = self.standard();
        let root = self.root(has_root(listed));
        let before = sum(standard, root);
        sum(before, self.objectives(listed))
    }
}
