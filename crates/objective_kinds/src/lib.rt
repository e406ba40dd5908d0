// Which kinds of objectives a job has.

#![tactic(auto)]

ghost use Rattle.std.specs.Prelude.{◌≡◌, Bool};
ghost use Rattle.model.specs.Problem.{some, uses_root, is_thermal, is_torque, is_linear};

use model::Objective;

// Whether an objective is of a kind.
pub fn is_thermal(o: Objective) -> bool
    ensures { result ≡ is_thermal o }
{
    matches!(o, Objective::ThermalEnergy { .. })
}

pub fn is_torque(o: Objective) -> bool
    ensures { result ≡ is_torque o }
{
    matches!(o, Objective::TotalVariationTorque { .. })
}

pub fn is_linear(o: Objective) -> bool
    ensures { result ≡ is_linear o }
{
    matches!(o, Objective::Linear { .. })
}

// Whether an objective uses the root stage: each cone of a ThermalEnergy has a xi, as each of a Time has.
pub fn uses_root(o: Objective) -> bool
    ensures { result ≡ uses_root o }
{
    matches!(o, Objective::Time(_) | Objective::ThermalEnergy { .. })
}

// Whether any objective passes a test.
pub fn any_is<F: Fn(Objective) -> bool>(objectives: &[Objective], is: F) -> bool
    requires { F.IsAlwaysCallable is }
    ensures { (test : Objective → Bool) → ((o : Objective) (b : Bool) → F.post is o b → b ≡ test o) → result ≡ some test objectives.now }
{
    objectives.iter().any(|o| is(*o))
}

// Whether any objective uses the root stage: then there is one.
pub fn has_root(objectives: &[Objective]) -> bool
    ensures { result ≡ some uses_root objectives.now }
{
    any_is(objectives, uses_root)
}
