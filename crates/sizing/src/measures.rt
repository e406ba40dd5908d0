// The numbers of which document 01's counts are made.

ghost use Rattle.sizing.specs.Bounds.{Bounded};

// d, n, m, p, L, u, A' and J'.
#[derive(Clone, Copy)]
pub struct Measures {
    pub d: usize,
    pub n: usize,
    pub m: usize,
    pub ends: usize,
    pub l: usize,
    pub uppers: usize,
    pub acc: usize,
    pub jerk: usize,
    ghost bounded: { Bounded d n m ends l uppers acc jerk },
}
