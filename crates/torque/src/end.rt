// An end of a torque objective's path, and the two ends of a path.

ghost use Rattle.std.specs.Prelude.{◌≡◌, ◌<◌, length};
ghost use Rattle.model.specs.Problem.{n, stop};
ghost use Rattle.buffers.specs.Paths.{path_of};

use crate::scaled_torque::ScaledTorque;
use crate::station::TorqueStation;

// Its stationary count, its moving station and its resting one. LinearEnd (crate linear) has other things on the same end, so neither holds the other.
#[derive(Clone, Copy)]
pub struct TorqueEnd<'a> {
    pub torque: ScaledTorque<'a>,
    pub count: usize,
    pub moving: usize,
    pub resting: usize,
    ghost on_path: { (moving < length torque.path.grid.now) × (resting < length torque.path.grid.now) },
}

impl<'a> TorqueEnd<'a> {
    // The coefficients at the moving station.
    pub fn moving_station(self) -> TorqueStation<'a>
        ensures torque { result.torque ≡ self.entry.torque }
        ensures station { result.k ≡ self.entry.moving }
    {
        TorqueStation {
            torque: self.torque,
            k: self.moving,
        }
    }

    // At the resting station.
    pub fn resting_station(self) -> TorqueStation<'a>
        ensures torque { result.torque ≡ self.entry.torque }
        ensures station { result.k ≡ self.entry.resting }
    {
        TorqueStation {
            torque: self.torque,
            k: self.resting,
        }
    }
}

impl<'a> ScaledTorque<'a> {
    // The end at station 0.
    pub fn first_end(self) -> TorqueEnd<'a>
        ensures torque { result.torque ≡ self.entry }
        ensures count { result.count ≡ self.entry.path.ends.n0 }
        ensures moving { result.moving ≡ self.entry.path.ends.n0 }
        ensures resting { result.resting ≡ 0 }
    {
        TorqueEnd {
            torque: self,
            count: self.path.ends.n0,
            moving: self.path.ends.n0,
            resting: 0,
        }
    }

    // The end at station n.
    #[tactic(auto, unfolding(model::specs::Problem::stop))]
    pub fn last_end(self) -> TorqueEnd<'a>
        ensures torque { result.torque ≡ self.entry }
        ensures count { result.count ≡ self.entry.path.ends.n1 }
        ensures moving { result.moving ≡ stop (path_of self.entry.path) }
        ensures resting { result.resting ≡ n (path_of self.entry.path) }
    {
        TorqueEnd {
            torque: self,
            count: self.path.ends.n1,
            moving: self.path.stop(),
            resting: self.path.last(),
        }
    }
}
