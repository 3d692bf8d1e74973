// A wall: an arc for each of the six joints.
ghost use Rattle.std.specs.Prelude.{◌≡◌};
ghost use Rattle.walls.specs.Walls.{in_wall, apart};

use crate::arc::Arc;
use arm::Arm;

#[derive(Clone, Copy, Debug, Default, PartialEq)]
pub struct Wall {
    pub arcs: [Arc; 6],
}

impl Wall {
    // Whether a pose is in the wall: each of its angles is in its arc.
    pub fn contains(&self, pose: &Arm) -> bool
        ensures { result ≡ in_wall self.now pose.now }
    {
        self.arcs
            .iter()
            .zip(pose.angles.iter())
            .all(|(arc, angle)| arc.contains(*angle))
    }

    // Whether there is a joint whose arcs do not meet.
    pub fn is_apart(&self, other: &Wall) -> bool
        ensures { result ≡ apart self.now other.now }
    {
        self.arcs
            .iter()
            .zip(other.arcs.iter())
            .any(|(one, other)| !one.meets(other))
    }
}
