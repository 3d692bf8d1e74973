// A motion, joint by joint: made once for a pair, and held against each wall.
ghost use Rattle.std.specs.Prelude.{◌≡◌, ℕ, ◌≤◌};
ghost use Rattle.arm_checkers.specs.Joints.{Together};

use crate::joint::Joint;
use arm::Arm;
use motion::steps;
use std::array;
use walls::Wall;

#[derive(Clone, Copy)]
pub struct Way {
    joints: [Joint; 6],
    pub steps: u16,
    ghost together: { Together joints steps },
}

impl Way {
    ghost use Rattle.turning.specs.Motions.{pose_at, steps_of};
    ghost use Rattle.walls.specs.Walls.{in_wall};
    ghost use Rattle.arm_checkers.specs.First.{first_from};
    ghost use Rattle.arm_checkers.specs.Meetings.{way_pose};

    pub fn new(from: &Arm, to: &Arm) -> Way
        ensures steps { result.steps ≡ steps_of from.now to.now }
        ensures poses { (t : ℕ) → way_pose result t ≡ pose_at from.now to.now (steps_of from.now to.now) t }
    {
        let steps = steps(from, to);
        Way {
            joints: array::from_fn(|i| Joint::new(from.angles[i], to.angles[i], steps)),
            steps,
        }
    }

    // The first step, up to the last, at which the motion is in a wall. The joints are asked in
    // turn from when on they are in their arcs: one that comes later moves the step there, and all
    // are asked again; one that never comes ends it.
    pub fn first_in(&self, wall: &Wall, last: u16) -> Option<u16>
        requires { last ≤ self.now.steps }
        ensures { result ≡ first_from (λ t. in_wall wall.now (way_pose self.now t)) 0 last }
    {
        let mut t = 0;
        let mut joint = 0;
        while joint < 6 {
            let next = self.joints[joint].first_in(&wall.arcs[joint], t, last)?;
            if next == t {
                joint += 1;
            } else {
                t = next;
                joint = 0;
            }
        }
        Some(t)
    }
}
