// An arm's pose: six joints, each an angle of which 4,096 make a full turn.
#![tactic(auto)]

ghost use Rattle.std.specs.Prelude.{◌≡◌, ℕ, ◌≤◌, unsigned_abs};
ghost use Rattle.arm.specs.Turns.{turn_of, swing_of};
ghost use Rattle.arm.specs.Poses.{pose_distance};
ghost use Rattle.arm.specs.Lawful.{arm_lawful};

use metric::Metric;

// Half a turn and a full one.
const HALF: i32 = 2048;

const FULL: i32 = 4096;

// How much the turn of each joint counts in a distance.
const WEIGHTS: [u32; 6] = [32, 24, 16, 8, 4, 4];

// The angles of the joints, each read as its remainder by 4,096.
#[derive(Clone, Copy, Debug, PartialEq)]
pub struct Arm {
    pub angles: [u16; 6],
}

// How a joint turns from one angle to another: the shorter way round, upward positive. At half a
// turn it is the plain difference, 2048 or -2048.
pub fn turn(from: u16, to: u16) -> i32
    ensures value { result ≡ turn_of from to }
    ensures bound { unsigned_abs result ≤ 2048 }
{
    let difference = i32::from(to % 4096) - i32::from(from % 4096);
    if difference > HALF {
        difference - FULL
    } else if difference < -HALF {
        difference + FULL
    } else {
        difference
    }
}

// The size of the turn from one angle to another: the shorter of the two ways round.
pub fn swing(from: u16, to: u16) -> u32
    ensures value { result ≡ swing_of from to }
    ensures bound { result ≤ 2048 }
{
    let upward = (4096 + to % 4096 - from % 4096) % 4096;
    u32::from(upward.min(4096 - upward))
}

impl Metric for Arm {
    ghost dist = { pose_distance };

    ghost GREATEST = { 180224 };

    ghost laws = { arm_lawful };

    const GREATEST: u32 = 180224;

    // A loop over the joints, and not a sum written out: so several joints are measured at once.
    fn distance(&self, other: &Self) -> u32 {
        let mut sum = 0;
        for (joint, weight) in WEIGHTS.iter().enumerate() {
            sum += *weight * swing(self.angles[joint], other.angles[joint]);
        }
        sum
    }
}
