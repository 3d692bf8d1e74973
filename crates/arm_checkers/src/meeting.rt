// When a motion first is in a wall.
ghost use Rattle.std.specs.Prelude.{◌≡◌, is_none};
ghost use Rattle.arm_checkers.specs.Passes.{step_passes};
ghost use Rattle.arm_checkers.specs.Meetings.{first_met, first_met_of};

use crate::way::Way;
use arm::Arm;
use walls::Wall;

/// The first step at which the motion between two poses is in the wall, from 0 to the motion's last
/// one, 2,048 at most; none if no pose of it is.
pub fn first_in_wall(wall: &Wall, from: &Arm, to: &Arm) -> Option<u16>
    ensures { result ≡ first_met wall.now from.now to.now }
{
    let way = Way::new(from, to);
    way.first_in(wall, way.steps)
}

/// The first step at which the motion between two poses is in any of the walls; none if no pose of it
/// is, and that is when Step passes the pair.
// A wall counts up to the first step met so far, that step included, and is given up where the motion
// cannot come into it by then.
pub fn first_in_walls(walls: &[Wall], from: &Arm, to: &Arm) -> Option<u16>
    ensures first { result ≡ first_met_of walls.now from.now to.now }
    ensures passes { is_none result ≡ step_passes walls.now from.now to.now }
{
    let way = Way::new(from, to);
    let mut first = None;
    for wall in walls {
        let last = first.unwrap_or(way.steps);
        if let Some(t) = way.first_in(wall, last) {
            first = Some(t);
        }
    }
    first
}
