// Step's rule as it stands: every pose of the motion is held against every wall.
use arm::Arm;
use motion::{pose, steps};
use walls::Wall;

fn is_in_any(walls: &[Wall], pose: &Arm) -> bool {
    for wall in walls {
        if wall.contains(pose) {
            return true;
        }
    }
    false
}

// The first step whose pose is in one of the walls.
pub fn first_step(walls: &[Wall], e: &Arm, f: &Arm) -> Option<u16> {
    let n = steps(e, f);
    for t in 0..n + 1 {
        if is_in_any(walls, &pose(e, f, t, n)) {
            return Some(t);
        }
    }
    None
}
