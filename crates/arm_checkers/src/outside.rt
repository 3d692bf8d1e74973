// A pose beside walls.
ghost use Rattle.std.specs.Prelude.{◌≡◌};
ghost use Rattle.arm_checkers.specs.Passes.{outside};

use arm::Arm;
use walls::Wall;

// Whether a pose is in none of the walls.
pub fn is_outside(walls: &[Wall], pose: &Arm) -> bool
    ensures { result ≡ outside walls.now pose.now }
{
    for wall in walls {
        if wall.contains(pose) {
            return false;
        }
    }
    true
}
