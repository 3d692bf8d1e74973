// Both checkers over the same walls.
ghost use Rattle.std.specs.Prelude.{◌≡◌};
ghost use Rattle.arm_checkers.specs.Passes.{step_passes, box_passes, BoxWithinStep};

use crate::step::StepChecker;
use crate::sweep::BoxChecker;
use arm::Arm;
use checker::Checker;
use walls::Wall;

// Whether Step passes a pair, and whether Box does. Box is asked first: Step passes all that Box
// passes, and then its longer look is spared.
pub fn both(walls: &[Wall], a: &Arm, b: &Arm) -> (bool, bool)
    ensures stepped { result.0 ≡ step_passes walls.now a.now b.now }
    ensures boxed { result.1 ≡ box_passes walls.now a.now b.now }
    ensures within { BoxWithinStep walls.now }
{
    if (BoxChecker { walls }).check(a, b) {
        return (true, true);
    }
    ((StepChecker { walls }).check(a, b), false)
}
