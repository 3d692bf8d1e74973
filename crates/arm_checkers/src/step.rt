// Step: a pair passes if no pose of the motion between them is in a wall.
ghost use Rattle.std.specs.Prelude.{◌≡◌};
ghost use Rattle.arm_checkers.specs.Passes.{step_passes};
ghost use Rattle.arm_checkers.specs.Lawful.{step_symmetric};

use crate::outside::is_outside;
use crate::sweep::sweep;
use crate::way::Way;
use arm::Arm;
use checker::Checker;
use motion::steps;
use walls::Wall;

#[derive(Clone, Copy)]
pub struct StepChecker<'w> {
    pub walls: &'w [Wall],
}

impl<'w> Checker<Arm> for StepChecker<'w> {
    ghost passes = { λ c e f. step_passes c.walls.now e f };

    ghost symmetric = { λ c. step_symmetric c.walls.now };

    // The first pose is looked at before the motion is worked out: it settles a pair that begins in a
    // wall, and one that does not move. Then a loop over the lent walls, whose invariant is that no
    // wall seen so far is met. A wall apart from all that the joints sweep never is, and is passed
    // over. The loop ends at the first wall that is met, where first_in_walls goes on to the others,
    // since they may be met sooner.
    fn check(&self, a: &Arm, b: &Arm) -> bool {
        if !is_outside(self.walls, a) {
            return false;
        }
        if steps(a, b) == 0 {
            return true;
        }
        let way = Way::new(a, b);
        let swept = sweep(a, b);
        for wall in self.walls {
            if wall.is_apart(&swept) {
                continue;
            }
            if way.first_in(wall, way.steps).is_some() {
                return false;
            }
        }
        true
    }
}
