// Box: a pair passes if each wall has a joint whose arc does not meet the arc that the joint
// sweeps between them.
ghost use Rattle.std.specs.Prelude.{◌≡◌};
ghost use Rattle.arm_checkers.specs.Passes.{swept, swept_box, box_passes};
ghost use Rattle.arm_checkers.specs.Lawful.{box_symmetric};

use arm::{Arm, turn};
use checker::Checker;
use std::array;
use walls::{Arc, Wall};

#[derive(Clone, Copy)]
pub struct BoxChecker<'w> {
    pub walls: &'w [Wall],
}

// The arc that a joint sweeps: it starts at the lower end.
fn swept_arc(from: u16, to: u16) -> Arc
    ensures { result ≡ swept from to }
{
    let turn = turn(from, to);
    let start = if turn >= 0 { from % 4096 } else { to % 4096 };
    Arc {
        start,
        extent: turn.unsigned_abs() as u16,
    }
}

// The arcs that all joints sweep.
pub fn sweep(a: &Arm, b: &Arm) -> Wall
    ensures { result ≡ swept_box a.now b.now }
{
    Wall {
        arcs: array::from_fn(|i| swept_arc(a.angles[i], b.angles[i])),
    }
}

impl<'w> Checker<Arm> for BoxChecker<'w> {
    ghost passes = { λ c e f. box_passes c.walls.now e f };

    ghost symmetric = { λ c. box_symmetric c.walls.now };

    // A loop over the lent walls, whose invariant is what was seen so far.
    fn check(&self, a: &Arm, b: &Arm) -> bool {
        let swept = sweep(a, b);
        for wall in self.walls {
            if !wall.is_apart(&swept) {
                return false;
            }
        }
        true
    }
}
