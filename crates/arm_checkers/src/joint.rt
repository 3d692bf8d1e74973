// One joint of a motion. It goes one way only and by at most one from each step to the next, so on
// its way past an arc it stands in it at some step.
ghost use Rattle.std.specs.Prelude.{◌≡◌, ℕ, ◌+◌, ◌<◌, ◌≤◌, nat_le};

use arm::turn;
use walls::Arc;

// A full turn.
const FULL: u16 = 4096;

// Where the joint starts, whether it goes up, how far it turns in all, and in how many steps.
#[derive(Clone, Copy)]
pub struct Joint {
    start: u16,
    upward: bool,
    size: u16,
    steps: u16,
    ghost round: { start < 4096 },
    ghost slow: { size ≤ steps },
    ghost few: { steps ≤ 2048 },
}

impl Joint {
    ghost use Rattle.arm.specs.Turns.{swing_of};
    ghost use Rattle.turning.specs.Motions.{joint_at};
    ghost use Rattle.walls.specs.Arcs.{in_arc};
    ghost use Rattle.arm_checkers.specs.First.{first_from};
    ghost use Rattle.arm_checkers.specs.Joints.{part_done, joint_angle, angle_after, short, way_left};

    // The joint that goes from one angle to another in so many steps.
    pub fn new(from: u16, to: u16, steps: u16) -> Joint
        requires slow { swing_of from to ≤ steps }
        requires few { steps ≤ 2048 }
        ensures angles { (t : ℕ) → joint_angle result t ≡ joint_at from to steps t }
        ensures steps { result.steps ≡ steps }
    {
        let turn = turn(from, to);
        Joint {
            start: from % FULL,
            upward: turn >= 0,
            size: turn.unsigned_abs() as u16,
            steps,
        }
    }

    // How much of the turn is done at a step, whichever way it goes. Angles are rounded down, so of
    // a turn down what is done is rounded up.
    fn done(&self, step: u16) -> u32
        ensures value { result ≡ part_done self.now step }
        ensures bound { result ≤ step }
    {
        let product = u32::from(self.size) * u32::from(step);
        // Where there are no steps the size is 0, so this keeps the divisions from a zero too.
        if product == 0 {
            return 0;
        }
        let steps = u32::from(self.steps);
        if self.upward {
            product / steps
        } else {
            product.div_ceil(steps)
        }
    }

    // The angle at which so much of the turn is done.
    fn angle_after(&self, done: u32) -> u16
        ensures { result ≡ angle_after self.now done }
    {
        let way = (done % u32::from(FULL)) as u16;
        if self.upward {
            (self.start + way) % FULL
        } else {
            (self.start + (FULL - way)) % FULL
        }
    }

    // The greatest product of size and step at which less than this part of the turn is done.
    fn short_of(&self, part: u32) -> u32
        requires some { 0 < part }
        requires whole { part ≤ self.now.size }
        ensures { result ≡ short self.now.upward self.now.steps part }
    {
        let steps = u32::from(self.steps);
        if self.upward {
            part * steps - 1
        } else {
            (part - 1) * steps
        }
    }

    // The first step, up to the last, at which at least this part of the turn is done. More than the
    // whole turn never is.
    fn first_done(&self, part: u32, last: u16) -> Option<u16>
        requires some { 0 < part }
        requires within { last ≤ self.now.steps }
        ensures { result ≡ first_from (λ t. nat_le part (part_done self.now t)) 0 last }
    {
        let size = u32::from(self.size);
        if part > size {
            return None;
        }
        let short = self.short_of(part);
        if size * u32::from(last) <= short {
            return None;
        }
        Some((short / size + 1) as u16)
    }

    // How far the joint has to go to an arc of this extent, when it is so far ahead of the arc's
    // start and outside: up to the start, or down to the end.
    fn way_to(&self, extent: u16, ahead: u16) -> u16
        requires outside { extent < ahead }
        requires round { ahead < 4096 }
        ensures value { result ≡ way_left self.now.upward extent ahead }
        ensures some { 0 < result }
        ensures round { result ≤ 4096 }
    {
        if self.upward {
            FULL - ahead
        } else {
            ahead - extent
        }
    }

    // The first step from one on, up to the last, at which the joint is in an arc: that step itself,
    // or the first at which so much of the turn is done that it has come to the arc.
    pub fn first_in(&self, arc: &Arc, from: u16, last: u16) -> Option<u16>
        requires ahead { from ≤ last }
        requires within { last ≤ self.now.steps }
        ensures { result ≡ first_from (λ t. in_arc arc.now (joint_angle self.now t)) from last }
    {
        let done = self.done(from);
        let ahead = arc.ahead(self.angle_after(done));
        let extent = arc.extent % FULL;
        if ahead <= extent {
            return Some(from);
        }
        let part = done + u32::from(self.way_to(extent, ahead));
        self.first_done(part, last)
    }
}
