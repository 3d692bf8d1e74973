// The motion of an arm from one pose to another: how many steps it has, and the pose at each.
#![tactic(auto)]

ghost use Rattle.std.specs.Prelude.{◌≡◌, ◌*◌, ◌<◌, ◌≤◌, reverse, unsigned_abs};
ghost use Rattle.turning.specs.Circle.{floor, RoundsDown};
ghost use Rattle.turning.specs.Motions.{turned, joint_at, pose_at, steps_of, motion};

use arm::{Arm, swing, turn};
use std::array;

// How many steps the motion has: the greatest turn of a joint. Its poses are those at the steps
// from 0 to this one, and the poses of the way back are the same, in reverse.
pub fn steps(from: &Arm, to: &Arm) -> u16
    ensures value { result ≡ steps_of from.now to.now }
    ensures back { motion to.now from.now ≡ reverse (motion from.now to.now) }
    ensures bound { result ≤ 2048 }
{
    let a = from.angles;
    let b = to.angles;
    let longest = swing(a[0], b[0])
        .max(swing(a[1], b[1]))
        .max(swing(a[2], b[2]))
        .max(swing(a[3], b[3]))
        .max(swing(a[4], b[4]))
        .max(swing(a[5], b[5]));
    longest as u16
}

// The quotient, rounded down, also below zero.
fn floor_div(z: i32, n: u16) -> i32
    requires { 0 < n }
    ensures value { result ≡ floor z n }
    ensures down { RoundsDown z n result }
{
    z.div_euclid(i32::from(n))
}

// How much of a turn is done at step `t` of `n`; nothing where there is no step.
fn done(turn: i32, t: u16, n: u16) -> i32
    requires { unsigned_abs turn ≤ 2048 }
    ensures value { result ≡ turned turn n t }
    ensures bound { unsigned_abs result ≤ 2048 * 65535 }
{
    if n == 0 {
        return 0;
    }
    floor_div(turn * i32::from(t), n)
}

// Where a joint stands at step `t` of `n`.
fn joint(from: u16, to: u16, t: u16, n: u16) -> u16
    ensures { result ≡ joint_at from to n t }
{
    (i32::from(from % 4096) + done(turn(from, to), t, n)).rem_euclid(4096) as u16
}

// The pose at step `t` of `n` of the motion. Of no steps it is the pose at the start. Angles are
// given as their remainders.
pub fn pose(from: &Arm, to: &Arm, t: u16, n: u16) -> Arm
    ensures { result ≡ pose_at from.now to.now n t }
{
    Arm {
        angles: array::from_fn(|i| joint(from.angles[i], to.angles[i], t, n)),
    }
}
