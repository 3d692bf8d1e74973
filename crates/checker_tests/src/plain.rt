// The rules computed another way: on a line instead of a circle, and with no signed number.
ghost use Rattle.std.specs.Prelude.{◌<◌, ◌≤◌};

use arm::Arm;
use card::Card;
use card_checker::CardWall;
use walls::{Arc, Wall};

fn on_circle(angle: u16) -> u64
    ensures { result < 4096 }
{
    u64::from(angle) % 4096
}

// How far up it is from one angle to another.
fn up(from: u16, to: u16) -> u64
    ensures { result < 4096 }
{
    (on_circle(to) + (4096 - on_circle(from))) % 4096
}

// A half turn goes up from the lower of its angles.
fn goes_up(from: u16, to: u16) -> bool {
    let far = up(from, to);
    far < 2048 || far == 2048 && on_circle(from) < 2048
}

fn size(from: u16, to: u16) -> u64
    ensures { result ≤ 2048 }
{
    let far = up(from, to);
    if far < 4096 - far { far } else { 4096 - far }
}

pub fn steps(e: &Arm, f: &Arm) -> u64 {
    let mut most = 0;
    for (from, to) in e.angles.iter().zip(f.angles.iter()) {
        most = size(*from, *to).max(most);
    }
    most
}

// Where a joint stands at step `t` of `n`, a full turn added so that nothing is negative.
fn joint(from: u16, to: u16, t: u64, n: u64) -> u64 {
    let start = on_circle(from);
    if n == 0 {
        return start;
    }
    let level = (start + 4096).wrapping_mul(n);
    let part = size(from, to).wrapping_mul(t);
    let moved = if goes_up(from, to) {
        level.wrapping_add(part)
    } else {
        level.wrapping_sub(part)
    };
    moved / n % 4096
}

pub fn pose(e: &Arm, f: &Arm, t: u64, n: u64) -> [u64; 6] {
    [
        joint(e.angles[0], f.angles[0], t, n),
        joint(e.angles[1], f.angles[1], t, n),
        joint(e.angles[2], f.angles[2], t, n),
        joint(e.angles[3], f.angles[3], t, n),
        joint(e.angles[4], f.angles[4], t, n),
        joint(e.angles[5], f.angles[5], t, n),
    ]
}

// An arc as a stretch of the line, which may go past 4,096.
fn stretch(arc: Arc) -> (u64, u64) {
    let low = on_circle(arc.start);
    (low, low + on_circle(arc.extent))
}

fn in_arc(arc: Arc, angle: u64) -> bool {
    let (low, high) = stretch(arc);
    low <= angle && angle <= high || angle <= high && high - angle >= 4096
}

fn in_wall(wall: &Wall, angles: [u64; 6]) -> bool {
    wall.arcs
        .iter()
        .zip(angles.iter())
        .all(|(arc, angle)| in_arc(*arc, *angle))
}

pub fn step_passes(walls: &[Wall], e: &Arm, f: &Arm) -> bool {
    let n = steps(e, f);
    let mut free = true;
    for t in 0..2049 {
        if t <= n {
            let angles = pose(e, f, t, n);
            free = free && !walls.iter().any(|wall| in_wall(wall, angles));
        }
    }
    free
}

fn swept(from: u16, to: u16) -> (u64, u64) {
    let low = if goes_up(from, to) {
        on_circle(from)
    } else {
        on_circle(to)
    };
    (low, low + size(from, to))
}

fn overlap(a: (u64, u64), b: (u64, u64)) -> bool {
    a.0 <= b.1 && b.0 <= a.1
}

fn shifted(a: (u64, u64)) -> (u64, u64) {
    (a.0.wrapping_add(4096), a.1.wrapping_add(4096))
}

fn meet(a: (u64, u64), b: (u64, u64)) -> bool {
    overlap(a, b) || overlap(shifted(a), b) || overlap(a, shifted(b))
}

pub fn box_passes(walls: &[Wall], e: &Arm, f: &Arm) -> bool {
    let mut free = true;
    for wall in walls {
        let turns = e.angles.iter().zip(f.angles.iter());
        let mut arcs = wall.arcs.iter().zip(turns);
        if arcs.all(|(arc, (from, to))| meet(stretch(*arc), swept(*from, *to))) {
            free = false;
        }
    }
    free
}

pub fn mix_passes(walls: &[CardWall], e: &Card, f: &Card) -> bool {
    let mut free = true;
    for wall in walls {
        let held = e.slots.iter().zip(f.slots.iter());
        let mut slots = wall.slots.iter().zip(held);
        if slots.all(|(asked, (one, other))| *asked == 255 || asked == one || asked == other) {
            free = false;
        }
    }
    free
}
