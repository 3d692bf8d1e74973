// An arm moves past walls, and cards change past a wall: which pairs pass by which checker.
use crate::poses::pose_of;
use arm::Arm;
use arm_checkers::both;
use card::Card;
use card_checker::{CardWall, MixChecker};
use checker::Checker;
use motion::{pose, steps};
use std::io;
use walls::{Arc, Wall};

fn arc(start: u16, extent: u16) -> Arc {
    Arc { start, extent }
}

// A wall that asks something of the first two joints alone.
fn wall_of(first: Arc, second: Arc) -> Wall {
    let rest = arc(0, 4095);
    Wall {
        arcs: [first, second, rest, rest, rest, rest],
    }
}

fn word(passes: bool) -> &'static str {
    if passes { "passes" } else { "stops" }
}

// The poses of a short motion.
fn print_motion(rt: &HostRuntime, from: &Arm, to: &Arm) -> io::Result<()> {
    let n = steps(from, to);
    for t in 0..n + 1 {
        let [first, second, ..] = pose(from, to, t, n).angles;
        println!(rt; "    step {t}: {first} {second}")?;
    }
    Ok(())
}

fn print_trip(rt: &HostRuntime, walls: &[Wall], from: &Arm, to: &Arm) -> io::Result<()> {
    let (step, swept) = both(walls, from, to);
    let [a, b, ..] = from.angles;
    let [c, d, ..] = to.angles;
    println!(rt;
        "  from {a} {b} to {c} {d}: Step {}, Box {}",
        word(step),
        word(swept)
    )
}

fn print_arms(rt: &HostRuntime) -> io::Result<()> {
    let walls = [
        wall_of(arc(8, 4), arc(0, 4095)),
        wall_of(arc(2, 0), arc(4094, 0)),
        wall_of(arc(3000, 100), arc(4090, 10)),
    ];
    print_trip(rt, &walls, &pose_of(0, 0), &pose_of(2, 4093))?;
    print_motion(rt, &pose_of(0, 0), &pose_of(2, 4093))?;
    print_trip(rt, &walls, &pose_of(0, 0), &pose_of(4, 0))?;
    print_trip(rt, &walls, &pose_of(4, 0), &pose_of(20, 0))?;
    print_trip(rt, &walls, &pose_of(20, 0), &pose_of(2068, 0))?;
    print_trip(rt, &walls, &pose_of(4116, 0), &pose_of(20, 4096))?;
    print_trip(rt, &walls, &pose_of(2900, 3), &pose_of(3200, 3))?;
    print_trip(rt, &walls, &pose_of(2900, 5), &pose_of(3200, 5))?;
    print_trip(rt, &walls, &pose_of(2900, 4050), &pose_of(3200, 50))
}

fn print_cards(rt: &HostRuntime) -> io::Result<()> {
    let walls = [CardWall {
        slots: [7, 3, 255, 255, 255, 255, 255, 255],
    }];
    let mix = MixChecker { walls: &walls };
    let empty = Card { slots: [0; 8] };
    let seven = Card {
        slots: [7, 0, 0, 0, 0, 0, 0, 0],
    };
    let three = Card {
        slots: [0, 3, 0, 0, 0, 0, 0, 0],
    };
    println!(rt; "  empty to seven: Mix {}", word(mix.check(&empty, &seven)))?;
    println!(rt; "  empty to three: Mix {}", word(mix.check(&empty, &three)))?;
    println!(rt; "  seven to three: Mix {}", word(mix.check(&seven, &three)))
}

pub fn past_walls(rt: &HostRuntime) -> io::Result<()> {
    println!(rt; "Past walls")?;
    print_arms(rt)?;
    print_cards(rt)
}
