// Distances of poses and cards, and the length of a path.
use crate::poses::pose_of;
use card::Card;
use metric::{Metric, path_length};
use std::io;

pub fn distances(rt: &HostRuntime) -> io::Result<()> {
    println!(rt; "Distances")?;
    let zero = pose_of(0, 0);
    for angle in [4095, 2048, 2049, 4096] {
        let distance = zero.distance(&pose_of(angle, 0));
        println!(rt; "  first angles 0 and {angle}: {distance}")?;
    }
    let a = Card {
        slots: [1, 0, 0, 0, 0, 0, 0, 7],
    };
    let b = Card {
        slots: [2, 0, 0, 0, 0, 0, 0, 9],
    };
    let distance = a.distance(&b);
    println!(rt; "  cards that differ in the first and the last slot: {distance}")?;
    let path = [zero, pose_of(8, 0), pose_of(8, 4090), zero];
    match path_length(&path) {
        Some(length) => println!(rt; "  a path out and back over three poses: {length}"),
        None => println!(rt; "  the path is too long"),
    }
}
