// Poses and cards in indexes: filed, dropped, found and refused.
use crate::poses::pose_of;
use card::Card;
use hits::Hit;
use index::index::Index;
use scan::rows::Row;
use scan::scan::Scan;
use std::io;
use telling::{tell_add, tell_drop, tell_element, tell_near, tell_tally, tell_within};

fn tools(left: u8, right: u8) -> Card {
    Card {
        slots: [left, right, 0, 0, 0, 0, 0, 0],
    }
}

pub fn arms(rt: &HostRuntime) -> io::Result<()> {
    println!(rt; "Arm poses, in a scan over five rows")?;
    let mut rows = [Row::vacant(pose_of(0, 0)); 5];
    let mut list = [Hit {
        number: 0,
        distance: 0,
    }; 4];
    let mut index = Scan::new(&mut rows);
    for first in [0, 8, 4088, 2048, 16] {
        tell_add(rt, &mut index, pose_of(first, 0))?;
    }
    tell_add(rt, &mut index, pose_of(24, 0))?;
    tell_drop(rt, &mut index, 2)?;
    tell_drop(rt, &mut index, 2)?;
    tell_add(rt, &mut index, pose_of(24, 0))?;
    tell_tally(rt, &index)?;
    tell_element(rt, &index, 6)?;
    tell_element(rt, &index, 2)?;
    tell_near(rt, &index, &pose_of(4, 0), 3, &mut list)?;
    tell_near(rt, &index, &pose_of(4, 0), 0, &mut list)?;
    tell_near(rt, &index, &pose_of(4, 0), 5, &mut list)?;
    tell_within(rt, &index, &pose_of(4, 0), 384, &mut list)
}

pub fn cards(rt: &HostRuntime) -> io::Result<()> {
    println!(rt; "Cards, in a scan over four rows")?;
    let mut rows = [Row::vacant(tools(0, 0)); 4];
    let mut list = [Hit {
        number: 0,
        distance: 0,
    }; 2];
    let mut index = Scan::new(&mut rows);
    for left in [1, 2, 3] {
        tell_add(rt, &mut index, tools(left, 7))?;
    }
    tell_near(rt, &index, &tools(9, 7), 2, &mut list)?;
    tell_within(rt, &index, &tools(2, 7), 40, &mut list)?;
    tell_within(rt, &index, &tools(2, 7), 4294967295, &mut [])
}

// A sample's number is never given twice, so they run out: 65,535 is the last.
pub fn numbers(rt: &HostRuntime) -> io::Result<()> {
    println!(rt; "One row, used again and again")?;
    let mut rows = [Row::vacant(tools(0, 0)); 1];
    let mut index = Scan::new(&mut rows);
    for number in 1..=65535 {
        let _ = index.add(tools(1, 1));
        let _ = index.drop(number);
    }
    tell_tally(rt, &index)?;
    tell_add(rt, &mut index, tools(1, 1))
}
