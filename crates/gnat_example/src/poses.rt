// Poses in a GNAT: filed, dropped, found and refused.
use arm::Arm;
use gnat::chosen::choose;
use gnat::gnat::Gnat;
use gnat_rows::Row as TreeRow;
use hits::Hit;
use index::index::Index;
use std::io;
use telling::{
    tell_add, tell_drop, tell_element, tell_near, tell_refusal, tell_tally, tell_within,
};

// `example` has this pose and the calls below too: a crate to share them would be no plainer.
fn pose(first: u16, second: u16) -> Arm {
    Arm {
        angles: [first, second, 0, 0, 0, 0],
    }
}

// Poses filed, dropped and found, the same in every index.
fn poses<I: Index<Element = Arm>>(rt: &HostRuntime, index: &mut I) -> io::Result<()> {
    let mut list = [Hit {
        number: 0,
        distance: 0,
    }; 4];
    for first in [0, 8, 4088, 2048, 16] {
        tell_add(rt, index, pose(first, 0))?;
    }
    tell_add(rt, index, pose(24, 0))?;
    tell_drop(rt, index, 2)?;
    tell_drop(rt, index, 2)?;
    tell_add(rt, index, pose(24, 0))?;
    tell_tally(rt, index)?;
    tell_element(rt, index, 6)?;
    tell_element(rt, index, 2)?;
    tell_near(rt, index, &pose(4, 0), 3, &mut list)?;
    tell_near(rt, index, &pose(4, 0), 0, &mut list)?;
    tell_near(rt, index, &pose(4, 0), 5, &mut list)?;
    tell_within(rt, index, &pose(4, 0), 384, &mut list)
}

// A GNAT over five rows, or the refusal of its settings.
pub fn trees(rt: &HostRuntime, degree: u32, bucket: u32) -> io::Result<()> {
    print!(rt; "The same poses, in a GNAT of degree {degree} and bucket {bucket}: ")?;
    match choose(degree, bucket) {
        Ok(settings) => {
            println!(rt; "made over five rows")?;
            let mut rows = [TreeRow::vacant(pose(0, 0)); 5];
            let mut index = Gnat::new(&mut rows, settings);
            poses(rt, &mut index)
        }
        Err(refusal) => tell_refusal(rt, refusal),
    }
}
