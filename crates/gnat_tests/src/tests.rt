use crate::beside::run;
use crate::script::{Script, Style};
use arm::Arm;
use card::Card;
use gnat::chosen::choose;
use gnat::gnat::Gnat;
use gnat_rows::{Node, Row as TreeRow};
use hits::Hit;
use index::index::Index;
use index::refusal::Refusal;
use scan::rows::Row;
use scan::scan::Scan;
use std::mem::size_of;
use std::process::Abort;
use std::test::Fail;

const SETTINGS: [(u32, u32); 6] = [(2, 2), (2, 5), (3, 3), (4, 9), (8, 8), (8, 32)];

#[test]
fn settings_at_their_bounds(rt: HostRuntime) -> Result<(), Fail> {
    assert_eq!(rt; choose(2, 2).err(), None);
    assert_eq!(rt; choose(8, 32).err(), None);
    assert_eq!(rt; choose(2, 1).err(), Some(Refusal::Setting(1)));
    assert_eq!(rt; choose(8, 33).err(), Some(Refusal::Setting(33)));
    assert_eq!(rt; choose(1, 33).err(), Some(Refusal::Setting(1)));
    assert_eq!(rt; choose(9, 9).err(), Some(Refusal::Setting(9)));
    Ok(())
}

// What a studio lends for a sample, and what an index takes besides.
#[test]
fn sizes_in_bytes(rt: HostRuntime) -> Result<(), Fail> {
    assert_eq!(rt; size_of::<TreeRow<Arm>>(), 556);
    assert_eq!(rt; size_of::<TreeRow<Card>>(), 552);
    assert_eq!(rt; size_of::<Row<Arm>>(), 14);
    assert_eq!(rt; size_of::<Row<Card>>(), 10);
    assert_eq!(rt; size_of::<Node>(), 536);
    assert_eq!(rt; size_of::<Gnat<Arm>>(), 584);
    assert_eq!(rt; size_of::<Gnat<Card>>(), 584);
    Ok(())
}

// A scan and a tree over so many rows each, by one script.
fn beside(
    rt: &(impl Abort + AllocGlobal),
    places: usize,
    settings: (u32, u32),
    script: Script,
    turns: u32,
) -> Result<(), Fail> {
    let heap = rt.alloc();
    let blank = Card { slots: [0; 8] };
    let mut rows = vec![in heap; Row::vacant(blank); places]?;
    let mut tree_rows = vec![in heap; TreeRow::vacant(blank); places]?;
    let mut scan = Scan::new(rows.as_mut_slice());
    let mut tree = Gnat::new(tree_rows.as_mut_slice(), choose(settings.0, settings.1)?);
    run(rt, heap, &mut scan, &mut tree, script, turns)
}

// At every setting, by three scripts each.
fn beside_all(
    rt: &(impl Abort + AllocGlobal),
    places: usize,
    style: Style,
    values: u32,
    turns: u32,
) -> Result<(), Fail> {
    for settings in SETTINGS {
        for seed in [11, 57, 4242] {
            beside(
                rt,
                places,
                settings,
                Script::new(style, values, seed),
                turns,
            )?;
        }
    }
    Ok(())
}

#[test]
fn any_calls(rt: HostRuntime) -> Result<(), Fail> {
    for places in [0, 1, 2, 20, 70] {
        for values in [1, 2, 200] {
            beside_all(&rt, places, Style::Mixed, values, 2500)?;
        }
    }
    Ok(())
}

// Full rows, pivots dropped and rebuilds again and again.
#[test]
fn waves(rt: HostRuntime) -> Result<(), Fail> {
    let half = Style::Waves {
        adds: 41,
        drops: 20,
    };
    let all = Style::Waves {
        adds: 41,
        drops: 40,
    };
    for values in [1, 2, 3] {
        beside_all(&rt, 40, half, values, 2000)?;
        beside_all(&rt, 40, all, values, 2000)?;
        beside_all(&rt, 2, half, values, 500)?;
    }
    Ok(())
}

// One sample added and dropped again and again: 65,535 is the last number that is given.
fn use_up<I: Index<Element = Card>>(rt: &impl Abort, index: &mut I) {
    let card = Card { slots: [1; 8] };
    for number in 1..=65535 {
        assert_eq!(rt; index.add(card), Ok(number));
        assert_eq!(rt; index.drop(number), Ok(()));
    }
    assert_eq!(rt; index.add(card), Err(Refusal::NumbersUsedUp));
    assert_eq!(rt; index.tally(), (1, 0, 65535));
}

#[test]
fn numbers_used_up(rt: HostRuntime) -> Result<(), Fail> {
    let blank = Card { slots: [0; 8] };
    let mut rows = [Row::vacant(blank); 1];
    let mut tree_rows = [TreeRow::vacant(blank); 1];
    use_up(&rt, &mut Scan::new(&mut rows));
    use_up(&rt, &mut Gnat::new(&mut tree_rows, choose(2, 2)?));
    Ok(())
}

// As many rows as an index uses, and some that it leaves alone.
#[test]
fn many_rows(rt: HostRuntime) -> Result<(), Fail> {
    let style = Style::Waves {
        adds: 1030,
        drops: 500,
    };
    beside_all(&rt, 1024, style, 2, 5000)?;
    beside_all(&rt, 1030, style, 200, 5000)
}

// The first three hits at a pose with which all samples are equal.
fn nearest_three<I: Index<Element = Arm>>(index: &I, at: &Arm) -> [u16; 3] {
    let none = Hit {
        number: 0,
        distance: 1,
    };
    let mut hits = [none; 3];
    let _ = index.near(at, 3, &mut hits);
    hits.map(|hit| hit.number)
}

// Equal samples make the deepest tree, down which every call goes to the end: filled, emptied to the half from the newest on,
// filled again, and emptied from the oldest on.
fn fill_and_empty<I: Index<Element = Arm>>(rt: &impl Abort, index: &mut I) {
    let pose = Arm { angles: [7; 6] };
    for number in 1..=1024 {
        assert_eq!(rt; index.add(pose), Ok(number));
    }
    assert_eq!(rt; nearest_three(index, &pose), [1, 2, 3]);
    for fewer in 0..512 {
        assert_eq!(rt; index.drop(1024 - fewer), Ok(()));
    }
    for number in 1025..=1536 {
        assert_eq!(rt; index.add(pose), Ok(number));
    }
    for number in 1..=511 {
        assert_eq!(rt; index.drop(number), Ok(()));
    }
    assert_eq!(rt; nearest_three(index, &pose), [512, 1025, 1026]);
    assert_eq!(rt; index.tally(), (1024, 513, 1536));
}

#[test]
fn equal_samples(rt: HostRuntime) -> Result<(), Fail> {
    let heap = rt.alloc();
    let blank = Arm { angles: [0; 6] };
    for settings in [(2, 2), (4, 8), (8, 16)] {
        let mut rows = vec![in heap; TreeRow::vacant(blank); 1024]?;
        let settings = choose(settings.0, settings.1)?;
        fill_and_empty(&rt, &mut Gnat::new(rows.as_mut_slice(), settings));
    }
    Ok(())
}
