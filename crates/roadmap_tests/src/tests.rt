use crate::beside::{beside, some_spot};
use crate::kind::{Picky, Spot};
use crate::model::Model;
use gnat::chosen::choose;
use gnat::gnat::Gnat;
use gnat_rows::Row as TreeRow;
use index::index::Index;
use links::Links;
use roadmap::Roadmap;
use rolls::Rolls;
use scan::rows::Row;
use scan::scan::Scan;
use std::cell::Cell;
use std::process::Abort;
use std::test::Fail;

const SPOT: Spot = Spot { place: 0, mark: 0 };

// Histories over the scan.
fn over_scan(
    rt: &(impl Abort + AllocGlobal),
    places: usize,
    k: u32,
    seed: u32,
) -> Result<(), Fail> {
    let heap = rt.alloc();
    let mut rows = vec![in heap; Row::vacant(SPOT); places]?;
    beside(rt, heap, Scan::new(rows.as_mut_slice()), k, seed)
}

// Histories over a tree.
fn over_tree(
    rt: &(impl Abort + AllocGlobal),
    degree: u32,
    bucket: u32,
    k: u32,
    seed: u32,
) -> Result<(), Fail> {
    let heap = rt.alloc();
    let settings = choose(degree, bucket)?;
    let mut rows = vec![in heap; TreeRow::vacant(SPOT); 12]?;
    beside(rt, heap, Gnat::new(rows.as_mut_slice(), settings), k, seed)
}

#[test]
fn over_scans_as_the_model(rt: HostRuntime) -> Result<(), Fail> {
    for seed in 0..50 {
        for (places, k) in [(0, 3), (1, 1), (6, 2), (12, 3), (12, 8)] {
            over_scan(&rt, places, k, seed)?;
        }
    }
    Ok(())
}

#[test]
fn over_trees_as_the_model(rt: HostRuntime) -> Result<(), Fail> {
    for seed in 0..50 {
        for (degree, bucket) in [(2, 2), (2, 5), (3, 3), (5, 7), (8, 32)] {
            over_tree(&rt, degree, bucket, seed % 8 + 1, seed)?;
        }
    }
    Ok(())
}

// Samples that stand in an index already have no edges among them, and a later one is joined to its nearest.
#[test]
fn samples_that_stand_already(rt: HostRuntime) -> Result<(), Fail> {
    let mut rows = [Row::vacant(SPOT); 6];
    let mut scan = Scan::new(&mut rows);
    let mut model = Model::new(rt.alloc(), 6, 3);
    for place in [0, 1, 1, 4, 9] {
        let spot = Spot { place, mark: 1 };
        assert_eq!(rt; scan.add(spot), model.file(spot)?);
    }
    assert_eq!(rt; scan.drop(2), model.drop(2)?);
    let mut links = [Links::unlinked(0); 6];
    let Ok(mut road) = Roadmap::new(scan, 3, &mut links) else {
        return Err(Fail::new("the roadmap is not made"));
    };
    for number in [1, 3, 4, 5] {
        assert_eq!(rt; road.island(number), Ok(number));
    }
    let asked = Cell::new(0);
    let picky = Picky {
        salt: 0,
        asked: &asked,
    };
    let spot = Spot { place: 1, mark: 1 };
    assert_eq!(rt; road.add(spot, &picky), Ok((6, 3)));
    assert_eq!(rt; model.add(spot, 0)?, Ok((6, 3)));
    for number in 0..8 {
        assert_eq!(rt; road.island(number), model.island(number)?);
    }
    Ok(())
}

// Adds so many spots.
fn add_some(model: &mut Model, rolls: &mut Rolls, count: u32) -> Result<(), Fail> {
    for _ in 0..count {
        let _ = model.add(some_spot(rolls), rolls.below(4) as u8)?;
    }
    Ok(())
}

// Six samples stand, after two were dropped. Each route of the model is the best of all chains.
#[test]
fn routes_of_the_model_are_the_best_of_all_chains(rt: HostRuntime) -> Result<(), Fail> {
    for seed in 0..20 {
        let mut model = Model::new(rt.alloc(), 6, 5);
        let mut rolls = Rolls::new(seed);
        add_some(&mut model, &mut rolls, 6)?;
        assert_eq!(rt; model.drop(2)?, Ok(()));
        assert_eq!(rt; model.drop(5)?, Ok(()));
        add_some(&mut model, &mut rolls, 2)?;
        for a in 1..9 {
            for b in 1..9 {
                assert_eq!(rt; model.route(a, b)?.ok(), model.best_of_all(a, b)?);
            }
        }
    }
    Ok(())
}
