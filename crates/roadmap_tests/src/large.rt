// Routes and islands among hundreds of samples, beside sweeps over all edges.
use crate::kind::{Picky, Spot};
use crate::model::Model;
use crate::sweeps::{chain_from, cost_at, costs_to, edges_of, smallest_reached};
use index::index::Index;
use index::refusal::Refusal;
use links::Links;
use roadmap::Roadmap;
use rolls::Rolls;
use scan::rows::Row;
use scan::scan::Scan;
use std::alloc::Global;
use std::cell::Cell;
use std::process::Abort;
use std::test::Fail;

const SPOT: Spot = Spot { place: 0, mark: 0 };

// With this salt, spots of mark 1 all suit each other.
const SALT: u8 = 1;

// Files a spot in both. They answer alike.
fn add<'a, I: Index<Element = Spot> + Drop>(
    rt: &impl Abort,
    road: &mut Roadmap<'a, I>,
    model: &mut Model,
    spot: Spot,
) -> Result<(), Fail> {
    let asked = Cell::new(0);
    let picky = Picky {
        salt: SALT,
        asked: &asked,
    };
    assert_eq!(rt; road.add(spot, &picky), model.add(spot, SALT)?);
    Ok(())
}

// Routes to one goal from these samples, and the islands of these and the goal, beside the sweeps.
fn to_one_goal<'a, I: Index<Element = Spot> + Drop>(
    rt: &impl Abort,
    heap: Global,
    road: &Roadmap<'a, I>,
    model: &Model,
    starts: &[u16],
    goal: u16,
) -> Result<(), Fail> {
    let (_, _, last) = model.tally();
    let edges = edges_of(heap, model)?;
    let costs = costs_to(heap, edges.as_slice(), last, goal)?;
    let least = smallest_reached(costs.as_slice(), last).ok_or(Refusal::NotStanding(goal));
    assert_eq!(rt; road.island(goal), least);
    let mut list = vec![in heap; 0; 1024]?;
    for start in starts {
        let told = road.route(*start, goal, list.as_mut_slice());
        let Some(cost) = cost_at(costs.as_slice(), *start) else {
            assert_eq!(rt; told, Err(Refusal::NotJoined));
            continue;
        };
        assert_eq!(rt; told, Ok((cost.length, cost.steps.saturating_add(1))));
        assert_eq!(rt; road.island(*start), least);
        let numbers = chain_from(heap, costs.as_slice(), edges.as_slice(), *start)?;
        assert_eq!(rt; numbers.len(), cost.steps as usize + 1);
        for (place, number) in list.iter().zip(numbers.iter()) {
            assert_eq!(rt; *place, *number);
        }
    }
    Ok(())
}

// A line of 250 spots, each nearest to the one before, asked from either end.
fn on_a_line(rt: &(impl Abort + AllocGlobal), k: u32, upward: bool) -> Result<(), Fail> {
    let heap = rt.alloc();
    let mut rows = vec![in heap; Row::vacant(SPOT); 250]?;
    let mut links = vec![in heap; Links::unlinked(0); 250]?;
    let mut model = Model::new(heap, 250, k as usize);
    let Ok(mut road) = Roadmap::new(Scan::new(rows.as_mut_slice()), k, links.as_mut_slice()) else {
        return Err(Fail::new("the roadmap is not made"));
    };
    for i in 0..250u8 {
        let place = if upward { i } else { 250 - i };
        add(rt, &mut road, &mut model, Spot { place, mark: 1 })?;
    }
    to_one_goal(rt, heap, &road, &model, &[1, 2, 125, 250], 250)?;
    to_one_goal(rt, heap, &road, &model, &[250, 249, 125, 1], 1)?;
    to_one_goal(rt, heap, &road, &model, &[250, 1], 100)
}

#[test]
fn routes_on_a_line_as_by_sweeps(rt: HostRuntime) -> Result<(), Fail> {
    for k in [1, 3, 8] {
        on_a_line(&rt, k, true)?;
        on_a_line(&rt, k, false)?;
    }
    Ok(())
}

// Hundreds of spots at places below `places`, a tenth of them dropped while they come: many distances are equal, and
// some samples stand on islands of their own.
fn at_random(rt: &(impl Abort + AllocGlobal), k: u32, places: u32, seed: u32) -> Result<(), Fail> {
    let heap = rt.alloc();
    let mut rolls = Rolls::new(seed);
    let mut rows = vec![in heap; Row::vacant(SPOT); 300]?;
    let mut links = vec![in heap; Links::unlinked(0); 300]?;
    let mut model = Model::new(heap, 300, k as usize);
    let Ok(mut road) = Roadmap::new(Scan::new(rows.as_mut_slice()), k, links.as_mut_slice()) else {
        return Err(Fail::new("the roadmap is not made"));
    };
    for i in 1..300u16 {
        let spot = Spot {
            place: rolls.below(places).min(255) as u8,
            mark: rolls.below(4) as u8,
        };
        add(rt, &mut road, &mut model, spot)?;
        if i % 10 == 0 {
            let number = rolls.below(u32::from(i)) as u16;
            assert_eq!(rt; road.drop(number), model.drop(number)?);
        }
    }
    for _ in 0..4 {
        let mut standing = vec![in heap; 0; 0]?;
        for _ in 0..12 {
            let number = rolls.below(300) as u16;
            if model.element(number).is_ok() {
                standing.push(number)?;
            }
        }
        if let Some(goal) = standing.pop() {
            to_one_goal(rt, heap, &road, &model, standing.as_slice(), goal)?;
        }
    }
    Ok(())
}

#[test]
fn routes_among_hundreds_as_by_sweeps(rt: HostRuntime) -> Result<(), Fail> {
    for (k, places) in [(1, 250), (3, 250), (8, 250), (3, 8)] {
        at_random(&rt, k, places, k)?;
    }
    Ok(())
}
