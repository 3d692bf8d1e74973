// Chains by sweeps: costs are lowered edge by edge until none can be. Slow and plain, beside routes and islands among many
// samples. The cost of a sample stands at the place of its number, and what no chain reaches has none.
use crate::model::Model;
use metric::Metric;
use std::alloc::{AllocError, Global};

// What a chain costs: its length, and of equal ones its steps.
#[derive(Clone, Copy, Debug, PartialEq, Eq, PartialOrd, Ord)]
pub struct Cost {
    pub length: u32,
    pub steps: u16,
}

// Two samples that are joined, and how far apart they are.
#[derive(Clone, Copy)]
pub struct Joined {
    one: u16,
    other: u16,
    apart: u32,
}

// The edges of a model, with their lengths.
pub fn edges_of(heap: Global, model: &Model) -> Result<Vec<Joined>, AllocError> {
    let mut edges = Vec::new(heap);
    for (one, other) in model.edges() {
        if let (Ok(here), Ok(there)) = (model.element(*one), model.element(*other)) {
            edges.push(Joined {
                one: *one,
                other: *other,
                apart: here.distance(&there),
            })?;
        }
    }
    Ok(edges)
}

pub fn cost_at(costs: &[Option<Cost>], number: u16) -> Option<Cost> {
    costs.get(usize::from(number)).copied().flatten()
}

// The cost of a sample by way of another, so far away.
fn by_way_of(costs: &[Option<Cost>], by: u16, apart: u32) -> Option<Cost> {
    cost_at(costs, by).map(|cost| Cost {
        length: cost.length.saturating_add(apart),
        steps: cost.steps.saturating_add(1),
    })
}

// Lowers a sample's cost to that by way of another, if that is less. Whether it was.
fn lower(costs: &mut [Option<Cost>], at: u16, by: u16, apart: u32) -> bool {
    let Some(cost) = by_way_of(costs, by, apart) else {
        return false;
    };
    if let Some(held) = cost_at(costs, at)
        && held <= cost
    {
        return false;
    }
    if let Some(place) = costs.get_mut(usize::from(at)) {
        *place = Some(cost);
    }
    true
}

// Lowers the costs at the ends of each edge once. Whether one was lowered.
fn sweep(costs: &mut [Option<Cost>], edges: &[Joined]) -> bool {
    let mut lowered = false;
    for edge in edges {
        lowered |= lower(costs, edge.one, edge.other, edge.apart);
        lowered |= lower(costs, edge.other, edge.one, edge.apart);
    }
    lowered
}

// The cost of each sample up to the last number, to the goal. A sweep more than there are samples would lower none.
pub fn costs_to(
    heap: Global,
    edges: &[Joined],
    last: u16,
    goal: u16,
) -> Result<Vec<Option<Cost>>, AllocError> {
    let mut costs = vec![in heap; None; usize::from(last) + 1]?;
    if let Some(place) = costs.get_mut(usize::from(goal)) {
        *place = Some(Cost {
            length: 0,
            steps: 0,
        });
    }
    for _ in 0..last {
        if !sweep(costs.as_mut_slice(), edges) {
            break;
        }
    }
    Ok(costs)
}

// The smallest number that a chain of least cost goes to from this one.
fn onward(costs: &[Option<Cost>], edges: &[Joined], at: u16) -> Option<u16> {
    let mut next: Option<u16> = None;
    for edge in edges {
        for (from, to) in [(edge.one, edge.other), (edge.other, edge.one)] {
            let leads = from == at && by_way_of(costs, to, edge.apart) == cost_at(costs, at);
            if leads && next.is_none_or(|number| to < number) {
                next = Some(to);
            }
        }
    }
    next
}

// The numbers of the chosen chain from this one to the goal.
pub fn chain_from(
    heap: Global,
    costs: &[Option<Cost>],
    edges: &[Joined],
    start: u16,
) -> Result<Vec<u16>, AllocError> {
    let mut numbers = vec![in heap; start; 1]?;
    let mut at = start;
    for _ in costs {
        match onward(costs, edges, at) {
            Some(next) => at = next,
            None => break,
        }
        numbers.push(at)?;
    }
    Ok(numbers)
}

// The smallest number up to the last that has a cost.
pub fn smallest_reached(costs: &[Option<Cost>], last: u16) -> Option<u16> {
    for number in 1..last {
        if cost_at(costs, number).is_some() {
            return Some(number);
        }
    }
    cost_at(costs, last).map(|_| last)
}
