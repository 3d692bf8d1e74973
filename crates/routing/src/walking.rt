// The walk along the chosen chain.
ghost use Rattle.std.specs.Prelude.{◌≡◌, ℕ, ◌+◌, ◌<◌, ◌≤◌, List, length};
ghost use Rattle.chains.specs.declared.Edge.{Edge};
ghost use Rattle.std.specs.List.{AllByRecursion};
ghost use Rattle.chains.specs.Edges.{Inside};
ghost use Rattle.chains.specs.Costs.{none, cost_at, Settled};
ghost use Rattle.routing.specs.Ranks.{ranks, cost_of};
ghost use Rattle.routing.specs.Layouts.{LaidOut, neighbours_at};
ghost use Rattle.routing.specs.Settles.{FewSteps};
ghost use Rattle.routing.specs.Walks.{leads_on, better, steps_of, SmallestOn, Walked};

use crate::cost::Cost;
use crate::neighbours::{Neighbour, Neighbours};

// Whether a step this long to a place of this cost goes on along a chain of least cost.
fn leads(cost: Option<Cost>, next: Option<Cost>, apart: u32) -> bool
    ensures { result ≡ leads_on cost next apart }
{
    let (Some(cost), Some(next)) = (cost, next) else {
        return false;
    };
    u64::from(next.length) + u64::from(apart) == u64::from(cost.length)
        && u64::from(next.steps) + 1 == u64::from(cost.steps)
}

// The better of `best` and a neighbour of this cost: the neighbour, if a step to it goes on and it is smaller.
fn better(
    best: Option<u16>,
    cost: Option<Cost>,
    next: Option<Cost>,
    neighbour: &Neighbour,
) -> Option<u16>
    ensures { result ≡ better best cost next neighbour.now }
{
    if !leads(cost, next, neighbour.length) {
        return best;
    }
    let Some(place) = best else {
        return Some(neighbour.place);
    };
    Some(place.min(neighbour.place))
}

// The smallest neighbour to which a step goes on along a chain of least cost, from a place of this cost.
fn smallest_on(cost: Option<Cost>, neighbours: &[Neighbour], costs: &[Option<Cost>]) -> Option<u16>
    requires { AllByRecursion (λ n. n.place < length costs.now) neighbours.now }
    ensures { SmallestOn cost neighbours.now costs.now result }
{
    let mut best = None;
    for neighbour in neighbours {
        best = better(best, cost, costs[neighbour.place as usize], neighbour);
    }
    best
}

/// Writes the places of the chosen chain from `start` to the goal that the costs are settled for. The list has room for them.
pub fn walk(neighbours: &Neighbours, costs: &[Option<Cost>], start: usize, list: &mut [u16])
    requires start { start < length costs.now }
    requires few { length costs.now ≤ 1024 }
    requires ends { length neighbours.now.ends.now ≡ length costs.now + 1 }
    requires steps { FewSteps costs.now }
    requires room { steps_of (cost_of costs.now start) < length list.old }
    ensures { (edges : List Edge) (goal : ℕ) → LaidOut edges neighbours.now.ends.now neighbours.now.all.now → AllByRecursion (Inside (length costs.now)) edges → Settled edges goal (ranks costs.now) → cost_at (ranks costs.now) start < none → Walked edges (length costs.now) start goal list.old list.new }
{
    let mut at = start;
    // Counts the places of the lent list while the chain is followed, which no list holds yet.
    let mut written = 0;
    while let Some(next) = smallest_on(costs[at], neighbours.of(at), costs) {
        list[written] = at as u16;
        written += 1;
        at = next as usize;
    }
    list[written] = at as u16;
}
