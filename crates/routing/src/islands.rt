// Islands: which places a chain of edges joins, as a forest. Each place has a parent, itself or a smaller place of its
// island, so the way up ends at the smallest place known so far.
ghost use Rattle.std.specs.Prelude.{◌≡◌, ℕ, ◌<◌, ◌≤◌, length, slice_index};
ghost use Rattle.std.specs.List.{AllByRecursion};
ghost use Rattle.chains.specs.Edges.{Inside, Linked};
ghost use Rattle.chains.specs.Chains.{Island};
ghost use Rattle.routing.specs.Forests.{IsForest, Climbed, United};

use chains::Edge;

// The end of the way up from a place. Each place passed gets its parent's parent, so that the next way is shorter.
fn top(parents: &mut [u16], from: usize) -> usize
    requires forest { IsForest parents.old }
    requires inside { from < length parents.old }
    ensures { Climbed from parents.old parents.new result }
{
    let mut at = from;
    while (parents[at] as usize) < at {
        let above = parents[at] as usize;
        parents[at] = parents[above];
        at = parents[at] as usize;
    }
    at
}

// Makes one island of those of two places.
fn unite(parents: &mut [u16], one: usize, other: usize)
    requires forest { IsForest parents.old }
    requires inside { (one < length parents.old) × (other < length parents.old) }
    requires few { length parents.old ≤ 1024 }
    ensures { United one other parents.old parents.new }
{
    // Most edges of a dense map join two places that are joined already.
    if parents[one] == parents[other] {
        return;
    }
    let one = top(parents, one);
    let other = top(parents, other);
    if one < other {
        parents[other] = one as u16;
    } else {
        parents[one] = other as u16;
    }
}

/// The smallest place that a chain of these edges joins to `at`, itself included. One parent is lent for each place.
pub fn island_of(edges: &[Edge], parents: &mut [u16], at: usize) -> usize
    requires at { at < length parents.old }
    requires few { length parents.old ≤ 1024 }
    requires inside { AllByRecursion (Inside (length parents.old)) edges.now }
    ensures island { Island (λ i. i < length parents.old) (Linked edges.now) at result }
    ensures forest { IsForest parents.new }
{
    for (place, parent) in parents.iter_mut().enumerate() {
        *parent = place as u16;
    }
    for edge in edges {
        unite(parents, edge.elder as usize, edge.younger as usize);
    }
    top(parents, at)
}
