// Islands and routes over the edge records of a roadmap, by place.
#![tactic(auto)]

ghost use Rattle.std.specs.Prelude.{◌*◌, ◌<◌, ◌≤◌, length};
ghost use Rattle.chains.specs.Chains.{Island};
ghost use Rattle.chains.specs.Edges.{Linked};
ghost use Rattle.index.specs.Outcomes.{told};
ghost use Rattle.links.specs.Records.{number_at, held, edges_of};
ghost use Rattle.graph.specs.Routes.{Standing, Routed};

use chains::Edge;
use index::refusal::Refusal;
use links::{Records, rename};
use routing::{Neighbour, Neighbours, island_of, lay_out, settle, walk};

// What stands where no edge is, and no neighbour: tables are arrays, since nothing here may allocate.
const NO_EDGE: Edge = Edge {
    elder: 0,
    younger: 0,
    length: 0,
};

const NO_NEIGHBOUR: Neighbour = Neighbour {
    place: 0,
    length: 0,
};

// A record has eight edges at most. Tables for the largest roadmap are cleared in a time in which a small one is answered
// several times over, so there are three sizes of them. Most of what is cleared for a route is for edges: past `MEDIUM` places
// it is chosen by how many elders the records hold, and few edges among few of these places have one more size. Each is a
// compiled function of its own, so that a call has only its own tables on the stack.
const SMALL: usize = 64;

const MEDIUM: usize = 256;

const LARGE: usize = 512;

const FEW_EDGES: usize = 512;

const SOME_EDGES: usize = 2048;

// The island of the record at `at`, by its smallest number, with tables for so many places and eight edges to each.
#[inline(never)]
fn island_in<const PLACES: usize, const EDGES: usize>(records: &Records, at: usize) -> u16
    requires at { at < length records.now.all.now }
    requires places { (length records.now.all.now ≤ PLACES) × (PLACES ≤ 1024) }
    requires edges { (8 * length records.now.all.now ≤ EDGES) × (EDGES ≤ 8192) }
    ensures { Island (Standing records.now.all.now) (Linked (edges_of records.now.all.now)) (number_at records.now.all.now at) result }
{
    let mut edges = [NO_EDGE; EDGES];
    let mut parents = [0; PLACES];
    let made = records.resolve(&mut edges);
    let place = island_of(&edges[..made], &mut parents[..records.all.len()], at);
    records.all[place].number
}

// The chosen chain from the record at `start` to that at `goal`, with tables for so many places, for twice as many, for so
// many edges, and for two neighbours to each.
#[inline(never)]
fn route_in<const PLACES: usize, const TWICE: usize, const EDGES: usize, const NEIGHBOURS: usize>(
    records: &Records,
    start: usize,
    goal: usize,
    list: &mut [u16],
) -> Result<(u32, u16), Refusal>
    requires ends { (start < length records.now.all.now) × (goal < length records.now.all.now) }
    requires places { (length records.now.all.now ≤ PLACES) × (PLACES ≤ 1024) }
    requires twice { (2 * length records.now.all.now ≤ TWICE) × (TWICE ≤ 2048) }
    requires edges { (held records.now.all.now ≤ EDGES) × (EDGES ≤ 8192) }
    requires neighbours { (2 * held records.now.all.now ≤ NEIGHBOURS) × (NEIGHBOURS ≤ 16384) }
    ensures { Routed (Standing records.now.all.now) (Linked (edges_of records.now.all.now)) (number_at records.now.all.now start) (number_at records.now.all.now goal) list.old (told result) list.new }
{
    let mut edges = [NO_EDGE; EDGES];
    let mut all = [NO_NEIGHBOUR; NEIGHBOURS];
    let mut ends = [0; TWICE];
    let mut costs = [None; PLACES];
    let mut waiting = [None; TWICE];
    let places = records.all.len();
    let made = records.resolve(&mut edges);
    let ends = &mut ends[..places + 1];
    let all = &mut all[..2 * made];
    let costs = &mut costs[..places];
    lay_out(&edges[..made], ends, all);
    let neighbours = Neighbours::new(ends, all);
    settle(&neighbours, goal, costs, &mut waiting[..2 * places]);
    let Some(cost) = costs[start] else {
        return Err(Refusal::NotJoined);
    };
    let count = cost.steps as u16 + 1;
    if list.len() < count as usize {
        return Err(Refusal::ShortList(count));
    }
    walk(&neighbours, costs, start, list);
    rename(records.all, &mut list[..count as usize]);
    Ok((cost.length, count))
}

/// The island of the record at `at`: the smallest number on it.
pub fn island(records: &Records, at: usize) -> u16
    requires { at < length records.now.all.now }
    ensures { Island (Standing records.now.all.now) (Linked (edges_of records.now.all.now)) (number_at records.now.all.now at) result }
{
    match records.all.len() {
        0..=SMALL => island_in::<64, 512>(records, at),
        65..=MEDIUM => island_in::<256, 2048>(records, at),
        _ => island_in::<1024, 8192>(records, at),
    }
}

/// The chosen chain from the record at `start` to that at `goal`: writes its numbers, and returns its length
/// and count.
pub fn route(
    records: &Records,
    start: usize,
    goal: usize,
    list: &mut [u16],
) -> Result<(u32, u16), Refusal>
    requires { (start < length records.now.all.now) × (goal < length records.now.all.now) }
    ensures { Routed (Standing records.now.all.now) (Linked (edges_of records.now.all.now)) (number_at records.now.all.now start) (number_at records.now.all.now goal) list.old (told result) list.new }
{
    let held = records.held();
    match records.all.len() {
        0..=SMALL => route_in::<64, 128, 512, 1024>(records, start, goal, list),
        65..=MEDIUM => route_in::<256, 512, 2048, 4096>(records, start, goal, list),
        257..=LARGE if held <= FEW_EDGES => {
            route_in::<512, 1024, 512, 1024>(records, start, goal, list)
        }
        _ if held <= FEW_EDGES => route_in::<1024, 2048, 512, 1024>(records, start, goal, list),
        _ if held <= SOME_EDGES => route_in::<1024, 2048, 2048, 4096>(records, start, goal, list),
        _ => route_in::<1024, 2048, 8192, 16384>(records, start, goal, list),
    }
}
