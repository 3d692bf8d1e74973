// Searching a GNAT that lies in lent rows, by a list of pending rows: no recursion, no allocation.
#![tactic(auto)]

ghost use Rattle.std.specs.Prelude.{◌≡◌, ◌+◌, ◌-◌, ◌<◌, ◌≤◌, List, ◌++◌, length};
ghost use Rattle.arrayvec.specs.ArrayVec.{array_vec_len};
ghost use Rattle.gnat_theory.specs.Searching.{State, counted_in};
ghost use Rattle.gnat_rows.specs.Shows.{sample_in, pivot_in};
ghost use Rattle.gnat_search.specs.Wants.{want, Room, Counted, Kept, Steps, SampleCounted, PivotCounted};
ghost use Rattle.gnat_search.specs.Nodes.{open_rows, LeafShown, BranchShown, Searchable, LeafDistances, LeafMeasured, BranchSurveyed, Visited, Searched};

mod found;
mod striking;

use arrayvec::ArrayVec;
pub use found::Found;
use gnat_rows::{Branch, Leaf, Node, Row};
use hits::{Hit, place};
use metric::Metric;
use striking::strike;

// The rows that can be pending at once: each holds a pivot of its own, and a tree has at most 1,024.
const PENDING: usize = 1024;

// What is wanted: the nearest, as many as the list has places, or all within a radius. No `Option`: each of the two says
// what is wanted, and `None` would say nothing.
#[derive(Clone, Copy)]
pub enum Aim {
    Nearest,
    Within(u32),
}

// What the pivots of a branch have shown: the counts then, and which children are struck. A child keeps its place
// whether it is struck or not.
#[derive(Clone, Copy)]
struct View {
    so_far: Found,
    struck: [bool; 8],
}

impl Aim {
    // Counts a sample that was measured, and keeps its hit if it is wanted.
    fn keep(self, list: &mut [Hit], so_far: Found, hit: Hit) -> Found
        requires { Room so_far 1 }
        ensures counts { Counted so_far result 1 }
        ensures keeps { Steps (counted_in (want self (length list.old)) hit) list.old list.new so_far result }
    {
        let measured = so_far.measured + 1;
        match self {
            Aim::Nearest => {
                let held = place(list, so_far.held, hit);
                Found {
                    found: held,
                    held,
                    measured,
                }
            }
            Aim::Within(radius) => {
                if hit.distance <= radius {
                    let held = place(list, so_far.held, hit);
                    Found {
                        found: so_far.found + 1,
                        held,
                        measured,
                    }
                } else {
                    Found {
                        found: so_far.found,
                        held: so_far.held,
                        measured,
                    }
                }
            }
        }
    }

    // How far off a sample could still count; none: at any distance.
    fn reach(self, list: &[Hit], so_far: Found) -> Option<u32>
        ensures { (old : List Hit) (st : State) → Kept old list.now so_far st → result ≡ (want self (length list.now)).reach st.kept }
    {
        match self {
            Aim::Nearest => {
                let farthest = list.last()?;
                (so_far.held == list.len()).then_some(farthest.distance)
            }
            Aim::Within(radius) => Some(radius),
        }
    }
}

// Puts the rows of the children that are not struck behind those that are pending, in order.
fn push_open(branch: &Branch, struck: &[bool; 8], pending: &mut ArrayVec<u16, PENDING>)
    requires few { branch.now.count ≤ 8 }
    requires room { branch.now.count ≤ 1024 - array_vec_len pending.old }
    ensures { pending.new.items ≡ pending.old.items ++ open_rows branch.now.pivots struck.now 0 branch.now.count }
{
    let pivots = &branch.pivots[..branch.count as usize];
    for (row, struck) in pivots.iter().zip(struck) {
        if !*struck {
            pending.push(*row);
        }
    }
}

// A search: the rows that show the tree, the element that hits are near to, and what is wanted. The list
// and its counts are passed beside it: in a struct of both, each contract would also have to promise that
// the list in it is still the one that was lent.
#[derive(Drop)]
struct Quest<'a, E> {
    rows: &'a [Row<E>],
    q: &'a E,
    aim: Aim,
}

impl<'a, E: Metric> Quest<'a, E> {
    // Counts the sample in a row, which is at this distance.
    fn count_sample(&self, row: &Row<E>, distance: u32, list: &mut [Hit], so_far: Found) -> Found
        requires { Room so_far 1 }
        ensures counts { Counted so_far result 1 }
        ensures keeps { SampleCounted E.dist distance (sample_in row.now) self.now.aim list.old list.new so_far result }
    {
        let hit = Hit {
            number: row.number,
            distance,
        };
        self.aim.keep(list, so_far, hit)
    }

    // Counts the pivot in a row, which is at this distance. Marked, it is no hit.
    fn count_pivot(&self, row: &Row<E>, distance: u32, list: &mut [Hit], so_far: Found) -> Found
        requires { Room so_far 1 }
        ensures counts { Counted so_far result 1 }
        ensures keeps { PivotCounted E.dist distance (pivot_in row.now) self.now.aim list.old list.new so_far result }
    {
        if row.marked {
            return Found {
                found: so_far.found,
                held: so_far.held,
                measured: so_far.measured + 1,
            };
        }
        self.count_sample(row, distance, list, so_far)
    }

    // Writes down the distances of a leaf's samples, in order.
    fn measure_rows(&self, leaf: &Leaf, distances: &mut [u32; 32])
        requires { LeafShown self.now.rows.now leaf.now }
        ensures { LeafDistances self.now.rows.now E.dist self.now.q.now leaf.now distances.new }
    {
        for (i, at) in leaf.rows[..leaf.count as usize].iter().enumerate() {
            distances[i] = self.q.distance(&self.rows[*at as usize].element);
        }
    }

    // Measures the samples of a leaf: all of them before one is counted, so that no distance waits for a hit to be placed.
    fn measure_leaf(&self, leaf: &Leaf, list: &mut [Hit], mut so_far: Found) -> Found
        requires shown { LeafShown self.now.rows.now leaf.now }
        requires room { Room so_far 32 }
        ensures counts { Counted so_far result 32 }
        ensures keeps { LeafMeasured self.now.rows.now E.dist self.now.q.now self.now.aim leaf.now list.old list.new so_far result }
    {
        let mut distances = [0; 32];
        self.measure_rows(leaf, &mut distances);
        for (i, at) in leaf.rows[..leaf.count as usize].iter().enumerate() {
            so_far = self.count_sample(&self.rows[*at as usize], distances[i], list, so_far);
        }
        so_far
    }

    // Measures the pivots of a branch in order, but for those that are struck. Each strikes by its
    // ranges, as far as a sample could then still count.
    fn survey(&self, branch: &Branch, list: &mut [Hit], mut so_far: Found) -> View
        requires shown { BranchShown self.now.rows.now branch.now }
        requires room { Room so_far 8 }
        ensures counts { Counted so_far result.so_far 8 }
        ensures keeps { BranchSurveyed self.now.rows.now E.dist self.now.q.now self.now.aim branch.now list.old list.new so_far result.so_far result.struck }
    {
        let mut struck = [false; 8];
        for (i, at) in branch.pivots[..branch.count as usize].iter().enumerate() {
            // Read at i, since each pivot may strike children after it.
            if !struck[i] {
                let row = &self.rows[*at as usize];
                let distance = self.q.distance(&row.element);
                let counted = self.count_pivot(row, distance, list, so_far);
                let within = self.aim.reach(list, counted);
                strike(&mut struck, branch, i, distance, within);
                so_far = counted;
            }
        }
        View { so_far, struck }
    }

    // Visits a node: measures what it holds, and puts the rows of its children that are not struck
    // behind those that are pending.
    fn visit(
        &self,
        node: &Node,
        list: &mut [Hit],
        so_far: Found,
        pending: &mut ArrayVec<u16, PENDING>,
    ) -> Found
        requires shown { Searchable self.now.rows.now (1024 - array_vec_len pending.old) node.now }
        requires room { Room so_far 32 }
        ensures counts { Counted so_far result 32 }
        ensures keeps { Visited self.now.rows.now E.dist self.now.q.now self.now.aim node.now list.old list.new so_far result pending.old.items pending.new.items }
    {
        match node {
            Node::Leaf(leaf) => self.measure_leaf(leaf, list, so_far),
            Node::Branch(branch) => {
                let view = self.survey(branch, list, so_far);
                push_open(branch, &view.struck, pending);
                view.so_far
            }
        }
    }
}

// Searches the tree that the rows show from the root on. The rows put last on the list are visited first.
pub fn search<E: Metric>(rows: &[Row<E>], root: &Node, q: &E, aim: Aim, list: &mut [Hit]) -> Found
    requires { Searchable rows.now 1024 root.now }
    ensures { Searched rows.now E.dist q.now aim root.now list.old list.new result }
{
    let quest = Quest { rows, q, aim };
    let mut pending = ArrayVec::new();
    let nothing = Found {
        found: 0,
        held: 0,
        measured: 0,
    };
    let mut so_far = quest.visit(root, list, nothing, &mut pending);
    while let Some(at) = pending.pop() {
        so_far = quest.visit(&rows[at as usize].node, list, so_far, &mut pending);
    }
    so_far
}
