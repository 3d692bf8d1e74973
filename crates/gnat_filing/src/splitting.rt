// Splitting a leaf that has become too large.
ghost use Rattle.std.specs.Prelude.{◌≡◌, ℕ, ◌+◌, ◌<◌, ◌≤◌, length, slice_index};
ghost use Rattle.gnat_theory.specs.Splitting.{split as split_of};
ghost use Rattle.gnat_rows.specs.declared.Leaf.{Leaf as LeafRecord};
ghost use Rattle.gnat_rows.specs.declared.Branch.{Branch as BranchRecord};
ghost use Rattle.gnat_rows.specs.declared.Node.TheVariants.{Leaf as leaf_node, Branch as branch_node};
ghost use Rattle.gnat_filing.specs.Choosing.{rows_of};
ghost use Rattle.gnat_filing.specs.Filed.{LeafFileable, Becomes};
ghost use Rattle.gnat_filing.specs.Filling.{Lengthened, Clears, Bare, BelowFileable, FilesBelow, SomeFillable, Fills};
ghost use Rattle.gnat_filing.specs.Leaf.{Pushed};

use crate::choosing::{Candidate, candidates, choose};
use crate::widening::{approach, join_column, measured};
use gnat_rows::{Branch, EMPTY, Leaf, Node, Row, element_in, node_in, put_marked, put_node};
use metric::Metric;

// One row more at the end of a leaf.
pub fn pushed(l: Leaf, at: u16) -> Leaf
    requires { l.count < 32 }
    ensures { Pushed l result at }
{
    let mut longer = l;
    longer.rows[longer.count as usize] = at;
    longer.count += 1;
    longer
}

// The same of a node that is a leaf; a branch stays.
fn lengthened(node: Node, at: u16) -> Node
    requires { (l : LeafRecord) → node ≡ leaf_node l → l.count < 32 }
    ensures leaf { Lengthened node result at }
    ensures branch { (b : BranchRecord) → node ≡ branch_node b → result ≡ node }
{
    match node {
        Node::Leaf(l) => Node::Leaf(pushed(l, at)),
        Node::Branch(b) => Node::Branch(b),
    }
}

// The rows of the pivots are unmarked, each over an empty leaf.
fn clear<E: Metric>(rows: &mut [Row<E>], pivots: &[u16])
    requires { (k : ℕ) → k < length pivots.now → slice_index pivots.now k < length rows.old }
    ensures { Clears rows.old rows.new pivots.now (length pivots.now) }
{
    for pivot in pivots {
        put_node(rows, *pivot as usize, EMPTY);
        put_marked(rows, *pivot as usize, false);
    }
}

// A branch with the ranges of its pivots alone. The degree comes without a bucket, as at `split`.
fn bare<E: Metric>(rows: &[Row<E>], pivots: [u16; 8], degree: usize) -> Branch
    requires { (1 ≤ degree) × ((degree ≤ 8) × (((k : ℕ) → k < degree → slice_index pivots k < length rows.now))) }
    ensures { Bare E.dist rows.now pivots degree result }
{
    let mut b = Branch {
        count: degree as u8,
        pivots,
        low: [[0; 8]; 8],
        high: [[0; 8]; 8],
    };
    for (j, pivot) in pivots[..degree].iter().enumerate() {
        let element = element_in(rows, *pivot as usize);
        let ds = measured(rows, &b, &element);
        join_column(&mut b.low, j, &ds, |_, d| d);
        join_column(&mut b.high, j, &ds, |_, d| d);
    }
    b
}

// Files the sample of the row `at` in the leaf under its nearest pivot.
fn file_below<E: Metric>(rows: &mut [Row<E>], b: &mut Branch, at: u16)
    requires { BelowFileable rows.old b.old at }
    ensures { FilesBelow E.dist rows.old rows.new b.old b.new at }
{
    let element = element_in(rows, at as usize);
    let j = approach(rows, b, &element);
    let pivot = b.pivots[j] as usize;
    let child = node_in(rows, pivot);
    put_node(rows, pivot, lengthened(child, at));
}

// Files the samples of these rows, in order.
fn fill<E: Metric>(rows: &mut [Row<E>], b: &mut Branch, cs: &[Candidate])
    requires { SomeFillable rows.old b.old (rows_of cs.now) }
    ensures { Fills E.dist (length cs.now) rows.old rows.new b.old b.new (rows_of cs.now) }
{
    for c in cs {
        file_below(rows, b, c.row);
    }
}

// A leaf and the row `at` become a branch: pivots are chosen, and the others filed below them. Any degree from 1 on
// serves, so it comes without a bucket.
pub fn split<E: Metric>(rows: &mut [Row<E>], l: Leaf, at: u16, degree: usize) -> Node
    requires leaf { LeafFileable 32 rows.old l at }
    requires degree { (1 ≤ degree) × ((degree ≤ 8) × (degree ≤ l.count)) }
    ensures { Becomes (split_of E.dist degree) 32 rows.old rows.new l result at }
{
    let mut cs = candidates(rows, &l, at);
    let pivots = choose(rows, &mut cs, degree);
    clear(rows, &pivots[..degree]);
    let mut b = bare(rows, pivots, degree);
    fill(rows, &mut b, cs.as_slice());
    Node::Branch(b)
}
