// Dropping a sample from below a node.
ghost use Rattle.std.specs.Prelude.{◌≤◌};
ghost use Rattle.gnat_filing.specs.Dropping.{Shortened, IsPivot, SomeDroppable, DropsFrom};
ghost use Rattle.gnat_filing.specs.Seeking.{Holds, HoldsIn, IsFollowed, SomeDroppableUnder, Seeks, NoHigher};

use crate::splitting::pushed;
use crate::widening::{closest, measured};
use gnat_rows::{Branch, Leaf, Node, Row, element_in, node_in, put_marked, put_node};
use metric::Metric;

// What a node becomes, and whether the row is free. Both come of every drop, so an enum of the two cases would hold the
// node in each.
#[derive(Clone, Copy)]
pub struct Dropped {
    pub node: Node,
    pub freed: bool,
}

// A leaf without a row; the others keep their order.
fn shortened(l: Leaf, at: u16) -> Leaf
    requires { l.count ≤ 32 }
    ensures { Shortened l result at }
{
    let mut rest = Leaf {
        count: 0,
        rows: [0; 32],
    };
    for row in &l.rows[..l.count as usize] {
        if *row != at {
            rest = pushed(rest, *row);
        }
    }
    rest
}

// Whether the row is that of one of a branch's pivots.
fn is_pivot(b: &Branch, at: u16) -> bool
    requires { b.now.count ≤ 8 }
    ensures { IsPivot b.now at result }
{
    b.pivots[..b.count as usize].contains(&at)
}

// Drops the sample of the row `at` from the node that holds it: it leaves its leaf, or is marked where it is a pivot.
fn drop_held<E: Metric>(rows: &mut [Row<E>], node: Node, at: u16) -> Dropped
    requires some { SomeDroppable E.dist rows.old node at }
    requires held { Holds at node }
    ensures { DropsFrom E.dist rows.old rows.new node result.node result.freed at }
{
    match node {
        Node::Leaf(l) => Dropped {
            node: Node::Leaf(shortened(l, at)),
            freed: true,
        },
        Node::Branch(b) => {
            put_marked(rows, at as usize, true);
            Dropped {
                node: Node::Branch(b),
                freed: false,
            }
        }
    }
}

// The row of the pivot under which the sample of the row `at` lies, or none where the node itself holds it.
fn followed<E: Metric>(rows: &[Row<E>], node: &Node, at: u16) -> Option<u16>
    requires { SomeDroppable E.dist rows.now node.now at }
    ensures { IsFollowed E.dist rows.now node.now at result }
{
    match node {
        Node::Leaf(_) => None,
        Node::Branch(b) => {
            if is_pivot(b, at) {
                return None;
            }
            let element = element_in(rows, at as usize);
            let ds = measured(rows, b, &element);
            let j = closest(&ds[..b.count as usize]);
            Some(b.pivots[j])
        }
    }
}

// Goes down from the pivot in the row `root` to the one whose node holds the sample of the row `at`.
fn holder<E: Metric>(rows: &[Row<E>], root: u16, at: u16) -> u16
    requires { SomeDroppableUnder E.dist rows.now root at }
    ensures holds { HoldsIn rows.now result at }
    ensures seeks { Seeks E.dist rows.now root result at }
    ensures no_higher { NoHigher rows.now root result }
{
    let mut pivot = root;
    while let Some(next) = followed(rows, &rows[pivot as usize].node, at) {
        pivot = next;
    }
    pivot
}

// Drops the sample of the row `at` from below a node that is in no row, and tells what the node becomes: no branch on the
// way is changed.
pub fn take_out<E: Metric>(rows: &mut [Row<E>], node: Node, at: u16) -> Dropped
    requires { SomeDroppable E.dist rows.old node at }
    ensures { DropsFrom E.dist rows.old rows.new node result.node result.freed at }
{
    match followed(rows, &node, at) {
        None => drop_held(rows, node, at),
        Some(root) => {
            let pivot = holder(rows, root, at) as usize;
            let held = node_in(rows, pivot);
            let dropped = drop_held(rows, held, at);
            put_node(rows, pivot, dropped.node);
            Dropped {
                node,
                freed: dropped.freed,
            }
        }
    }
}
