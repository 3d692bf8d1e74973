// Filing a sample below a node.
ghost use Rattle.gnat_theory.specs.Splitting.{kept_or_split};
ghost use Rattle.gnat_filing.specs.Filed.{Fileable, FilesIn, LeafFileable, Becomes};
ghost use Rattle.gnat_filing.specs.Under.{FileableUnder, FilesUnder, HoldsBranch, SomeFileableUnder, GoesBelow};

use crate::settings::Settings;
use crate::splitting::{pushed, split};
use crate::widening::approach;
use gnat_rows::{Branch, Leaf, Node, Row, element_in, node_in, put_node};
use metric::Metric;

// The row goes to the end of a leaf, which is split if that is too large.
fn file_in_leaf<E: Metric>(rows: &mut [Row<E>], l: Leaf, at: u16, settings: Settings) -> Node
    requires { LeafFileable settings.bucket rows.old l at }
    ensures { Becomes (kept_or_split E.dist settings.degree settings.bucket) settings.bucket rows.old rows.new l result at }
{
    if l.count < settings.bucket {
        Node::Leaf(pushed(l, at))
    } else {
        split(rows, l, at, settings.degree as usize)
    }
}

// Widens the branch below a pivot on the way of the sample of the row `at`, and returns the row of the pivot under which the
// way goes on.
fn widen_below<E: Metric>(rows: &mut [Row<E>], pivot: u16, b: Branch, at: u16) -> u16
    requires branch { HoldsBranch rows.old pivot b }
    requires ready { SomeFileableUnder rows.old pivot at }
    ensures { GoesBelow E.dist rows.old rows.new pivot result at }
{
    let element = element_in(rows, at as usize);
    let mut wide = b;
    let j = approach(rows, &mut wide, &element);
    put_node(rows, pivot as usize, Node::Branch(wide));
    b.pivots[j]
}

// Files the sample of the row `at` below the pivot in the row `root`: each branch on the way is widened in its row, and the
// leaf at its end is changed.
fn file_under<E: Metric>(rows: &mut [Row<E>], root: u16, at: u16, settings: Settings)
    requires { FileableUnder settings.degree settings.bucket rows.old root at }
    ensures { FilesUnder E.dist settings.degree settings.bucket rows.old rows.new root at }
{
    let mut pivot = root;
    loop {
        match node_in(rows, pivot as usize) {
            Node::Leaf(l) => {
                let grown = file_in_leaf(rows, l, at, settings);
                put_node(rows, pivot as usize, grown);
                return;
            }
            Node::Branch(b) => pivot = widen_below(rows, pivot, b, at),
        }
    }
}

// Files the sample of the row `at` below a node that is in no row, and returns what the node becomes.
pub fn file<E: Metric>(rows: &mut [Row<E>], node: Node, at: u16, settings: Settings) -> Node
    requires { Fileable settings.degree settings.bucket rows.old node at }
    ensures { FilesIn E.dist settings.degree settings.bucket rows.old rows.new node result at }
{
    match node {
        Node::Leaf(l) => file_in_leaf(rows, l, at, settings),
        Node::Branch(b) => {
            let element = element_in(rows, at as usize);
            let mut wide = b;
            let j = approach(rows, &mut wide, &element);
            file_under(rows, b.pivots[j], at, settings);
            Node::Branch(wide)
        }
    }
}
