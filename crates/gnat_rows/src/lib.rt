// The rows of a GNAT: each has a place for one sample, and for the node below it where the sample is
// a pivot. Small functions read and write one field of one row, for those who file, drop and list: they reach a row by its
// index, and get the fact of that row in the words of the definitions. Who holds a row by reference uses its fields in
// place: `gnat_search` reads them, and `gnat_order::list_rows` writes `place`.
#![tactic(auto)]

ghost use Rattle.std.specs.Prelude.{◌≡◌, ◌<◌, length};
ghost use Rattle.gnat_rows.specs.Rows.{vacant_row, HasRow, with_sample, with_marked, with_place, with_node};

use metric::Metric;

// Leaves and branches are copied out of a row, changed, and written back, so they are small arrays with a count.

// A leaf: the rows of its samples, in the order filed. That `count` is at most 32 is no fact of the type: rows are lent, a
// row's node is whatever the lender wrote, and a narrower type would ask more of him.
#[derive(Clone, Copy)]
pub struct Leaf {
    pub count: u8,
    pub rows: [u16; 32],
}

// A branch: the rows of its pivots, and the ranges of every pivot to every child; low[i][j] and
// high[i][j] are those of pivot i to child j. The child of a pivot is the node in the pivot's row.
// That `count` is at most 8 is no fact of the type, as at `Leaf`. The ranges of one pivot lie side by side, since a search
// holds them all against one distance; filing, which is rarer, goes down a column, the ranges to one child. Two arrays and
// not one of pairs: lows lie beside lows, so that eight are compared at once.
#[derive(Clone, Copy)]
pub struct Branch {
    pub count: u8,
    pub pivots: [u16; 8],
    pub low: [[u32; 8]; 8],
    pub high: [[u32; 8]; 8],
}

#[derive(Clone, Copy)]
pub enum Node {
    Leaf(Leaf),
    Branch(Branch),
}

// A row. `place` is no part of the sample: the places of all rows, read in order, list the rows that
// stand by rising number, then those that are marked, then those that are free. A marked sample stands no more, and
// its element still parts the tree: the mark says nothing of whether there is one.
#[derive(Clone, Copy)]
pub struct Row<E> {
    pub element: E,
    pub number: u16,
    pub marked: bool,
    pub place: u16,
    pub node: Node,
}

pub const EMPTY: Node = Node::Leaf(Leaf {
    count: 0,
    rows: [0; 32],
});

impl<E: Metric> Row<E> {
    // A row to lend: what it holds does not matter until a sample is filed in it.
    pub fn vacant(element: E) -> Row<E>
        ensures { result ≡ vacant_row element }
    {
        Row {
            element,
            number: 0,
            marked: false,
            place: 0,
            node: EMPTY,
        }
    }
}

pub fn element_in<E: Metric>(rows: &[Row<E>], at: usize) -> E
    requires { at < length rows.now }
    ensures { HasRow rows.now at (λ row. result ≡ row.element) }
{
    rows[at].element
}

pub fn number_in<E: Metric>(rows: &[Row<E>], at: usize) -> u16
    requires { at < length rows.now }
    ensures { HasRow rows.now at (λ row. result ≡ row.number) }
{
    rows[at].number
}

/// Whether the sample of the row `at` is marked, which must be a row of the list. Of a row with no sample it says nothing.
pub fn marked_in<E: Metric>(rows: &[Row<E>], at: usize) -> bool
    requires { at < length rows.now }
    ensures { HasRow rows.now at (λ row. result ≡ row.marked) }
{
    rows[at].marked
}

pub fn place_in<E: Metric>(rows: &[Row<E>], at: usize) -> u16
    requires { at < length rows.now }
    ensures { HasRow rows.now at (λ row. result ≡ row.place) }
{
    rows[at].place
}

pub fn node_in<E: Metric>(rows: &[Row<E>], at: usize) -> Node
    requires { at < length rows.now }
    ensures { HasRow rows.now at (λ row. result ≡ row.node) }
{
    rows[at].node
}

// Puts a sample into a row, unmarked.
pub fn put_sample<E: Metric>(rows: &mut [Row<E>], at: usize, number: u16, element: E)
    requires { at < length rows.old }
    ensures { rows.new ≡ with_sample at number element rows.old }
{
    let old = rows[at];
    rows[at] = Row {
        element,
        number,
        marked: false,
        ..old
    };
}

pub fn put_marked<E: Metric>(rows: &mut [Row<E>], at: usize, marked: bool)
    requires { at < length rows.old }
    ensures { rows.new ≡ with_marked at marked rows.old }
{
    rows[at].marked = marked;
}

pub fn put_place<E: Metric>(rows: &mut [Row<E>], at: usize, place: u16)
    requires { at < length rows.old }
    ensures { rows.new ≡ with_place at place rows.old }
{
    rows[at].place = place;
}

pub fn put_node<E: Metric>(rows: &mut [Row<E>], at: usize, node: Node)
    requires { at < length rows.old }
    ensures { rows.new ≡ with_node at node rows.old }
{
    rows[at].node = node;
}
