// One branch on the way of a sample: its pivots are measured, the nearest is found, and the ranges
// to its child are widened.
ghost use Rattle.std.specs.Prelude.{◌≡◌, ℕ, ◌<◌, ◌≤◌, ◌≢◌, length, slice_index};
ghost use Rattle.gnat_theory.specs.Filing.{nearest};
ghost use Rattle.gnat_rows.specs.Shows.{down};
ghost use Rattle.gnat_filing.specs.Widening.{Pivoted, Measured, Widens, Approaches};

use crate::first::first_place;
use gnat_rows::{Branch, Row, element_in};
use metric::Metric;

// The distances of a branch's pivots to an element, each measured once.
pub fn measured<E: Metric>(rows: &[Row<E>], b: &Branch, e: &E) -> [u32; 8]
    requires { Pivoted rows.now b.now }
    ensures { Measured E.dist rows.now b.now e.now result }
{
    let mut ds = [0u32; 8];
    for (i, pivot) in b.pivots[..b.count as usize].iter().enumerate() {
        ds[i] = element_in(rows, *pivot as usize).distance(e);
    }
    ds
}

// The place of the least distance, the earlier one if equal.
pub fn closest(ds: &[u32]) -> usize
    requires { 1 ≤ length ds.now }
    ensures below { result < length ds.now }
    ensures near { nearest ds.now ≡ result }
{
    first_place(ds, |d, e| d < e)
}

// Puts a number into a row of a table.
fn put_in_row(row: &mut [u32; 8], j: usize, value: u32)
    requires { j < 8 }
    ensures here { slice_index row.new j ≡ value }
    ensures others { (m : ℕ) → (m ≢ j) → slice_index row.new m ≡ slice_index row.old m }
{
    row[j] = value;
}

// Makes the first numbers of a table's column what `join` makes of each and a distance.
pub fn join_column<F: Fn(u32, u32) -> u32>(table: &mut [[u32; 8]; 8], j: usize, ds: &[u32], join: F)
    requires fits { (j < 8) × (length ds.now ≤ 8) }
    requires callable { F.IsAlwaysCallable join }
    ensures eight { length table.new ≡ 8 }
    ensures each { (k : ℕ) → k < length ds.now → F.post join (slice_index (down table.old j) k) (slice_index ds.now k) (slice_index (down table.new j) k) }
    ensures others { (m : ℕ) → (m ≢ j) → down table.new m ≡ down table.old m }
{
    for (i, d) in ds.iter().enumerate() {
        let joined = join(table[i][j], *d);
        put_in_row(&mut table[i], j, joined);
    }
}

// Widens every pivot's range to the child j to hold its distance.
fn widen_column(b: &mut Branch, j: usize, ds: &[u32])
    requires { (b.old.count ≤ 8) × (j < 8) × (length ds.now ≡ b.old.count) }
    ensures { Widens b.old b.new j ds.now }
{
    join_column(&mut b.low, j, ds, |l, d| l.min(d));
    join_column(&mut b.high, j, ds, |h, d| h.max(d));
}

// Finds the pivot nearest to an element, and widens the ranges to its child.
pub fn approach<E: Metric>(rows: &[Row<E>], b: &mut Branch, e: &E) -> usize
    requires { Pivoted rows.now b.old }
    ensures { Approaches E.dist rows.now e.now b.old b.new result }
{
    let all = measured(rows, b, e);
    let ds = &all[..b.count as usize];
    let j = closest(ds);
    widen_column(b, j, ds);
    j
}
