// The order of rows: the place fields of all rows, read row by row, list the rows that stand by
// rising number, then the marked ones, then the free ones.
#![tactic(auto)]

ghost use Rattle.std.specs.Prelude.{◌≡◌, ◌+◌, ◌<◌, ◌≤◌, length, take, slice_index};
ghost use Rattle.hits.specs.Lists.{closed};
ghost use Rattle.hits.specs.Samples.{Rising};
ghost use Rattle.gnat_rows.specs.Rows.{HasRow};
ghost use Rattle.gnat_rows.specs.Trees.{samples_at};
ghost use Rattle.gnat_order.specs.Order.{places, placed, Within, Listed, counted, swapped};

use gnat_rows::{Row, number_in, place_in, put_place};
use metric::Metric;

// Lists the first `count` rows in their own order.
pub fn list_rows<E: Metric>(rows: &mut [Row<E>], count: u16)
    requires { count ≤ length rows.old }
    ensures { rows.new ≡ placed (counted count (places rows.old)) rows.old }
{
    for (i, row) in rows[..count as usize].iter_mut().enumerate() {
        row.place = i as u16;
    }
}

// The number of the sample in the row that is listed at `at`.
fn number_at<E: Metric>(rows: &[Row<E>], at: usize) -> u16
    requires { (at < length rows.now) × (slice_index (places rows.now) at < length rows.now) }
    ensures { HasRow rows.now (slice_index (places rows.now) at) (λ row. result ≡ row.number) }
{
    let row = place_in(rows, at);
    number_in(rows, row as usize)
}

// Where the sample of this number is listed among the first `standing`, whose numbers rise. The library's search may ask
// its key of any row, and here only a row that is listed leads to a number: so it is halved by hand.
pub fn find<E: Metric>(rows: &[Row<E>], standing: usize, number: u16) -> Option<usize>
    requires fits { standing ≤ length rows.now }
    requires within { Within (take standing (places rows.now)) (length rows.now) }
    requires rise { Rising 0 65535 (samples_at rows.now (take standing (places rows.now))) }
    ensures { Listed rows.now standing number result }
{
    let mut low = 0;
    let mut high = standing;
    while low < high {
        let middle = (low + high) / 2;
        if number_at(rows, middle) < number {
            low = middle + 1;
        } else {
            high = middle;
        }
    }
    if low < standing && number_at(rows, low) == number {
        Some(low)
    } else {
        None
    }
}

// Exchanges what is listed at two places.
pub fn swap_places<E: Metric>(rows: &mut [Row<E>], i: usize, j: usize)
    requires { (i < length rows.old) × (j < length rows.old) }
    ensures { rows.new ≡ placed (swapped i j (places rows.old)) rows.old }
{
    let first = place_in(rows, i);
    let second = place_in(rows, j);
    put_place(rows, i, second);
    put_place(rows, j, first);
}

// Moves what is listed at `at` behind the others of the first `count`, which keep their order.
pub fn move_behind<E: Metric>(rows: &mut [Row<E>], at: usize, count: usize)
    requires { (at < count) × (count ≤ length rows.old) }
    ensures { rows.new ≡ placed (closed at count (places rows.old)) rows.old }
{
    let moved = place_in(rows, at);
    // By place: no iterator lends two neighbours of which one is written, and a place carried along `iter_mut().rev()` leaves
    // only the length of the rows known.
    for i in at..count - 1 {
        let next = place_in(rows, i + 1);
        put_place(rows, i, next);
    }
    put_place(rows, count - 1, moved);
}
