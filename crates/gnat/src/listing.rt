// The order in which the rows are listed: those that stand, by rising number, those marked, those free.
ghost use Rattle.std.specs.Prelude.{◌≡◌, ◌+◌, ◌<◌, ◌≤◌, length, slice_index};
ghost use Rattle.gnat_rows.specs.Rows.{with_sample};
ghost use Rattle.gnat_order.specs.Order.{places, placed, swapped};
ghost use Rattle.gnat.specs.Unlisting.{unlisted, marked_then};

use gnat_order::{move_behind, swap_places};
use gnat_rows::{Row, place_in, put_sample};
use metric::Metric;

// Lists the first free row behind those that stand, writes a sample to it, and returns the row.
pub(crate) fn enlist<E: Metric>(
    rows: &mut [Row<E>],
    standing: usize,
    in_use: usize,
    number: u16,
    e: E,
) -> u16
    requires order { standing ≤ in_use }
    requires fits { in_use < length rows.old }
    requires within { slice_index (places rows.old) in_use < length rows.old }
    ensures row { result ≡ slice_index (places rows.old) in_use }
    ensures leaves { rows.new ≡ with_sample (slice_index (places rows.old) in_use) number e (placed (swapped standing in_use (places rows.old)) rows.old) }
{
    let at = place_in(rows, in_use);
    swap_places(rows, standing, in_use);
    put_sample(rows, at as usize, number, e);
    at
}

// Lists the row at `at` behind those that stand, or behind those marked too if it is free, as the drop from the tree
// told. Returns how many are marked. `freed` is a plain fact of the row, which every drop from the tree tells, beside the
// node.
pub(crate) fn unlist<E: Metric>(
    rows: &mut [Row<E>],
    at: usize,
    standing: usize,
    marked: usize,
    freed: bool,
) -> usize
    requires listed { at < standing }
    requires fits { standing + marked ≤ length rows.old }
    requires few { marked < 65536 }
    ensures count { result ≡ marked_then marked freed }
    ensures leaves { rows.new ≡ placed (unlisted at standing marked freed (places rows.old)) rows.old }
{
    move_behind(rows, at, standing);
    if freed {
        swap_places(rows, standing - 1, standing - 1 + marked);
        return marked;
    }
    marked + 1
}
