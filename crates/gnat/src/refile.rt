// Filing all samples anew.
ghost use Rattle.std.specs.Prelude.{◌≤◌, length, take};
ghost use Rattle.gnat_rows.specs.Lying.{Distinct};
ghost use Rattle.gnat_order.specs.Order.{Within, places};
ghost use Rattle.gnat.specs.Refiling.{Refiled};

use gnat_filing::filing::file;
use gnat_filing::settings::Settings;
use gnat_rows::{EMPTY, Node, Row, place_in};
use metric::Metric;

// Files the samples of the first `standing` rows that are listed, in their order, into an empty leaf,
// and returns the root.
pub(crate) fn refile<E: Metric>(rows: &mut [Row<E>], standing: usize, settings: Settings) -> Node
    requires fits { standing ≤ length rows.old }
    requires within { Within (take standing (places rows.old)) (length rows.old) }
    requires apart { Distinct (take standing (places rows.old)) }
    ensures { Refiled E.dist settings.degree settings.bucket rows.old (take standing (places rows.old)) standing rows.new result }
{
    let mut root = EMPTY;
    // By place: the order lies in the rows that `file` writes to.
    for i in 0..standing {
        let at = place_in(rows, i);
        root = file(rows, root, at, settings);
    }
    root
}
