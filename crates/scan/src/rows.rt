// The rows of a scan: its samples by rising number, from the first row on.
ghost use Rattle.std.specs.Prelude.{◌≡◌, ◌==◌, length, take};
ghost use Rattle.std.specs.List.{position};
ghost use Rattle.hits.specs.Lists.{over};
ghost use Rattle.hits.specs.Order.{inside};
ghost use Rattle.hits.specs.Samples.{Rising, hits};
ghost use Rattle.scan.specs.Rows.{samples};

use hits::{Hit, place};
use metric::Metric;

// A place for one sample.
#[derive(Clone, Copy, Debug, PartialEq)]
pub struct Row<E> {
    pub number: u16,
    pub element: E,
}

impl<E: Metric> Row<E> {
    // A row to lend: what it holds does not matter until a sample is filed in it.
    pub fn vacant(element: E) -> Row<E>
        ensures { result ≡ record { number = 0; element = element } }
    {
        Row { number: 0, element }
    }
}

// The place of the first row with this number.
pub(crate) fn find<E: Metric>(rows: &[Row<E>], number: u16) -> Option<usize>
    ensures { result ≡ position (λ row. row.number == number) rows.now }
{
    rows.iter().position(|row| row.number == number)
}

// Counts the rows at most `radius` away from the query, and keeps the nearest of them in the list.
pub(crate) fn gather<E: Metric>(rows: &[Row<E>], q: &E, radius: u32, list: &mut [Hit]) -> usize
    ensures count { result ≡ length (inside radius (hits E.dist q.now (samples rows.now))) }
    ensures writes { list.new ≡ over (take (length list.old) (inside radius (hits E.dist q.now (samples rows.now)))) list.old }
{
    let mut found = 0;
    let mut held = 0;
    for row in rows {
        let distance = q.distance(&row.element);
        if distance <= radius {
            found += 1;
            held = place(
                list,
                held,
                Hit {
                    number: row.number,
                    distance,
                },
            );
        }
    }
    found
}
