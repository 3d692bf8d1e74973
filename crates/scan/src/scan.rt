// The scan as an index.
ghost use Rattle.std.specs.Prelude.{◌≡◌, ◌≤◌, ℕ, min, length, take};
ghost use Rattle.hits.specs.Samples.{Rising, Rising-prop};
ghost use Rattle.index.specs.Meaning.{fresh};
ghost use Rattle.scan.specs.Rows.{samples};

use crate::rows::{Row, find, gather};
use hits::{Hit, close_up};
use index::index::Index;
use index::refusal::{Refusal, room};
use metric::Metric;

// The first `used` rows hold the standing samples by rising number. The rows are lent, so their
// count stands beside them.
#[derive(Drop)]
pub struct Scan<'a, E> {
    rows: &'a mut [Row<E>],
    used: usize,
    last: u16,
    ghost used_bound: { used ≤ min (length rows.now) 1024 },
    ghost last_bound: { last ≤ 65535 },
    ghost rising: { Rising 0 last (samples (take used rows.now)) } by { Rising-prop 0 last (samples (take used rows.now)) },
}

impl<'a, E: Metric> Scan<'a, E> {
    ghost use Rattle.scan.specs.Scans.{scan_meaning, PlaceTold};

    // An index over the rows that are lent, of which it uses at most 1,024.
    pub fn new(rows: &'a mut [Row<E>]) -> Scan<'a, E>
        ensures { scan_meaning result ≡ fresh (min (length rows.old) 1024) }
    {
        Scan {
            rows,
            used: 0,
            last: 0,
        }
    }

    fn capacity(&self) -> usize
        ensures { result ≡ (scan_meaning self.now).capacity }
    {
        self.rows.len().min(1024)
    }

    // The place of the row that holds the sample of this number.
    fn place_of(&self, number: u16) -> Result<usize, Refusal>
        ensures { PlaceTold self.now number result }
    {
        find(&self.rows[0..self.used], number).ok_or(Refusal::NotStanding(number))
    }
}

impl<'a, E: Metric> Index for Scan<'a, E> {
    ghost use Rattle.scan.specs.Scans.{scan_meaning, scan_lawful};

    type Element = E;

    ghost meaning = { scan_meaning };

    ghost lawful = { scan_lawful };

    fn add(&mut self, e: E) -> Result<u16, Refusal> {
        room(self.capacity(), self.used, self.last)?;
        let number = self.last + 1;
        self.rows[self.used] = Row { number, element: e };
        self.used += 1;
        self.last = number;
        Ok(number)
    }

    fn drop(&mut self, number: u16) -> Result<(), Refusal> {
        let at = self.place_of(number)?;
        close_up(self.rows, at, self.used);
        self.used -= 1;
        Ok(())
    }

    fn element(&self, number: u16) -> Result<E, Refusal> {
        let at = self.place_of(number)?;
        Ok(self.rows[at].element)
    }

    fn tally(&self) -> (usize, usize, u16) {
        (self.capacity(), self.used, self.last)
    }

    fn near(&self, q: &E, k: usize, list: &mut [Hit]) -> Result<usize, Refusal> {
        if k == 0 || k > list.len() {
            return Err(Refusal::HitCount);
        }
        let found = gather(&self.rows[0..self.used], q, u32::MAX, &mut list[0..k]);
        Ok(found.min(k))
    }

    fn within(&self, q: &E, radius: u32, list: &mut [Hit]) -> usize {
        gather(&self.rows[0..self.used], q, radius, list)
    }
}
