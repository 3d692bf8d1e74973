// Choosing the pivots of a split.
ghost use Rattle.std.specs.Prelude.{◌≡◌, ℕ, ◌+◌, ◌<◌, ◌≤◌, length, slice_index, slice_index_or};
ghost use Rattle.gnat_theory.specs.Choice.{first_place as first_place_of};
ghost use Rattle.gnat_filing.specs.Choosing.{farther_one, blank, CandidateOf, ListsCandidates, Renewed, SomeCandidates, TakesItsNext, FirstCandidates, ChoosesFirst};

use crate::first::first_place;
use arrayvec::ArrayVec;
use gnat_rows::{Leaf, Row, element_in, number_in};
use metric::Metric;

// A row that may become a pivot: its sample's number, and the distance to its nearest pivot so far.
#[derive(Clone, Copy, Default)]
pub struct Candidate {
    pub row: u16,
    pub number: u16,
    pub gap: u32,
}

// A row before any pivot is chosen.
fn candidate_of<E: Metric>(rows: &[Row<E>], row: u16) -> Candidate
    requires { row < length rows.now }
    ensures { CandidateOf rows.now row result }
{
    Candidate {
        row,
        number: number_in(rows, row as usize),
        gap: u32::MAX,
    }
}

// The rows of a leaf and then the row `at`.
pub fn candidates<E: Metric>(rows: &[Row<E>], l: &Leaf, at: u16) -> ArrayVec<Candidate, 33>
    requires count { l.now.count ≤ 32 }
    requires within { (((k : ℕ) → k < l.now.count → slice_index l.now.rows k < length rows.now)) × (at < length rows.now) }
    ensures { ListsCandidates E.dist rows.now l.now at result.items }
{
    let mut cs = ArrayVec::new();
    for row in &l.rows[..l.count as usize] {
        cs.push(candidate_of(rows, *row));
    }
    cs.push(candidate_of(rows, at));
    cs
}

// The next pivot is the farther one, of the smaller number if equal: the greater gap first and then the smaller number, an
// order that neither a derive nor that of a tuple gives.
fn is_farther(c: Candidate, d: Candidate) -> bool
    ensures { result ≡ farther_one c d }
{
    c.gap > d.gap || c.gap == d.gap && c.number < d.number
}

// The place of the next pivot.
fn farthest(cs: &[Candidate]) -> usize
    requires { 1 ≤ length cs.now }
    ensures below { result < length cs.now }
    ensures first { first_place_of farther_one cs.now ≡ result }
{
    first_place(cs, |c, d| is_farther(c, d))
}

// The distance to a pivot counts in.
fn renewed<E: Metric>(rows: &[Row<E>], c: Candidate, pivot: &E) -> Candidate
    requires { c.row < length rows.now }
    ensures { Renewed E.dist rows.now pivot.now c result }
{
    let element = element_in(rows, c.row as usize);
    Candidate {
        row: c.row,
        number: c.number,
        gap: c.gap.min(pivot.distance(&element)),
    }
}

fn renew<E: Metric>(rows: &[Row<E>], cs: &mut [Candidate], pivot: &E)
    requires { (k : ℕ) → k < length cs.old → (slice_index_or cs.old k blank).row < length rows.now }
    ensures { (k : ℕ) → k < length cs.old → Renewed E.dist rows.now pivot.now (slice_index_or cs.old k blank) (slice_index_or cs.new k blank) }
{
    for c in cs.iter_mut() {
        *c = renewed(rows, *c, pivot);
    }
}

// Takes the next pivot out of the candidates, and returns its row.
fn next_pivot<E: Metric>(rows: &[Row<E>], cs: &mut ArrayVec<Candidate, 33>) -> u16
    requires some { 1 ≤ length cs.old.items }
    requires candidates { SomeCandidates E.dist rows.now cs.old.items }
    ensures one { length cs.new.items + 1 ≡ length cs.old.items }
    ensures next { TakesItsNext E.dist rows.now cs.old.items cs.new.items result }
{
    let pivot = cs.remove(farthest(cs.as_slice()));
    let element = element_in(rows, pivot.row as usize);
    renew(rows, cs.as_mut_slice(), &element);
    pivot.row
}

// Chooses the rows of the pivots out of the candidates; the others stay, in their order. The degree comes without a bucket,
// as at `split`.
pub fn choose<E: Metric>(
    rows: &[Row<E>],
    cs: &mut ArrayVec<Candidate, 33>,
    degree: usize,
) -> [u16; 8]
    requires count { (degree ≤ 8) × (degree ≤ length cs.old.items) }
    requires candidates { FirstCandidates E.dist rows.now cs.old.items }
    ensures eight { length result ≡ 8 }
    ensures chosen { ChoosesFirst E.dist rows.now degree degree cs.old.items cs.new.items result }
{
    let mut pivots = [0u16; 8];
    for pivot in pivots[..degree].iter_mut() {
        *pivot = next_pivot(rows, cs);
    }
    pivots
}
