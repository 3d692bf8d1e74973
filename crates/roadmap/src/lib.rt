// The roadmap: samples in an index, and edges between near ones that a checker passes.
#![tactic(auto)]

ghost use Rattle.std.specs.Prelude.{◌≡◌, ℕ, ◌+◌, ◌<◌, ◌≤◌, length, take};
ghost use Rattle.std.specs.List.{AllByRecursion, AllByRecursion-prop};
ghost use Rattle.hits.specs.Samples.{Ranked, hits};
ghost use Rattle.index.specs.Meaning.{Meaning, added};
ghost use Rattle.index.specs.Outcomes.{told, gives};
ghost use Rattle.index.specs.Calls.{room_of, drop_outcome, element_outcome, tally_of, near_count, near_outcome, near_hits, near_list, within_count, within_list};
ghost use Rattle.links.specs.Records.{numbers, Sound, sound_prop};
ghost use Rattle.roadmap.specs.Roads.{sample_numbers};
ghost use Rattle.roadmap.specs.Calls.{Nearest, LinkedTo, Filled, grow_outcome, grow_leaves, shrink_leaves, IslandTold, RouteTold};

use checker::Checker;
use graph::{island, route};
use hits::{Hit, close_up};
use index::index::Index;
use index::refusal::{Refusal, room};
use links::{Links, Records, find};
use metric::Metric;

// Why a roadmap is not made.
#[derive(Clone, Copy, Debug, PartialEq)]
pub enum Unmade {
    // The neighbour count is outside 1 to 8.
    Setting(u32),
    // Fewer edge records than the index has places: as many as are needed.
    TooFewRecords(usize),
}

impl Unmade {
    ghost use Rattle.roadmap.specs.Unmades.{refusal_of};

    // The refusal of a neighbour count. Too few records are the caller's mistake, and no refusal of the rules.
    pub fn refusal(&self) -> Option<Refusal>
        ensures { result ≡ refusal_of self.now }
    {
        match self {
            Unmade::Setting(k) => Some(Refusal::Setting(*k)),
            Unmade::TooFewRecords(_) => None,
        }
    }
}

// An index, how many neighbours a new sample is tried with, 1 to 8, and one edge record for each standing sample,
// by rising number, the first `used` of those that are lent, so that their count stands beside them. At least as
// many are lent as the index has places.
#[derive(Drop)]
pub struct Roadmap<'a, I: Index> {
    index: I,
    k: usize,
    links: &'a mut [Links],
    used: usize,
    ghost k_low: { 1 ≤ k },
    ghost k_high: { k ≤ 8 },
    ghost used_bound: { used ≤ length links.now },
    ghost room: { (I.Index.meaning index).capacity ≤ length links.now },
    ghost records: { AllByRecursion Sound (take used links.now) } by { AllByRecursion-prop Sound sound_prop (take used links.now) },
    ghost numbered: { numbers (take used links.now) ≡ sample_numbers (I.Index.meaning index) },
}

// The k hits nearest to e, or as many as stand. The list has room for k, so they are not refused.
fn nearest<I: Index>(index: &I, e: &I::Element, k: usize, hits: &mut [Hit]) -> usize
    requires { (0 < k) × (k ≤ length hits.old) }
    ensures { Nearest I.Element.Metric.dist (I.Index.meaning index.now) e.now k result hits.new }
{
    index.near(e, k, hits).unwrap_or(0)
}

// Files e. There is room, so it is not refused.
fn file<I: Index>(index: &mut I, e: I::Element) -> u16
    requires { room_of (I.Index.meaning index.old) ≡ gives tt }
    ensures number { result ≡ (I.Index.meaning index.old).last + 1 }
    ensures leaves { I.Index.meaning index.new ≡ added (I.Index.meaning index.old) e }
{
    index.add(e).unwrap_or(0)
}

// The edge record of a new sample: of these hits, those whose pair with it the checker passes.
fn link<I: Index, C: Checker<I::Element>>(
    index: &I,
    number: u16,
    e: &I::Element,
    checker: &C,
    hits: &[Hit],
) -> Links
    requires { length hits.now ≤ 8 }
    ensures { LinkedTo (C.Checker.passes checker.now) e.now (I.Index.meaning index.now) number hits.now result }
{
    let mut own = Links::unlinked(number);
    // Counts those that pass, which alone get a place.
    let mut count = 0;
    for hit in hits {
        if let Ok(elder) = index.element(hit.number) {
            if checker.check(&elder, e) {
                own.elders[count] = *hit;
                count += 1;
            }
        }
    }
    own.count = count as u8;
    own
}

// A record without edges for each sample that stands. How many there are.
fn fill_in<I: Index>(index: &I, last: u16, links: &mut [Links]) -> usize
    requires { ((I.Index.meaning index.now).last ≡ last) × ((I.Index.meaning index.now).capacity ≤ length links.old) }
    ensures { Filled (I.Index.meaning index.now) result links.new }
{
    let mut used = 0;
    // Not `1..=last`, whose end is one more than the last number can be.
    for before in 0..last {
        if let Ok(_) = index.element(before + 1) {
            links[used] = Links::unlinked(before + 1);
            used += 1;
        }
    }
    used
}

impl<'a, I: Index + Drop> Roadmap<'a, I> {
    ghost use Rattle.roadmap.specs.Roadmaps.{road_of, PlaceTold, Made};

    // A roadmap over an index, with edge records that are lent: at least as many as the index has places.
    // Samples that stand already have no edges.
    pub fn new(index: I, k: u32, links: &'a mut [Links]) -> Result<Roadmap<'a, I>, Unmade>
        ensures { Made I.Index.meaning index k (length links.old) result }
    {
        if !(1..=8).contains(&k) {
            return Err(Unmade::Setting(k));
        }
        let (capacity, _, last) = index.tally();
        if links.len() < capacity {
            return Err(Unmade::TooFewRecords(capacity));
        }
        let used = fill_in(&index, last, links);
        Ok(Roadmap {
            index,
            k: k as usize,
            links,
            used,
        })
    }

    // Files e, with an edge to each of the k nearest whose pair with e the checker passes. Returns its number
    // and how many edges it got. Refused, it puts nothing to the checker.
    pub fn add<C: Checker<I::Element>>(
        &mut self,
        e: I::Element,
        checker: &C,
    ) -> Result<(u16, u8), Refusal>
        ensures answer { told result ≡ grow_outcome I.Element.Metric.dist (C.Checker.passes checker.now) (road_of I.Index.meaning self.old) e }
        ensures leaves { road_of I.Index.meaning self.new ≡ grow_leaves I.Element.Metric.dist (C.Checker.passes checker.now) (road_of I.Index.meaning self.old) e }
    {
        let (capacity, standing, last) = self.index.tally();
        room(capacity, standing, last)?;
        // An array and how many of it are found, as nothing here may allocate.
        let mut hits = [Hit {
            number: 0,
            distance: 0,
        }; 8];
        let found = nearest(&self.index, &e, self.k, &mut hits);
        let own = link(&self.index, last + 1, &e, checker, &hits[0..found]);
        // Written first, behind the records in use, which still fit the index.
        self.links[self.used] = own;
        let number = file(&mut self.index, e);
        self.used += 1;
        Ok((number, own.count))
    }

    // Takes the sample of this number out, with its edges. No new neighbours are sought.
    pub fn drop(&mut self, number: u16) -> Result<(), Refusal>
        ensures answer { told result ≡ drop_outcome (road_of I.Index.meaning self.old).index number }
        ensures leaves { road_of I.Index.meaning self.new ≡ shrink_leaves (road_of I.Index.meaning self.old) number }
    {
        let at = self.place_of(number)?;
        close_up(self.links, at, self.used);
        self.used -= 1;
        self.index.drop(number)
    }

    // The edge records of the samples that stand.
    fn records(&self) -> Records<'_>
        ensures { result.all.now ≡ take self.now.used self.now.links.now }
    {
        Records::new(&self.links[0..self.used])
    }

    // The place of the record of this number.
    fn place_of(&self, number: u16) -> Result<usize, Refusal>
        ensures { PlaceTold I.Index.meaning self.now number result }
    {
        find(self.records().all, number).ok_or(Refusal::NotStanding(number))
    }

    // The element of the sample of this number.
    pub fn element(&self, number: u16) -> Result<I::Element, Refusal>
        ensures { told result ≡ element_outcome (road_of I.Index.meaning self.now).index number }
    {
        self.index.element(number)
    }

    // The capacity, how many samples stand, and the last number given.
    pub fn tally(&self) -> (usize, usize, u16)
        ensures { result ≡ tally_of (road_of I.Index.meaning self.now).index }
    {
        self.index.tally()
    }

    // Writes the k hits nearest to the query, or as many as stand, and returns how many.
    pub fn near(&self, q: &I::Element, k: usize, list: &mut [Hit]) -> Result<usize, Refusal>
        ensures answer { told result ≡ near_outcome (road_of I.Index.meaning self.now).index k list.old }
        ensures writes { list.new ≡ near_list I.Element.Metric.dist (road_of I.Index.meaning self.now).index q.now k list.old }
        ensures ranked { Ranked I.Element.Metric.dist q.now (road_of I.Index.meaning self.now).index.standing (hits I.Element.Metric.dist q.now (road_of I.Index.meaning self.now).index.standing) }
    {
        self.index.near(q, k, list)
    }

    // Returns how many samples are at most `radius` away, and writes as many of these hits as the list holds.
    pub fn within(&self, q: &I::Element, radius: u32, list: &mut [Hit]) -> usize
        ensures answer { result ≡ within_count I.Element.Metric.dist (road_of I.Index.meaning self.now).index q.now radius }
        ensures writes { list.new ≡ within_list I.Element.Metric.dist (road_of I.Index.meaning self.now).index q.now radius list.old }
        ensures ranked { Ranked I.Element.Metric.dist q.now (road_of I.Index.meaning self.now).index.standing (hits I.Element.Metric.dist q.now (road_of I.Index.meaning self.now).index.standing) }
    {
        self.index.within(q, radius, list)
    }

    // The smallest number that a chain of edges from this sample reaches, itself included.
    pub fn island(&self, number: u16) -> Result<u16, Refusal>
        ensures { IslandTold (road_of I.Index.meaning self.now) number (told result) }
    {
        let at = self.place_of(number)?;
        Ok(island(&self.records(), at))
    }

    // Writes the numbers of the shortest chain of edges from a to b, of those the one of fewest samples, of those
    // the one with the smaller number at the first place where they differ. Returns its length and count.
    pub fn route(&self, a: u16, b: u16, list: &mut [u16]) -> Result<(u32, u16), Refusal>
        ensures { RouteTold (road_of I.Index.meaning self.now) a b list.old (told result) list.new }
    {
        let start = self.place_of(a)?;
        let goal = self.place_of(b)?;
        route(&self.records(), start, goal, list)
    }
}
