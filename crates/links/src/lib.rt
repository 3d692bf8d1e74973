// The edge records of a roadmap: one for each standing sample, by rising number.
#![tactic(auto)]

ghost use Rattle.std.specs.Prelude.{◌≡◌, ◌*◌, ◌<◌, ◌≤◌, map, length, take, drop, replicate};
ghost use Rattle.std.specs.List.{AllByRecursion};
ghost use Rattle.chains.specs.Edges.{Rises};
ghost use Rattle.links.specs.Records.{numbers, number_at, held, Good, Good-prop, Resolved, OneMore, Found};

use chains::Edge;
use hits::Hit;

// The elders that a sample has edges to, each with its distance: the first `count` of them count. An edge
// counts only while both its ends stand. A plain record with its elders by value, since it is copied out of
// a row, changed and written back.
#[derive(Clone, Copy, Debug, PartialEq)]
pub struct Links {
    pub number: u16,
    pub count: u8,
    pub elders: [Hit; 8],
}

impl Links {
    // The record of a sample without edges.
    pub fn unlinked(number: u16) -> Links
        ensures { result ≡ record { number = number; count = 0; elders = replicate 8 (record { number = 0; distance = 0 }) } }
    {
        Links {
            number,
            count: 0,
            elders: [Hit {
                number: 0,
                distance: 0,
            }; 8],
        }
    }
}

// The place of the record of this number.
pub fn find(links: &[Links], number: u16) -> Option<usize>
    requires { Rises 0 (numbers links.now) }
    ensures { Found number links.now result }
{
    links
        .binary_search_by_key(&number, |record| record.number)
        .ok()
}

// The records of a roadmap as they are lent: by rising number, each sound, at most 1,024.
#[derive(Clone, Copy)]
pub struct Records<'a> {
    pub all: &'a [Links],
    pub ghost good: { Good all.now } by { Good-prop all.now },
}

impl<'a> Records<'a> {
    // Lent records that are known to be good.
    pub fn new(all: &'a [Links]) -> Records<'a>
        requires { Good all.now }
        ensures { result.all.now ≡ all.now }
    {
        Records { all }
    }

    // The place of an elder of the record at `at`. Numbers rise by one at least from place to place: an elder whose number
    // is less by some gap is no farther before than that, and just there where no sample between has been dropped.
    fn elder_place(&self, at: usize, number: u16) -> Option<usize>
        requires at { at < length self.now.all.now }
        requires elder { number < number_at self.now.all.now at }
        ensures { Found number self.now.all.now result }
    {
        let gap = (self.all[at].number - number) as usize;
        let first = at.saturating_sub(gap);
        if first < at && self.all[first].number == number {
            return Some(first);
        }
        Some(first + find(&self.all[first..at], number)?)
    }

    // Writes the standing edges of one record behind the first `made`, by place. How many there are then.
    fn resolve_one(&self, at: usize, edges: &mut [Edge], made: usize) -> usize
        requires inside { (at < length self.now.all.now) × (made ≤ held (take at self.now.all.now)) }
        requires room { held self.now.all.now ≤ length edges.old }
        ensures low { made ≤ result }
        ensures made { OneMore self.now.all.now at edges.old made edges.new result }
        ensures rest { drop result edges.new ≡ drop result edges.old }
    {
        let record = &self.all[at];
        // Counted as they are written: an elder that does not stand has no edge.
        let mut all = made;
        for elder in &record.elders[..record.count as usize] {
            if let Some(place) = self.elder_place(at, elder.number) {
                edges[all] = Edge {
                    elder: place as u16,
                    younger: at as u16,
                    length: elder.distance,
                };
                all += 1;
            }
        }
        all
    }

    // How many elders the records hold together: at least as many as there are standing edges.
    pub fn held(&self) -> usize
        ensures held { result ≡ held self.now.all.now }
        ensures few { result ≤ 8 * length self.now.all.now }
    {
        let mut all = 0;
        for record in self.all {
            all += record.count as usize;
        }
        all
    }

    // Writes the standing edges of all records, by place. How many they are.
    pub fn resolve(&self, edges: &mut [Edge]) -> usize
        requires { held self.now.all.now ≤ length edges.old }
        ensures few { result ≤ held self.now.all.now }
        ensures resolved { Resolved self.now.all.now (length self.now.all.now) edges.new result }
        ensures rest { drop result edges.new ≡ drop result edges.old }
    {
        let mut made = 0;
        // By places, which are what the edges are written by.
        for at in 0..self.all.len() {
            made = self.resolve_one(at, edges, made);
        }
        made
    }
}

// Turns places into the numbers of the records there.
pub fn rename(links: &[Links], list: &mut [u16])
    requires { AllByRecursion (λ at. at < length links.now) list.old }
    ensures { list.new ≡ map (number_at links.now) list.old }
{
    for place in list.iter_mut() {
        *place = links[*place as usize].number;
    }
}
