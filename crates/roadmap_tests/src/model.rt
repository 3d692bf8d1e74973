// A plain roadmap: a map of samples, sorted anew for every query, and a list of pairs. Islands are flooded, and
// of all chains to a goal the best is kept whole for every sample.
// This is of a roadmap of spots with its edges, and the model of `index_tests` of an index of cards: so there are two.
use crate::kind::{Spot, suit};
use hits::Hit;
use index::refusal::Refusal;
use metric::Metric;
use std::alloc::{AllocError, Global};
use std::collections::BTreeMap;

// The most samples of a chain, more than ever stand in the tests.
pub const MOST: usize = 16;

// Chains go by length, then by count, then by the first number that differs.
#[derive(Debug, Drop, PartialEq, Eq, PartialOrd, Ord)]
pub struct Chain {
    pub length: u32,
    pub count: u16,
    pub numbers: Vec<u16>,
}

#[derive(Drop)]
pub struct Model {
    heap: Global,
    capacity: usize,
    k: usize,
    last: u16,
    standing: BTreeMap<u16, Spot>,
    edges: Vec<(u16, u16)>,
}

// The chain of one sample.
fn alone(heap: Global, number: u16) -> Result<Chain, AllocError> {
    Ok(Chain {
        length: 0,
        count: 1,
        numbers: vec![in heap; number; 1]?,
    })
}

// The chain with one more sample in front.
fn prepend(heap: Global, number: u16, apart: u32, chain: &Chain) -> Result<Chain, AllocError> {
    let mut numbers = vec![in heap; number; 1]?;
    numbers.extend_from_slice(chain.numbers.as_slice())?;
    Ok(Chain {
        length: chain.length.saturating_add(apart),
        count: chain.count.saturating_add(1),
        numbers,
    })
}

// The other end of an edge.
fn across(edge: (u16, u16), number: u16) -> Option<u16> {
    if edge.0 == number {
        return Some(edge.1);
    }
    if edge.1 == number {
        return Some(edge.0);
    }
    None
}

// The better of two chains.
fn better(best: Option<Chain>, other: Chain) -> Chain {
    match best {
        Some(chain) => chain.min(other),
        None => other,
    }
}

impl Model {
    pub fn new(heap: Global, capacity: usize, k: usize) -> Model {
        Model {
            heap,
            capacity,
            k,
            last: 0,
            standing: BTreeMap::new(heap),
            edges: Vec::new(heap),
        }
    }

    pub fn tally(&self) -> (usize, usize, u16) {
        (self.capacity, self.standing.len(), self.last)
    }

    pub fn k(&self) -> usize {
        self.k
    }

    // The pairs that are joined, by number.
    pub fn edges(&self) -> &[(u16, u16)] {
        self.edges.as_slice()
    }

    pub fn element(&self, number: u16) -> Result<Spot, Refusal> {
        self.standing
            .get(&number)
            .copied()
            .ok_or(Refusal::NotStanding(number))
    }

    // All hits at most `radius` away, in order.
    pub fn within(&self, q: &Spot, radius: u32) -> Result<Vec<Hit>, AllocError> {
        let mut all = Vec::new(self.heap);
        for (number, spot) in self.standing.iter() {
            let distance = q.distance(spot);
            if distance <= radius {
                all.push((distance, *number))?;
            }
        }
        all.sort()?;
        let mut hits = Vec::new(self.heap);
        for (distance, number) in all.iter() {
            hits.push(Hit {
                number: *number,
                distance: *distance,
            })?;
        }
        Ok(hits)
    }

    // Files the element without edges. Returns its number.
    pub fn file(&mut self, e: Spot) -> Result<Result<u16, Refusal>, AllocError> {
        if self.standing.len() >= self.capacity {
            return Ok(Err(Refusal::Full));
        }
        let Some(number) = self.last.checked_add(1) else {
            return Ok(Err(Refusal::NumbersUsedUp));
        };
        self.standing.insert(number, e)?;
        self.last = number;
        Ok(Ok(number))
    }

    // Files the element, with an edge to each of the k nearest that it suits. Returns its number and how many
    // edges it got.
    pub fn add(&mut self, e: Spot, salt: u8) -> Result<Result<(u16, u8), Refusal>, AllocError> {
        let hits = self.within(&e, u32::MAX)?;
        let filed = self.file(e)?;
        let mut edges: u8 = 0;
        if let Ok(number) = filed {
            for hit in hits.iter().take(self.k) {
                if let Ok(elder) = self.element(hit.number) {
                    if suit(salt, &elder, &e) {
                        self.edges.push((hit.number, number))?;
                        edges = edges.saturating_add(1);
                    }
                }
            }
        }
        Ok(filed.map(|number| (number, edges)))
    }

    pub fn drop(&mut self, number: u16) -> Result<Result<(), Refusal>, AllocError> {
        if self.standing.remove(&number).is_none() {
            return Ok(Err(Refusal::NotStanding(number)));
        }
        let mut edges = Vec::new(self.heap);
        for edge in self.edges.iter() {
            if across(*edge, number).is_none() {
                edges.push(*edge)?;
            }
        }
        self.edges = edges;
        Ok(Ok(()))
    }

    // What is reached by one edge more.
    fn flooded(&self, reached: &mut Vec<u16>) -> Result<(), AllocError> {
        for (elder, younger) in self.edges.iter() {
            if reached.contains(elder) && !reached.contains(younger) {
                reached.push(*younger)?;
            }
            if reached.contains(younger) && !reached.contains(elder) {
                reached.push(*elder)?;
            }
        }
        Ok(())
    }

    pub fn island(&self, number: u16) -> Result<Result<u16, Refusal>, AllocError> {
        if let Err(refusal) = self.element(number) {
            return Ok(Err(refusal));
        }
        let mut reached = Vec::new(self.heap);
        reached.push(number)?;
        for _ in 0..MOST {
            self.flooded(&mut reached)?;
        }
        Ok(Ok(
            reached
                .iter()
                .fold(number, |least, other| least.min(*other)),
        ))
    }

    // The best chain from this sample to another one, by one edge more than those found.
    fn best_from(
        &self,
        own: u16,
        spot: &Spot,
        found: &BTreeMap<u16, Chain>,
    ) -> Result<Option<Chain>, AllocError> {
        let mut best = None;
        for edge in self.edges.iter() {
            if let Some(other) = across(*edge, own) {
                if let (Some(chain), Ok(there)) = (found.get(&other), self.element(other)) {
                    let longer = prepend(self.heap, own, spot.distance(&there), chain)?;
                    best = Some(better(best, longer));
                }
            }
        }
        Ok(best)
    }

    // The best chain from each sample to the goal, by one edge more.
    fn longer(
        &self,
        goal: u16,
        found: &BTreeMap<u16, Chain>,
    ) -> Result<BTreeMap<u16, Chain>, AllocError> {
        let mut next = BTreeMap::new(self.heap);
        for (own, spot) in self.standing.iter() {
            if *own == goal {
                next.insert(goal, alone(self.heap, goal)?)?;
            } else if let Some(chain) = self.best_from(*own, spot, found)? {
                next.insert(*own, chain)?;
            }
        }
        Ok(next)
    }

    // The chosen chain between two samples.
    pub fn route(&self, a: u16, b: u16) -> Result<Result<Chain, Refusal>, AllocError> {
        if let Err(refusal) = self.element(a).and(self.element(b)) {
            return Ok(Err(refusal));
        }
        let mut found = BTreeMap::new(self.heap);
        for _ in 0..MOST {
            found = self.longer(b, &found)?;
        }
        Ok(found.remove(&a).ok_or(Refusal::NotJoined))
    }

    // The chain with one more edge in front, if the edge is at its first sample and leads to one that is not in it.
    fn lengthened(&self, chain: &Chain, edge: (u16, u16)) -> Result<Option<Chain>, AllocError> {
        let Some(first) = chain.numbers.first().copied() else {
            return Ok(None);
        };
        let Some(own) = across(edge, first) else {
            return Ok(None);
        };
        if chain.numbers.contains(&own) {
            return Ok(None);
        }
        let (Ok(here), Ok(there)) = (self.element(own), self.element(first)) else {
            return Ok(None);
        };
        Ok(Some(prepend(self.heap, own, here.distance(&there), chain)?))
    }

    // Each chain that is one of these with one more edge in front, and comes to no sample twice.
    fn all_longer(&self, chains: &[Chain]) -> Result<Vec<Chain>, AllocError> {
        let mut all = Vec::new(self.heap);
        for chain in chains {
            for edge in self.edges.iter() {
                if let Some(longer) = self.lengthened(chain, *edge)? {
                    all.push(longer)?;
                }
            }
        }
        Ok(all)
    }

    // The best of all chains between two samples that come to no sample twice: another way to `route`, for few samples.
    pub fn best_of_all(&self, a: u16, b: u16) -> Result<Option<Chain>, AllocError> {
        let mut best = None;
        let mut chains = Vec::new(self.heap);
        if self.element(b).is_ok() {
            chains.push(alone(self.heap, b)?)?;
        }
        for _ in 0..self.standing.len() {
            let longer = self.all_longer(chains.as_slice())?;
            for chain in chains {
                if chain.numbers.first() == Some(&a) {
                    best = Some(better(best, chain));
                }
            }
            chains = longer;
        }
        Ok(best)
    }
}
