// A plain index: a map of samples, of which every query measures and sorts all.
// This is of an index of cards, and the model of `roadmap_tests` of a roadmap of spots with its edges: so there are two.
use card::Card;
use hits::Hit;
use index::refusal::Refusal;
use metric::Metric;
use std::alloc::{AllocError, Global};
use std::collections::BTreeMap;

#[derive(Drop)]
pub struct Model {
    heap: Global,
    capacity: usize,
    last: u16,
    standing: BTreeMap<u16, Card>,
}

impl Model {
    pub fn new(heap: Global, capacity: usize) -> Model {
        Model {
            heap,
            capacity,
            last: 0,
            standing: BTreeMap::new(heap),
        }
    }

    pub fn add(&mut self, e: Card) -> Result<Result<u16, Refusal>, AllocError> {
        if self.standing.len() >= self.capacity {
            return Ok(Err(Refusal::Full));
        }
        let Some(number) = self.last.checked_add(1) else {
            return Ok(Err(Refusal::NumbersUsedUp));
        };
        self.standing.insert(number, e)?;
        self.last = number;
        Ok(Ok(number))
    }

    pub fn drop(&mut self, number: u16) -> Result<(), Refusal> {
        self.standing
            .remove(&number)
            .map(|_| ())
            .ok_or(Refusal::NotStanding(number))
    }

    pub fn element(&self, number: u16) -> Result<Card, Refusal> {
        self.standing
            .get(&number)
            .copied()
            .ok_or(Refusal::NotStanding(number))
    }

    pub fn tally(&self) -> (usize, usize, u16) {
        (self.capacity, self.standing.len(), self.last)
    }

    // The distances and numbers of all samples at most `radius` away, in order.
    pub fn within(&self, q: &Card, radius: u32) -> Result<Vec<(u32, u16)>, AllocError> {
        let mut all = Vec::new(self.heap);
        for (number, e) in self.standing.iter() {
            let distance = q.distance(e);
            if distance <= radius {
                all.push((distance, *number))?;
            }
        }
        all.sort()?;
        Ok(all)
    }
}
