// A kind of element for tests: places on a line, so coarse that many distances are equal. Marked elements
// differ although they are at no distance. And a checker that counts how often it is asked.
ghost use Rattle.std.specs.Prelude.{◌≡◌};
ghost use Rattle.roadmap_tests.specs.Spots.{spot_distance, spot_lawful, suits, suits_both_ways};

use checker::Checker;
use metric::Metric;
use std::cell::Cell;

#[derive(Clone, Copy, Debug, PartialEq)]
pub struct Spot {
    pub place: u8,
    pub mark: u8,
}

// The marks do not count, and nothing is farther than 40.
impl Metric for Spot {
    ghost dist = { spot_distance };

    ghost GREATEST = { 40 };

    ghost laws = { spot_lawful };

    const GREATEST: u32 = 40;

    fn distance(&self, other: &Self) -> u32 {
        let apart = if self.place < other.place {
            other.place - self.place
        } else {
            self.place - other.place
        };
        u32::from(apart).min(40)
    }
}

// Passes three pairs of four, by their marks.
#[derive(Clone, Copy)]
pub struct Picky<'a> {
    pub salt: u8,
    pub asked: &'a Cell<u32>,
}

// Whether two elements suit each other under a salt.
pub fn suit(salt: u8, a: &Spot, b: &Spot) -> bool
    ensures { result ≡ suits salt a.now b.now }
{
    (u32::from(a.mark) + u32::from(b.mark) + u32::from(salt)) % 4 != 0
}

impl<'a> Checker<Spot> for Picky<'a> {
    ghost passes = { λ c e f. suits c.salt e f };

    ghost symmetric = { λ c e f. suits_both_ways c.salt e f };

    fn check(&self, a: &Spot, b: &Spot) -> bool {
        self.asked.set(self.asked.get().wrapping_add(1));
        suit(self.salt, a, b)
    }
}
