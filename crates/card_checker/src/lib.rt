// Mix: the checker of cards. A wall asks for a value in some of the slots.
#![tactic(auto)]

ghost use Rattle.std.specs.Prelude.{◌≡◌};
ghost use Rattle.card_checker.specs.Passes.{free, clear, mix_passes};
ghost use Rattle.card_checker.specs.Lawful.{mix_symmetric};

use card::Card;
use checker::Checker;

// What the wall asks for in each slot. 255 stands for every value: a wall is written so, as eight bytes.
#[derive(Clone, Copy, Debug, Default, PartialEq)]
pub struct CardWall {
    pub slots: [u8; 8],
}

// Whether a slot asks for a value that neither card has.
fn is_free(asked: u8, first: u8, second: u8) -> bool
    ensures { result ≡ free asked first second }
{
    asked != 255 && asked != first && asked != second
}

impl CardWall {
    // Whether two cards are clear of the wall: it has a slot other than 255 that differs from both.
    pub fn is_clear(&self, a: &Card, b: &Card) -> bool
        ensures { result ≡ clear self.now a.now b.now }
    {
        self.slots
            .iter()
            .zip(a.slots.iter().zip(b.slots.iter()))
            .any(|(asked, (first, second))| is_free(*asked, *first, *second))
    }
}

// A pair passes if it is clear of each wall.
#[derive(Clone, Copy)]
pub struct MixChecker<'w> {
    pub walls: &'w [CardWall],
}

impl<'w> Checker<Card> for MixChecker<'w> {
    ghost passes = { λ c e f. mix_passes c.walls.now e f };

    ghost symmetric = { λ c. mix_symmetric c.walls.now };

    // A loop over the lent walls, whose invariant is what was seen so far.
    fn check(&self, a: &Card, b: &Card) -> bool {
        for wall in self.walls {
            if !wall.is_clear(a, b) {
                return false;
            }
        }
        true
    }
}
