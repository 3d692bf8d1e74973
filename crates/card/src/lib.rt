// A tool card: eight slots, each a byte that names what is held there.
#![tactic(auto)]

ghost use Rattle.std.specs.Prelude.{◌≡◌, ◌≤◌};
ghost use Rattle.card.specs.Cards.{slot_cost, card_distance};
ghost use Rattle.card.specs.Lawful.{card_lawful};

use metric::Metric;

#[derive(Clone, Copy, Debug, PartialEq)]
pub struct Card {
    pub slots: [u8; 8],
}

// What a change from one value of a slot to another costs, where a full change costs `cost`.
fn change(from: u8, to: u8, cost: u32) -> u32
    ensures value { result ≡ slot_cost cost from to }
    ensures bound { result ≤ cost }
{
    if from == to { 0 } else { cost }
}

impl Metric for Card {
    ghost dist = { card_distance };

    ghost GREATEST = { 152 };

    ghost laws = { card_lawful };

    const GREATEST: u32 = 152;

    // Written out as the rule has it: a table of costs, zipped and summed, is no plainer.
    fn distance(&self, other: &Self) -> u32 {
        let a = self.slots;
        let b = other.slots;
        change(a[0], b[0], 40)
            + change(a[1], b[1], 40)
            + change(a[2], b[2], 20)
            + change(a[3], b[3], 20)
            + change(a[4], b[4], 10)
            + change(a[5], b[5], 10)
            + change(a[6], b[6], 6)
            + change(a[7], b[7], 6)
    }
}
