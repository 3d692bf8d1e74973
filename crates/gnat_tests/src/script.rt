// Calls in a row, made up as they go.
use card::Card;
use rolls::Rolls;

#[derive(Clone, Copy)]
pub enum Call {
    Add(Card),
    Drop(u16),
    Element(u16),
    Near(Card, usize),
    Within(Card, u32),
}

// What is called: any call at any time, or waves, in each of which so many samples are added, then so many
// of the oldest dropped, which are pivots before all others, and then questions asked.
#[derive(Clone, Copy)]
pub enum Style {
    Mixed,
    Waves { adds: u32, drops: u32 },
}

// A slot of a card has one of so many values. The oldest is the next number that a wave drops.
#[derive(Drop)]
pub struct Script {
    style: Style,
    values: u32,
    rolls: Rolls,
    oldest: u16,
}

impl Script {
    pub fn new(style: Style, values: u32, seed: u32) -> Script {
        Script {
            style,
            values,
            rolls: Rolls::new(seed),
            oldest: 1,
        }
    }

    fn card(&mut self) -> Card {
        let mut slots = [0u8; 8];
        for slot in slots.iter_mut() {
            *slot = (self.rolls.below(self.values) & 255) as u8;
        }
        Card { slots }
    }

    // A call that changes nothing.
    fn question(&mut self, number: u16) -> Call {
        let card = self.card();
        match self.rolls.below(4) {
            0 => Call::Element(number),
            1 => Call::Near(card, self.rolls.below(14) as usize),
            2 => Call::Within(card, u32::MAX),
            _ => Call::Within(card, self.rolls.below(160)),
        }
    }

    fn mixed(&mut self, last: u16) -> Call {
        let number = (self.rolls.below(u32::from(last) + 3) % 65536) as u16;
        match self.rolls.below(6) {
            0 | 1 => Call::Add(self.card()),
            2 => Call::Drop(number),
            _ => self.question(number),
        }
    }

    fn wave(&mut self, at: u32, adds: u32, drops: u32) -> Call {
        if at < adds {
            return Call::Add(self.card());
        }
        let oldest = self.oldest;
        if at.wrapping_sub(adds) < drops {
            self.oldest = oldest.wrapping_add(1);
            return Call::Drop(oldest);
        }
        self.question(oldest)
    }

    // The call of this turn, where `last` is the last number given.
    pub fn call(&mut self, turn: u32, last: u16) -> Call {
        match self.style {
            Style::Mixed => self.mixed(last),
            Style::Waves { adds, drops } => {
                let turns = adds.wrapping_add(drops).wrapping_add(40);
                let at = if turns == 0 { turn } else { turn % turns };
                self.wave(at, adds, drops)
            }
        }
    }
}
