// Elements and walls that look random and are the same on every run.
use arm::Arm;
use card::Card;
use card_checker::CardWall;
use rolls::Rolls;
use walls::{Arc, Wall};

// Angles and extents at the edges of the rules.
const EDGES: [u16; 16] = [
    0, 1, 2, 10, 2047, 2048, 2049, 4090, 4094, 4095, 4096, 4097, 6144, 8191, 40960, 65535,
];

// What a joint is moved by in a short motion: nothing or a little, up and down.
const NUDGES: [u16; 8] = [0, 1, 65535, 0, 2, 65533, 17, 65496];

// And in a long one: half a turn or next to it.
const HALVES: [u16; 4] = [2047, 2048, 2049, 63488];

#[derive(Drop)]
pub struct Cases {
    rolls: Rolls,
}

impl Cases {
    pub fn new(seed: u32) -> Cases {
        Cases {
            rolls: Rolls::new(seed),
        }
    }

    // One of the edges, or any number.
    fn number(&mut self) -> u16 {
        let n = self.rolls.next();
        if n % 2 == 0 {
            EDGES[(n / 2 % 16) as usize]
        } else {
            (self.rolls.next() % 65536) as u16
        }
    }

    pub fn arc(&mut self) -> Arc {
        if self.rolls.next() % 2 == 0 {
            return Arc {
                start: 0,
                extent: 4095,
            };
        }
        Arc {
            start: self.number(),
            extent: self.number(),
        }
    }

    pub fn pose(&mut self) -> Arm {
        Arm {
            angles: [
                self.number(),
                self.number(),
                self.number(),
                self.number(),
                self.number(),
                self.number(),
            ],
        }
    }

    // Where a short motion takes an angle.
    fn nudged(&mut self, angle: u16) -> u16 {
        angle.wrapping_add(NUDGES[(self.rolls.next() % 8) as usize])
    }

    pub fn near(&mut self, pose: &Arm) -> Arm {
        let from = pose.angles;
        Arm {
            angles: [
                self.nudged(from[0]),
                self.nudged(from[1]),
                self.nudged(from[2]),
                self.nudged(from[3]),
                self.nudged(from[4]),
                self.nudged(from[5]),
            ],
        }
    }

    // Where a long one does: one joint about half a turn on, two any way, and the others a little.
    pub fn far(&mut self, pose: &Arm) -> Arm {
        let from = pose.angles;
        Arm {
            angles: [
                from[0].wrapping_add(HALVES[(self.rolls.next() % 4) as usize]),
                self.number(),
                self.nudged(from[2]),
                self.number(),
                self.nudged(from[4]),
                self.nudged(from[5]),
            ],
        }
    }

    // A narrow arc that has the angle in it.
    fn round(&mut self, angle: u16) -> Arc {
        let back = (self.rolls.next() % 4) as u16;
        Arc {
            start: angle.wrapping_sub(back),
            extent: back + (self.rolls.next() % 3) as u16,
        }
    }

    // A narrow wall that has the pose in it.
    pub fn wall_round(&mut self, pose: &Arm) -> Wall {
        let at = pose.angles;
        Wall {
            arcs: [
                self.round(at[0]),
                self.round(at[1]),
                self.round(at[2]),
                self.round(at[3]),
                self.round(at[4]),
                self.round(at[5]),
            ],
        }
    }

    // A number below this one; 0 below 0.
    pub fn below(&mut self, end: u16) -> u16 {
        (self.rolls.next() % u32::from(end.max(1))) as u16
    }

    pub fn wall(&mut self) -> Wall {
        Wall {
            arcs: [
                self.arc(),
                self.arc(),
                self.arc(),
                self.arc(),
                self.arc(),
                self.arc(),
            ],
        }
    }

    // A slot's value: few of them, so that slots agree often.
    fn slot(&mut self) -> u8 {
        if self.rolls.next() % 4 == 0 {
            255
        } else {
            (self.rolls.next() % 2) as u8
        }
    }

    fn slots(&mut self) -> [u8; 8] {
        [
            self.slot(),
            self.slot(),
            self.slot(),
            self.slot(),
            self.slot(),
            self.slot(),
            self.slot(),
            self.slot(),
        ]
    }

    pub fn card(&mut self) -> Card {
        Card {
            slots: self.slots(),
        }
    }

    pub fn card_wall(&mut self) -> CardWall {
        CardWall {
            slots: self.slots(),
        }
    }
}
