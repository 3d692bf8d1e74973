// Arms as they are written.
ghost use Rattle.std.specs.Prelude.{◌≡◌, refl};
ghost use Rattle.level_theory.specs.Levels.{arms};
ghost use Rattle.written.specs.Arms.{arm_numbers, arm_of, arm_faithful, wall_numbers, wall_of, wall_faithful};

use crate::numbers::take_numbers;
use crate::written::Written;
use arm::Arm;
use std::array;
use walls::{Arc, Wall};
use words::{Misplaced, Words};

// The arcs of a wall, from its numbers: start and extent by joint.
fn arcs(numbers: [u16; 12]) -> Wall
    ensures { wall_numbers result ≡ numbers }
{
    Wall {
        arcs: array::from_fn(|i| Arc {
            start: numbers[2 * i],
            extent: numbers[2 * i + 1],
        }),
    }
}

impl Written for Arm {
    type Wall = Wall;

    ghost kind = { arms };

    ghost listed = { arm_numbers };

    ghost made = { arm_of };

    ghost faithful = { arm_faithful };

    ghost bounds = { wall_numbers };

    ghost built = { wall_of };

    ghost steady = { wall_faithful };

    ghost COUNT = { 6 };

    const COUNT: usize = 6;

    ghost LARGEST = { 4095 };

    const LARGEST: u16 = 4095;

    ghost counted = { refl };

    ghost limited = { refl };

    fn from_words(words: &mut Words) -> Result<Self, Misplaced> {
        let angles = take_numbers::<{ Self::COUNT }>(words, Self::LARGEST)?;
        Ok(Arm { angles })
    }

    fn wall_from_words(words: &mut Words) -> Result<Wall, Misplaced> {
        let numbers = take_numbers::<12>(words, Self::LARGEST)?;
        Ok(arcs(numbers))
    }

    fn blank_wall() -> Wall {
        Wall {
            arcs: [Arc {
                start: 0,
                extent: 0,
            }; 6],
        }
    }
}
