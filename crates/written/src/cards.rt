// Cards as they are written.
ghost use Rattle.std.specs.Prelude.{◌≡◌, ℕ, ◌<◌, ◌≤◌, slice_index, refl};
ghost use Rattle.level_theory.specs.Levels.{cards};
ghost use Rattle.written.specs.Cards.{card_numbers, card_of, card_faithful, wall_numbers, wall_of, wall_faithful};

use crate::numbers::take_numbers;
use crate::written::Written;
use card::Card;
use card_checker::CardWall;
use std::array;
use words::{Misplaced, Words};

// The numbers as bytes.
fn bytes(numbers: [u16; 8]) -> [u8; 8]
    requires { (k : ℕ) → k < 8 → slice_index numbers k ≤ 255 }
    ensures { result ≡ numbers }
{
    array::from_fn(|i| numbers[i] as u8)
}

impl Written for Card {
    type Wall = CardWall;

    ghost kind = { cards };

    ghost listed = { card_numbers };

    ghost made = { card_of };

    ghost faithful = { card_faithful };

    ghost bounds = { wall_numbers };

    ghost built = { wall_of };

    ghost steady = { wall_faithful };

    ghost COUNT = { 8 };

    const COUNT: usize = 8;

    ghost LARGEST = { 255 };

    const LARGEST: u16 = 255;

    ghost counted = { refl };

    ghost limited = { refl };

    fn from_words(words: &mut Words) -> Result<Self, Misplaced> {
        let numbers = take_numbers::<{ Self::COUNT }>(words, Self::LARGEST)?;
        Ok(Card {
            slots: bytes(numbers),
        })
    }

    fn wall_from_words(words: &mut Words) -> Result<CardWall, Misplaced> {
        let numbers = take_numbers::<8>(words, Self::LARGEST)?;
        Ok(CardWall {
            slots: bytes(numbers),
        })
    }

    fn blank_wall() -> CardWall {
        CardWall { slots: [0; 8] }
    }
}
