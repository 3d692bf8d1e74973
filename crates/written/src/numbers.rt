// Numbers in a row.
ghost use Rattle.std.specs.Prelude.{◌≡◌, ℕ, ◌<◌, ◌≤◌, IfOk, slice_index};
ghost use Rattle.level_theory.specs.Reading.{number_wants};
ghost use Rattle.words.specs.Cursors.{words_left, part, shown_part};

use words::{Misplaced, Words};

// Takes as many numbers as the array has places, each at most the largest.
pub(crate) fn take_numbers<const N: usize>(
    words: &mut Words,
    largest: u16,
) -> Result<[u16; N], Misplaced>
    ensures taken { shown_part (λ ns. ns) result words.new ≡ part (number_wants N largest) (words_left words.old) words.old.place }
    ensures most { IfOk result (λ ns. (k : ℕ) → k < N → slice_index ns k ≤ largest) }
{
    let mut numbers = [0; N];
    for number in &mut numbers {
        *number = words.number(u32::from(largest))? as u16;
    }
    Ok(numbers)
}
