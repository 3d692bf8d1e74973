// A kind of element that can be read from a line.
ghost use Rattle.std.specs.Prelude.{◌≡◌, ℕ, List, replicate};
ghost use Rattle.level_theory.specs.Levels.{Kind, form_of};
ghost use Rattle.level_theory.specs.Reading.{element_wants};
ghost use Rattle.words.specs.Cursors.{words_left, part, shown_part};
ghost use Rattle.written.specs.Wants.{wall_wants};

use metric::Metric;
use words::{Misplaced, Words};

// An element is written as its numbers, and `made` takes them back to it. A wall is written as the
// numbers of its bounds, and `built` takes those back.
pub trait Written: Metric {
    type Wall: Copy;

    ghost kind: { Kind };

    ghost listed: { Self → List ℕ };

    ghost made: { List ℕ → Self };

    ghost faithful: { (e : Self) → made (listed e) ≡ e };

    ghost bounds: { Self.Wall → List ℕ };

    ghost built: { List ℕ → Self.Wall };

    ghost steady: { (w : Self.Wall) → built (bounds w) ≡ w };

    // How many numbers an element has.
    ghost COUNT: { ℕ };

    const COUNT: usize;

    // The largest that a number of an element or wall may be.
    ghost LARGEST: { ℕ };

    const LARGEST: u16;

    fn number_count() -> usize
        ensures { result ≡ (form_of kind).numbers }
    {
        Self::COUNT
    }

    fn number_limit() -> u16
        ensures { result ≡ (form_of kind).largest }
    {
        Self::LARGEST
    }

    // Takes the words of an element.
    fn from_words(words: &mut Words) -> Result<Self, Misplaced>
        ensures { shown_part listed result words.new ≡ part (element_wants (form_of kind)) (words_left words.old) words.old.place };

    // Takes the words of a wall.
    fn wall_from_words(words: &mut Words) -> Result<Self::Wall, Misplaced>
        ensures { shown_part bounds result words.new ≡ part (wall_wants (form_of kind)) (words_left words.old) words.old.place };

    // A wall to fill a place with that has none yet: all its numbers are 0. `Default` makes one too, and promises nothing of a
    // wall's numbers.
    fn blank_wall() -> Self::Wall
        ensures { bounds result ≡ replicate (form_of kind).wall_numbers 0 };

    // The laws of the two constants.
    ghost counted: { COUNT ≡ (form_of kind).numbers };

    ghost limited: { LARGEST ≡ (form_of kind).largest };
}
