// The first line of a section, and the lines of walls.
ghost use Rattle.std.specs.Prelude.{◌≡◌, ◌<◌, ◌≤◌, true, [], ◌∷◌, length, IfOk};
ghost use Rattle.level_theory.specs.Words.{letter, all_bytes, take_words};
ghost use Rattle.level_theory.specs.Levels.{form_of};
ghost use Rattle.level_theory.specs.Reading.{count_wants};
ghost use Rattle.words.specs.Cursors.{words_left, shown_taken};
ghost use Rattle.written.specs.Wants.{wall_wants};

use words::{Misplaced, Words};
use written::Written;

// The section's name, and how many lines it has.
pub fn count_line(words: &mut Words, name: &[u8], most: u32) -> Result<u32, Misplaced>
    requires some { 0 < length name.now }
    requires letters { all_bytes letter name.now ≡ true }
    ensures taken { shown_taken (λ n. n ∷ []) result ≡ take_words (count_wants name.now most) (words_left words.old) words.old.place }
    ensures most { IfOk result (λ n. n ≤ most) }
    ensures spent { IfOk result (λ n. words_left words.new ≡ []) }
{
    let word = words.next();
    let misplaced = Misplaced(word.place());
    let letters = word.letters().ok_or(misplaced)?;
    if letters != name {
        return Err(misplaced);
    }
    let count = words.number(most)?;
    words.end()?;
    Ok(count)
}

pub fn wall_line<K: Written>(words: &mut Words) -> Result<K::Wall, Misplaced>
    ensures taken { shown_taken K.bounds result ≡ take_words (wall_wants (form_of K.kind)) (words_left words.old) words.old.place }
    ensures spent { IfOk result (λ wall. words_left words.new ≡ []) }
{
    let wall = K::wall_from_words(words)?;
    words.end()?;
    Ok(wall)
}
