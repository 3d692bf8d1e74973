// Reading a line word by word.
ghost use Rattle.std.specs.Prelude.{◌≡◌, ℕ, ◌+◌, ◌≤◌, List, [], ◌∷◌, length, IfOk};
ghost use Rattle.level_theory.specs.Words.{words_of, the_word, a_number};
ghost use Rattle.words.specs.Tokens.{shown};
ghost use Rattle.words.specs.Cursors.{words_left, first_word, words_after, place_after, part, shown_part, end_of};

use crate::cursor::{Misplaced, Words};
use crate::cutting::cut;
use crate::digits::value_of;
use crate::token::Token;

impl<'a> Words<'a> {
    // All words of a line. That it is short is a fact of the slice, which goes from the whole text down to its parts: a
    // type round it would be taken off again for each call of std's.
    pub fn new(line: &'a [u8]) -> Words<'a>
        requires { length line.now ≤ 65536 }
        ensures left { words_left result ≡ words_of line.now }
        ensures place { result.place ≡ 1 }
    {
        Words {
            rest: Some(line),
            place: 1,
        }
    }

    // Takes the next word.
    pub fn next(&mut self) -> Token<'a>
        ensures token { shown result ≡ first_word (words_left self.old) self.old.place }
        ensures left { words_left self.new ≡ words_after (words_left self.old) }
        ensures place { self.new.place ≡ place_after (words_left self.old) self.old.place }
    {
        let place = self.place;
        let Some(rest) = self.rest else {
            return Token::Wrong(place);
        };
        match cut(rest, b' ') {
            Some((word, behind)) => {
                *self = Words {
                    rest: Some(behind),
                    place: place + 1,
                };
                Token::of(word, place)
            }
            None => {
                *self = Words {
                    rest: None,
                    place: place + 1,
                };
                Token::of(rest, place)
            }
        }
    }

    // The next word, which is not taken.
    pub fn peek(&self) -> Token<'a>
        ensures { shown result ≡ first_word (words_left self.now) self.now.place }
    {
        let mut ahead = *self;
        ahead.next()
    }

    // Takes the next word, which has to be a number of at most so much.
    pub fn number(&mut self, limit: u32) -> Result<u32, Misplaced>
        ensures taken { shown_part (λ n. n ∷ []) result self.new ≡ part (a_number limit ∷ []) (words_left self.old) self.old.place }
        ensures most { IfOk result (λ n. n ≤ limit) }
    {
        let word = self.next();
        let misplaced = Misplaced(word.place());
        let digits = word.digits().ok_or(misplaced)?;
        value_of(digits, limit).ok_or(misplaced)
    }

    // No word may be left.
    pub fn end(&self) -> Result<(), Misplaced>
        ensures { result ≡ end_of (words_left self.now) self.now.place }
    {
        match self.rest {
            Some(_) => Err(Misplaced(self.place)),
            None => Ok(()),
        }
    }
}
