// A word of a line as a token.
ghost use Rattle.std.specs.Prelude.{◌≡◌};
ghost use Rattle.words.specs.Tokens.{shown, word_of, place_of, letters_of, digits_of, shown_bytes};

// The letters or digits are the line's own bytes, with the word's place from 1. An empty word, or
// one of other bytes, is wrong, and so is one that is missing.
#[derive(Clone, Copy, Debug)]
pub enum Token<'a> {
    Letters(&'a [u8], usize),
    Digits(&'a [u8], usize),
    Wrong(usize),
}

impl<'a> Token<'a> {
    // The token of a word at its place.
    pub(crate) fn of(word: &'a [u8], place: usize) -> Token<'a>
        ensures { shown result ≡ word_of word.now place }
    {
        if word.is_empty() {
            Token::Wrong(place)
        } else if word.iter().all(|b| b.is_ascii_lowercase()) {
            Token::Letters(word, place)
        } else if word.iter().all(|b| b.is_ascii_digit()) {
            Token::Digits(word, place)
        } else {
            Token::Wrong(place)
        }
    }

    pub fn place(self) -> usize
        ensures { result ≡ place_of (shown self.entry) }
    {
        match self {
            Token::Letters(_, place) | Token::Digits(_, place) | Token::Wrong(place) => place,
        }
    }

    // The letters of a word of letters.
    pub fn letters(self) -> Option<&'a [u8]>
        ensures { shown_bytes result ≡ letters_of (shown self.entry) }
    {
        match self {
            Token::Letters(letters, _) => Some(letters),
            _ => None,
        }
    }

    // The digits of a word of digits.
    pub fn digits(self) -> Option<&'a [u8]>
        ensures { shown_bytes result ≡ digits_of (shown self.entry) }
    {
        match self {
            Token::Digits(digits, _) => Some(digits),
            _ => None,
        }
    }
}
