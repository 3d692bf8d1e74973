// Call lines.
ghost use Rattle.std.specs.Prelude.{◌≡◌, ℕ, ◌≤◌, [], ◌∷◌, IfOk};
ghost use Rattle.level_theory.specs.Words.{a_number};
ghost use Rattle.level_theory.specs.Levels.{form_of};
ghost use Rattle.level_theory.specs.Reading.{element_wants, read_call};
ghost use Rattle.words.specs.Tokens.{shown};
ghost use Rattle.words.specs.Cursors.{words_left, part, shown_part};
ghost use Rattle.lines.specs.declared.calls.CallLine.TheVariants.{Island};
ghost use Rattle.lines.specs.Calls.{sole, named, call_numbers, call_part, call_told, CallNamed};

use words::{Misplaced, Token, Words};
use written::Written;

// A call, as a line gives it.
#[derive(Clone, Copy, Debug, PartialEq)]
pub enum CallLine<E> {
    Add(E),
    Drop(u16),
    // The hit count and the query.
    Near(u32, E),
    // The radius and the query.
    Within(u32, E),
    Island(u16),
    // The start and the goal.
    Route(u16, u16),
}

// A vector of fixed room fills its places by it. Which call it is does not matter, and no derive makes one with a number.
impl<E> Default for CallLine<E> {
    ghost is_default = { λ call. call ≡ Island 0 };

    fn default() -> CallLine<E> {
        CallLine::Island(0)
    }
}

// The word's letter, if it is a single one.
fn sole_letter(word: Token) -> Option<char>
    ensures { result ≡ sole (shown word.entry) }
{
    match word {
        Token::Letters([letter], _) => Some(char::from(*letter)),
        _ => None,
    }
}

// Takes the number of a sample.
fn sample(words: &mut Words) -> Result<u16, Misplaced>
    ensures { shown_part (λ n. n ∷ []) result words.new ≡ part (a_number 65535 ∷ []) (words_left words.old) words.old.place }
{
    let number = words.number(65535)?;
    Ok(number as u16)
}

// Takes a hit count or radius, and an element.
fn query<K: Written>(words: &mut Words) -> Result<(u32, K), Misplaced>
    ensures { shown_part (λ q. q.0 ∷ K.listed q.1) result words.new ≡ part (a_number 1048576 ∷ element_wants (form_of K.kind)) (words_left words.old) words.old.place }
{
    let number = words.number(1_048_576)?;
    let element = K::from_words(words)?;
    Ok((number, element))
}

// Takes two numbers of samples.
fn ends(words: &mut Words) -> Result<(u16, u16), Misplaced>
    ensures { shown_part (λ e. e.0 ∷ (e.1 ∷ [])) result words.new ≡ part (a_number 65535 ∷ (a_number 65535 ∷ [])) (words_left words.old) words.old.place }
{
    let start = sample(words)?;
    let goal = sample(words)?;
    Ok((start, goal))
}

// The words behind the letter of a call. Another word than these letters is wrong, the line's first. The format has letters
// for calls, which here become a `CallLine`.
fn call_words<K: Written>(letter: Option<char>, words: &mut Words) -> Result<CallLine<K>, Misplaced>
    ensures taken { shown_part (call_numbers K.listed) result words.new ≡ call_part (form_of K.kind) (named letter) (words_left words.old) words.old.place }
    ensures called { CallNamed (named letter) result }
{
    match letter {
        Some('a') => {
            let element = K::from_words(words)?;
            Ok(CallLine::Add(element))
        }
        Some('d') => {
            let number = sample(words)?;
            Ok(CallLine::Drop(number))
        }
        Some('n') => {
            let (k, element) = query(words)?;
            Ok(CallLine::Near(k, element))
        }
        Some('w') => {
            let (radius, element) = query(words)?;
            Ok(CallLine::Within(radius, element))
        }
        Some('i') => {
            let number = sample(words)?;
            Ok(CallLine::Island(number))
        }
        Some('r') => {
            let (start, goal) = ends(words)?;
            Ok(CallLine::Route(start, goal))
        }
        _ => Err(Misplaced(1)),
    }
}

// The first letter says which call it is, and is the whole word.
pub fn call_line<K: Written>(words: &mut Words) -> Result<CallLine<K>, Misplaced>
    requires { words.old.place ≡ 1 }
    ensures told { (line : ℕ) → call_told line K.listed result ≡ read_call (form_of K.kind) line (words_left words.old) }
    ensures spent { IfOk result (λ call. words_left words.new ≡ []) }
{
    let letter = sole_letter(words.next());
    let call = call_words(letter, words)?;
    words.end()?;
    Ok(call)
}
