// The line that answers a call, written into an output.
ghost use Rattle.std.specs.Prelude.{◌≡◌, ◌≤◌, length, MatchOption};
ghost use Rattle.history.specs.Turns.{lent, reply};
ghost use Rattle.printing.specs.Outputs.{put_outcome, put_leaves};
ghost use Rattle.answers.specs.AnswerLines.{reply_word, dropped_by, reply_numbers, answer_line};

use crate::numbers::{push_hits, push_list};
use arrayvec::ArrayVec;
use history::{Answer, Call};
use hits::Hit;
use index::refusal::Refusal;
use printing::Output;

// The line's first word.
fn word_of<E>(answer: &Result<Answer<E>, Refusal>) -> &'static [u8]
    ensures word { result.now ≡ reply_word (reply answer.now) }
    ensures short { length result.now ≤ 128 }
{
    match answer {
        Ok(Answer::Added(_, _)) => b"a",
        Ok(Answer::Dropped) => b"d",
        Ok(Answer::Element(_) | Answer::Tally(_, _, _)) => b"",
        Ok(Answer::Near(_)) => b"n",
        Ok(Answer::Within(_)) => b"w",
        Ok(Answer::Island(_)) => b"i",
        Ok(Answer::Route(_, _)) => b"r",
        Err(_) => b"refused",
    }
}

// The numbers behind it, of the lists as the call left them, each a parameter as at `history::ask`. The longest line is a
// route's: its length, its count and 64 numbers.
fn numbers_of<E, C>(
    call: &Call<E, C>,
    answer: &Result<Answer<E>, Refusal>,
    hits: &[Hit],
    list: &[u16],
) -> ArrayVec<usize, 66>
    requires { (length hits.now ≤ 16) × (length list.now ≤ 64) }
    ensures { result.items ≡ reply_numbers call.now (reply answer.now) (lent hits.now list.now) }
{
    let mut numbers = ArrayVec::new();
    match answer {
        Ok(Answer::Added(number, edges)) => {
            numbers.push(usize::from(*number));
            numbers.push(usize::from(*edges));
        }
        Ok(Answer::Dropped) => {
            if let Call::Drop(number) = call {
                numbers.push(usize::from(*number));
            }
        }
        Ok(Answer::Element(_) | Answer::Tally(_, _, _)) => {}
        Ok(Answer::Near(count) | Answer::Within(count)) => {
            numbers.push(*count);
            push_hits(&mut numbers, hits, *count);
        }
        Ok(Answer::Island(number)) => numbers.push(usize::from(*number)),
        Ok(Answer::Route(length, count)) => {
            numbers.push(*length as usize);
            numbers.push(usize::from(*count));
            push_list(&mut numbers, list, usize::from(*count));
        }
        Err(refusal) => numbers.push(usize::from(refusal.number())),
    }
    numbers
}

// Writes the line that answers a call, and returns where it ends. The lists are those that the call was lent, as
// it left them: how long they are is a fact of what the caller lends. A line that does not fit is not begun.
pub fn put_answer<E, C>(
    out: &mut Output,
    call: &Call<E, C>,
    answer: &Result<Answer<E>, Refusal>,
    hits: &[Hit],
    list: &[u16],
) -> Option<usize>
    requires { (length hits.now ≤ 16) × (length list.now ≤ 64) }
    ensures same_reference { out.new.bytes.ghost_name ≡ out.old.bytes.ghost_name }
    ensures answer { result ≡ put_outcome (length out.old.bytes.now) out.old.len (answer_line call.now (reply answer.now) (lent hits.now list.now)) }
    ensures len { MatchOption result (out.new.len ≡ out.old.len) (λ end. out.new.len ≡ end) }
    ensures leaves { out.new.bytes.now ≡ put_leaves out.old.bytes.now out.old.len (answer_line call.now (reply answer.now) (lent hits.now list.now)) }
{
    let numbers = numbers_of(call, answer, hits, list);
    out.put_line(word_of(answer), numbers.as_slice())
}
