// The calls of a level on a roadmap, each answered by a line in the output.
ghost use Rattle.std.specs.Prelude.{◌≡◌, ℕ, ◌≤◌, map, length, MatchOption};
ghost use Rattle.index.specs.Meaning.{fresh};
ghost use Rattle.roadmap.specs.Roadmaps.{road_of};
ghost use Rattle.history_theory.specs.History.{start};
ghost use Rattle.history.specs.Turns.{lent};
ghost use Rattle.play_theory.specs.Answering.{set_call, Answered};
ghost use Rattle.player.specs.Calls.{line_call, blank_lists, told_calls, calls_end, AnswersOne};

use answers::put_answer;
use checker::Checker;
use history::{Call, ask};
use hits::Hit;
use index::index::Index;
use lines::calls::CallLine;
use links::Links;
use metric::Metric;
use printing::Output;
use roadmap::Roadmap;

// The line that comes next exceeds the output: so many whole lines are written.
#[derive(Clone, Copy, Debug, PartialEq)]
pub struct OutputFull(pub usize);

// The call of a line, with 16 places for hits and 64 for a route. It comes of the line and the checker, so it is no `From`.
fn call_of<E: Copy, C: Copy>(line: &CallLine<E>, checker: &C) -> Call<E, C>
    ensures { result ≡ line_call line.now checker.now }
{
    match line {
        CallLine::Add(e) => Call::Add(*e, *checker),
        CallLine::Drop(number) => Call::Drop(*number),
        CallLine::Near(k, q) => Call::Near(*q, *k as usize, 16),
        CallLine::Within(radius, q) => Call::Within(*q, *radius, 16),
        CallLine::Island(number) => Call::Island(*number),
        CallLine::Route(a, b) => Call::Route(*a, *b, 64),
    }
}

// Makes one call and writes its line, and returns where it ends. How long the lists are is a fact of what the caller
// lends, and they are two parameters, as at `ask`.
fn answer_call<'a, I: Index + Drop, C: Checker<I::Element>>(
    road: &mut Roadmap<'a, I>,
    call: &Call<I::Element, C>,
    hits: &mut [Hit],
    numbers: &mut [u16],
    out: &mut Output,
) -> Option<usize>
    requires { (length hits.old ≤ 16) × (length numbers.old ≤ 64) }
    ensures same_reference { out.new.bytes.ghost_name ≡ out.old.bytes.ghost_name }
    ensures len { MatchOption result (out.new.len ≡ out.old.len) (λ end. out.new.len ≡ end) }
    ensures answers { AnswersOne I.Element.Metric.dist C.Checker.passes (road_of I.Index.meaning road.old) call.now (lent hits.old numbers.old) out.old.bytes.now out.old.len result (lent hits.new numbers.new) out.new.bytes.now (road_of I.Index.meaning road.new) }
{
    let answer = ask(road, call, hits, numbers);
    put_answer(out, call, &answer, hits, numbers)
}

// Makes the calls in order on a roadmap over a fresh index.
pub fn play_on<I: Index + Drop, C: Checker<I::Element> + Copy>(
    index: I,
    k: u32,
    checker: C,
    lines: &[CallLine<I::Element>],
    out: &mut [u8],
) -> Result<usize, OutputFull>
    requires fresh { I.Index.meaning index ≡ fresh 64 }
    requires neighbours { (1 ≤ k) × (k ≤ 8) }
    ensures { Answered I.Element.Metric.dist (start k 64) (map (λ line. set_call C.Checker.passes (line_call line checker)) lines.now) blank_lists 0 0 out.old (told_calls result) (calls_end result out.new) out.new }
{
    let mut links = [Links::unlinked(0); 64];
    let Ok(mut road) = Roadmap::new(index, k, &mut links) else {
        unreachable()
    };
    let mut hits = [Hit {
        number: 0,
        distance: 0,
    }; 16];
    let mut numbers = [0u16; 64];
    let mut output = Output::new(out);
    let mut end = 0;
    for (i, line) in lines.iter().enumerate() {
        let call = call_of(line, &checker);
        let answered = answer_call(&mut road, &call, &mut hits, &mut numbers, &mut output);
        end = answered.ok_or(OutputFull(i))?;
    }
    Ok(end)
}
