// A call and its answer in plain words.
use card::Card;
use history::{Answer, Call};
use index::refusal::Refusal;
use std::io;
use telling::tell_refusal;

fn tell_call<C>(rt: &HostRuntime, call: &Call<Card, C>) -> io::Result<()> {
    match call {
        Call::Add(e, _) => print!(rt; "add {e:?}: "),
        Call::Drop(number) => print!(rt; "drop {number}: "),
        Call::Element(number) => print!(rt; "element {number}: "),
        Call::Tally => print!(rt; "tally: "),
        Call::Near(q, k, places) => print!(rt; "the {k} nearest to {q:?}, {places} places: "),
        Call::Within(q, radius, places) => {
            print!(rt; "within {radius} of {q:?}, {places} places: ")
        }
        Call::Island(number) => print!(rt; "island of {number}: "),
        Call::Route(start, goal, places) => {
            print!(rt; "route from {start} to {goal}, {places} places: ")
        }
    }
}

fn tell_answer(rt: &HostRuntime, answer: &Result<Answer<Card>, Refusal>) -> io::Result<()> {
    match answer {
        Ok(Answer::Added(number, edges)) => println!(rt; "sample {number}, {edges} edges"),
        Ok(Answer::Dropped) => println!(rt; "taken out"),
        Ok(Answer::Element(e)) => println!(rt; "{e:?}"),
        Ok(Answer::Tally(capacity, standing, last)) => {
            println!(rt; "capacity {capacity}, {standing} standing, last number {last}")
        }
        Ok(Answer::Near(count) | Answer::Within(count)) => println!(rt; "{count} hits"),
        Ok(Answer::Island(number)) => println!(rt; "{number}"),
        Ok(Answer::Route(length, count)) => println!(rt; "{length} long, {count} samples"),
        Err(refusal) => tell_refusal(rt, *refusal),
    }
}

// Each call with its answer.
pub fn tell_all<C>(
    rt: &HostRuntime,
    calls: &[Call<Card, C>],
    answers: &[Result<Answer<Card>, Refusal>],
) -> io::Result<()> {
    for (call, answer) in calls.iter().zip(answers.iter()) {
        tell_call(rt, call)?;
        tell_answer(rt, answer)?;
    }
    Ok(())
}
