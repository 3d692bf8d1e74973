// Histories of calls, played on roadmaps.
#![tactic(auto)]

ghost use Rattle.std.specs.Prelude.{◌≡◌, ℕ, length, Ok, Err};
ghost use Rattle.index.specs.Meaning.{fresh};
ghost use Rattle.roadmap.specs.Roadmaps.{road_of};
ghost use Rattle.history.specs.Turns.{lent, Does, Ran};
ghost use Rattle.history.specs.Fitting.{hit_places, number_places, fits_call, fitting};
ghost use Rattle.history.specs.declared.Unplayed.TheVariants.{Unmade as UnmadeCase};
ghost use Rattle.history_theory.specs.History.{start};
ghost use Rattle.history.specs.Law.{AllAlike, Alone, Judged, JudgedFitting, Whole};

use checker::Checker;
use hits::Hit;
use index::index::Index;
use index::refusal::Refusal;
use links::Links;
use metric::Metric;
use roadmap::{Roadmap, Unmade};

// One call on a roadmap. A call that takes a list is lent the first `usize` places of the run's list, or all
// of them if there are fewer.
#[derive(Clone, Copy)]
pub enum Call<E, C> {
    Add(E, C),
    Drop(u16),
    Element(u16),
    Tally,
    Near(E, usize, usize),
    Within(E, u32, usize),
    Island(u16),
    Route(u16, u16, usize),
}

// What a call answers, if it is not refused.
#[derive(Clone, Copy, Debug, PartialEq)]
pub enum Answer<E> {
    Added(u16, u8),
    Dropped,
    Element(E),
    Tally(usize, usize, u16),
    Near(usize),
    Within(usize),
    Island(u16),
    Route(u32, u16),
}

// Why a history is not played.
#[derive(Clone, Copy, Debug, PartialEq)]
pub enum Unplayed {
    // A roadmap cannot be made.
    Unmade(Unmade),
    // The answers want another count of places: as many as there are calls.
    Answers(usize),
    // A call asks for more places than the list of hits has: as many as it asks for.
    Hits(usize),
    // A call asks for more places than the list of numbers has: as many as it asks for.
    Numbers(usize),
}

impl From<Unmade> for Unplayed {
    ghost from_gives = { λ e r. r ≡ UnmadeCase e };

    fn from(unmade: Unmade) -> Unplayed {
        Unplayed::Unmade(unmade)
    }
}

// How many places of a list of hits a call asks for.
fn hit_places<E, C>(call: &Call<E, C>) -> usize
    ensures { result ≡ hit_places call.now }
{
    match call {
        Call::Near(_, _, places) | Call::Within(_, _, places) => *places,
        _ => 0,
    }
}

// How many places of a list of numbers a call asks for.
fn number_places<E, C>(call: &Call<E, C>) -> usize
    ensures { result ≡ number_places call.now }
{
    match call {
        Call::Route(_, _, places) => *places,
        _ => 0,
    }
}

// Refuses a call that asks for more places than there are.
fn fits<E, C>(call: &Call<E, C>, hits: usize, numbers: usize) -> Result<(), Unplayed>
    ensures { result ≡ fits_call hits numbers call.now }
{
    let of_hits = hit_places(call);
    if of_hits > hits {
        return Err(Unplayed::Hits(of_hits));
    }
    let of_numbers = number_places(call);
    if of_numbers > numbers {
        return Err(Unplayed::Numbers(of_numbers));
    }
    Ok(())
}

// Refuses the first call that asks for more places than there are.
fn all_fit<E, C>(calls: &[Call<E, C>], hits: usize, numbers: usize) -> Result<(), Unplayed>
    ensures { result ≡ fitting hits numbers calls.now }
{
    for call in calls {
        fits(call, hits, numbers)?;
    }
    Ok(())
}

// Makes one call on a roadmap. The lists are two parameters: a struct of both would have to promise of each call that they
// are still the ones that were lent.
pub fn ask<'a, I: Index + Drop, C: Checker<I::Element>>(
    road: &mut Roadmap<'a, I>,
    call: &Call<I::Element, C>,
    list: &mut [Hit],
    numbers: &mut [u16],
) -> Result<Answer<I::Element>, Refusal>
    ensures does { Does I.Element.Metric.dist C.Checker.passes (road_of I.Index.meaning road.old) call.now (lent list.old numbers.old) result (lent list.new numbers.new) (road_of I.Index.meaning road.new) }
{
    match call {
        Call::Add(e, checker) => {
            let (number, edges) = road.add(*e, checker)?;
            Ok(Answer::Added(number, edges))
        }
        Call::Drop(number) => {
            road.drop(*number)?;
            Ok(Answer::Dropped)
        }
        Call::Element(number) => Ok(Answer::Element(road.element(*number)?)),
        Call::Tally => {
            let (capacity, standing, last) = road.tally();
            Ok(Answer::Tally(capacity, standing, last))
        }
        Call::Near(q, k, places) => {
            let places = (*places).min(list.len());
            Ok(Answer::Near(road.near(q, *k, &mut list[0..places])?))
        }
        Call::Within(q, radius, places) => {
            let places = (*places).min(list.len());
            Ok(Answer::Within(road.within(q, *radius, &mut list[0..places])))
        }
        Call::Island(number) => Ok(Answer::Island(road.island(*number)?)),
        Call::Route(a, b, places) => {
            let places = (*places).min(numbers.len());
            let (length, count) = road.route(*a, *b, &mut numbers[0..places])?;
            Ok(Answer::Route(length, count))
        }
    }
}

// Makes the calls in order on a roadmap, and writes down the answers. Lists and answers are parameters, as at `ask`.
fn run<'a, I: Index + Drop, C: Checker<I::Element>>(
    road: &mut Roadmap<'a, I>,
    calls: &[Call<I::Element, C>],
    list: &mut [Hit],
    numbers: &mut [u16],
    answers: &mut [Result<Answer<I::Element>, Refusal>],
)
    requires { length calls.now ≡ length answers.old }
    ensures ran { Ran I.Element.Metric.dist C.Checker.passes (road_of I.Index.meaning road.old) calls.now (lent list.old numbers.old) answers.new (lent list.new numbers.new) (road_of I.Index.meaning road.new) }
{
    for (i, call) in calls.iter().enumerate() {
        answers[i] = ask(road, call, list, numbers);
    }
}

// Makes a roadmap over each of two indexes of one kind, and makes the same calls on both, with lists of their
// own, which are parameters of their own, as at `ask`. Two fresh indexes of one capacity then answer alike and leave their lists alike at every turn, as the
// history says, if the calls are the same, the checkers pass the same pairs and the lists held the same.
pub fn compare<
    'a,
    'b,
    I: Index + Drop,
    J: Index<Element = I::Element> + Drop,
    C: Checker<I::Element>,
    D: Checker<I::Element>,
>(
    first: I,
    second: J,
    k: u32,
    links: &'a mut [Links],
    spare: &'b mut [Links],
    calls: &[Call<I::Element, C>],
    others: &[Call<I::Element, D>],
    list: &mut [Hit],
    copy: &mut [Hit],
    numbers: &mut [u16],
    twins: &mut [u16],
    answers: &mut [Result<Answer<I::Element>, Refusal>],
    again: &mut [Result<Answer<I::Element>, Refusal>],
) -> Result<(), Unplayed>
    ensures judged { Judged k (length calls.now) (length answers.old) (length others.now) (length again.old) (I.Index.meaning first).capacity (length links.old) (J.Index.meaning second).capacity (length spare.old) result }
    ensures kept { (u : Unplayed) → result ≡ Err u → (answers.new ≡ answers.old) × (again.new ≡ again.old) × (list.new ≡ list.old) × (copy.new ≡ copy.old) × (numbers.new ≡ numbers.old) × (twins.new ≡ twins.old) }
    ensures one_run { result ≡ Ok tt → Alone I.Element.Metric.dist C.Checker.passes k (I.Index.meaning first) calls.now (lent list.old numbers.old) answers.new (lent list.new numbers.new) }
    ensures other_run { result ≡ Ok tt → Alone I.Element.Metric.dist D.Checker.passes k (J.Index.meaning second) others.now (lent copy.old twins.old) again.new (lent copy.new twins.new) }
    ensures law { result ≡ Ok tt → (size : ℕ) → I.Index.meaning first ≡ fresh size → J.Index.meaning second ≡ fresh size → AllAlike C.Checker.passes D.Checker.passes calls.now others.now → list.old ≡ copy.old → numbers.old ≡ twins.old → Whole I.Element.Metric.dist C.Checker.passes D.Checker.passes (start k size) calls.now others.now (lent list.old numbers.old) answers.new (lent list.new numbers.new) again.new (lent copy.new twins.new) }
{
    if answers.len() != calls.len() {
        return Err(Unplayed::Answers(calls.len()));
    }
    if again.len() != others.len() {
        return Err(Unplayed::Answers(others.len()));
    }
    let mut one = Roadmap::new(first, k, links)?;
    let mut two = Roadmap::new(second, k, spare)?;
    run(&mut one, calls, list, numbers, answers);
    run(&mut two, others, copy, twins, again);
    Ok(())
}

// Compares as `compare` does, and refuses calls that ask for more places than their lists have.
pub fn compare_fitting<
    'a,
    'b,
    I: Index + Drop,
    J: Index<Element = I::Element> + Drop,
    C: Checker<I::Element>,
    D: Checker<I::Element>,
>(
    first: I,
    second: J,
    k: u32,
    links: &'a mut [Links],
    spare: &'b mut [Links],
    calls: &[Call<I::Element, C>],
    others: &[Call<I::Element, D>],
    list: &mut [Hit],
    copy: &mut [Hit],
    numbers: &mut [u16],
    twins: &mut [u16],
    answers: &mut [Result<Answer<I::Element>, Refusal>],
    again: &mut [Result<Answer<I::Element>, Refusal>],
) -> Result<(), Unplayed>
    ensures judged { JudgedFitting k (length calls.now) (length answers.old) (length others.now) (length again.old) (fitting (length list.old) (length numbers.old) calls.now) (fitting (length copy.old) (length twins.old) others.now) (I.Index.meaning first).capacity (length links.old) (J.Index.meaning second).capacity (length spare.old) result }
    ensures kept { (u : Unplayed) → result ≡ Err u → (answers.new ≡ answers.old) × (again.new ≡ again.old) × (list.new ≡ list.old) × (copy.new ≡ copy.old) × (numbers.new ≡ numbers.old) × (twins.new ≡ twins.old) }
    ensures one_run { result ≡ Ok tt → Alone I.Element.Metric.dist C.Checker.passes k (I.Index.meaning first) calls.now (lent list.old numbers.old) answers.new (lent list.new numbers.new) }
    ensures other_run { result ≡ Ok tt → Alone I.Element.Metric.dist D.Checker.passes k (J.Index.meaning second) others.now (lent copy.old twins.old) again.new (lent copy.new twins.new) }
    ensures law { result ≡ Ok tt → (size : ℕ) → I.Index.meaning first ≡ fresh size → J.Index.meaning second ≡ fresh size → AllAlike C.Checker.passes D.Checker.passes calls.now others.now → list.old ≡ copy.old → numbers.old ≡ twins.old → Whole I.Element.Metric.dist C.Checker.passes D.Checker.passes (start k size) calls.now others.now (lent list.old numbers.old) answers.new (lent list.new numbers.new) again.new (lent copy.new twins.new) }
{
    if answers.len() != calls.len() {
        return Err(Unplayed::Answers(calls.len()));
    }
    let wanted = others.len();
    if again.len() != wanted {
        return Err(Unplayed::Answers(wanted));
    }
    all_fit(calls, list.len(), numbers.len())?;
    all_fit(others, copy.len(), twins.len())?;
    compare(
        first, second, k, links, spare, calls, others, list, copy, numbers, twins, answers, again,
    )
}
