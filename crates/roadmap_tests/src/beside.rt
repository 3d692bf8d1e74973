// One roadmap beside the model.
ghost use Rattle.std.specs.Prelude.{◌<◌, ◌≤◌, length};
ghost use Rattle.history.specs.Fitting.{hit_places, number_places};

use crate::kind::{Picky, Spot};
use crate::model::Model;
use history::{Answer, Call, ask};
use hits::Hit;
use index::index::Index;
use index::refusal::Refusal;
use links::Links;
use roadmap::Roadmap;
use rolls::Rolls;
use std::alloc::{AllocError, Global};
use std::cell::Cell;
use std::fmt::Debug;
use std::process::Abort;
use std::test::Fail;

// What the places of a list hold before a call.
const HIT: Hit = Hit {
    number: 60000,
    distance: 7,
};

const NUMBER: u16 = 60001;

// A spot of few places and marks, so that many are equal or at no distance.
pub fn some_spot(rolls: &mut Rolls) -> Spot {
    Spot {
        place: rolls.below(7) as u8,
        mark: rolls.below(4) as u8,
    }
}

// A number that was given, or nearly.
fn some_number(rolls: &mut Rolls, last: u16) -> u16 {
    rolls.below(u32::from(last.saturating_add(2))) as u16
}

fn some_call<'a>(rolls: &mut Rolls, last: u16, asked: &'a Cell<u32>) -> Call<Spot, Picky<'a>>
    ensures { (hit_places result ≤ 12) × (number_places result ≤ 12) }
{
    let spot = some_spot(rolls);
    let number = some_number(rolls, last);
    let places = rolls.below(13) as usize;
    match rolls.below(14) {
        0..4 => {
            let salt = rolls.below(4) as u8;
            Call::Add(spot, Picky { salt, asked })
        }
        4 => Call::Drop(number),
        5 => Call::Element(number),
        6 => Call::Tally,
        7 => Call::Near(spot, rolls.below(9) as usize, places),
        8 => Call::Within(spot, rolls.below(8), places),
        9..11 => Call::Island(number),
        _ => Call::Route(number, some_number(rolls, last), places),
    }
}

// What a call is to answer, what it is to write, and how often the checker is to be asked.
#[derive(Drop)]
struct Expected {
    answer: Result<Answer<Spot>, Refusal>,
    hits: Vec<Hit>,
    numbers: Vec<u16>,
    asked: u32,
}

fn plain(heap: Global, answer: Result<Answer<Spot>, Refusal>) -> Expected {
    Expected {
        answer,
        hits: Vec::new(heap),
        numbers: Vec::new(heap),
        asked: 0,
    }
}

fn expect_add(heap: Global, model: &mut Model, e: Spot, salt: u8) -> Result<Expected, AllocError> {
    let (_, standing, _) = model.tally();
    Ok(match model.add(e, salt)? {
        Ok((number, edges)) => Expected {
            answer: Ok(Answer::Added(number, edges)),
            hits: Vec::new(heap),
            numbers: Vec::new(heap),
            asked: standing.min(model.k()).min(8) as u32,
        },
        Err(refusal) => plain(heap, Err(refusal)),
    })
}

fn expect_hits(
    heap: Global,
    answer: Answer<Spot>,
    all: &[Hit],
    most: usize,
) -> Result<Expected, AllocError> {
    let mut hits = Vec::new(heap);
    for hit in all.iter().take(most) {
        hits.push(*hit)?;
    }
    Ok(Expected {
        answer: Ok(answer),
        hits,
        numbers: Vec::new(heap),
        asked: 0,
    })
}

fn expect_near(
    heap: Global,
    model: &Model,
    q: &Spot,
    k: usize,
    places: usize,
) -> Result<Expected, AllocError> {
    if k == 0 || k > places {
        return Ok(plain(heap, Err(Refusal::HitCount)));
    }
    let all = model.within(q, u32::MAX)?;
    expect_hits(heap, Answer::Near(k.min(all.len())), all.as_slice(), k)
}

fn expect_route(
    heap: Global,
    model: &Model,
    a: u16,
    b: u16,
    places: usize,
) -> Result<Expected, AllocError> {
    let chain = match model.route(a, b)? {
        Ok(chain) => chain,
        Err(refusal) => return Ok(plain(heap, Err(refusal))),
    };
    if places < chain.count as usize {
        return Ok(plain(heap, Err(Refusal::ShortList(chain.count))));
    }
    Ok(Expected {
        answer: Ok(Answer::Route(chain.length, chain.count)),
        hits: Vec::new(heap),
        numbers: chain.numbers,
        asked: 0,
    })
}

fn expect(
    heap: Global,
    model: &mut Model,
    call: &Call<Spot, Picky>,
) -> Result<Expected, AllocError> {
    match call {
        Call::Add(e, checker) => expect_add(heap, model, *e, checker.salt),
        Call::Drop(number) => {
            let dropped = model.drop(*number)?;
            Ok(plain(heap, dropped.map(|_| Answer::Dropped)))
        }
        Call::Element(number) => Ok(plain(heap, model.element(*number).map(Answer::Element))),
        Call::Tally => {
            let (capacity, standing, last) = model.tally();
            Ok(plain(heap, Ok(Answer::Tally(capacity, standing, last))))
        }
        Call::Near(q, k, places) => expect_near(heap, model, q, *k, *places),
        Call::Within(q, radius, places) => {
            let all = model.within(q, *radius)?;
            expect_hits(heap, Answer::Within(all.len()), all.as_slice(), *places)
        }
        Call::Island(number) => Ok(plain(heap, model.island(*number)?.map(Answer::Island))),
        Call::Route(a, b, places) => expect_route(heap, model, *a, *b, *places),
    }
}

// The list holds what is expected, and then what it held.
fn same_list<T: Copy + PartialEq + Debug>(rt: &impl Abort, list: &[T], expected: &[T], held: T) {
    for (i, place) in list.iter().enumerate() {
        assert_eq!(rt; *place, expected.get(i).copied().unwrap_or(held));
    }
}

// One random call on both.
fn turn<'a, I: Index<Element = Spot> + Drop>(
    rt: &impl Abort,
    heap: Global,
    road: &mut Roadmap<'a, I>,
    model: &mut Model,
    rolls: &mut Rolls,
    list: &mut [Hit],
    numbers: &mut [u16],
) -> Result<(), Fail>
    requires { (12 ≤ length list.old) × (12 ≤ length numbers.old) }
{
    let asked = Cell::new(0);
    let (_, _, last) = model.tally();
    let call = some_call(rolls, last, &asked);
    list.fill(HIT);
    numbers.fill(NUMBER);
    let answer = ask(road, &call, list, numbers);
    let expected = expect(heap, model, &call)?;
    assert_eq!(rt; answer, expected.answer);
    assert_eq!(rt; asked.get(), expected.asked);
    same_list(rt, list, expected.hits.as_slice(), HIT);
    same_list(rt, numbers, expected.numbers.as_slice(), NUMBER);
    Ok(())
}

// Many random calls on a roadmap over this index, beside the model.
pub fn beside<I: Index<Element = Spot> + Drop>(
    rt: &impl Abort,
    heap: Global,
    index: I,
    k: u32,
    seed: u32,
) -> Result<(), Fail> {
    let (capacity, _, _) = index.tally();
    let mut model = Model::new(heap, capacity, k as usize);
    let mut rolls = Rolls::new(seed);
    let mut list = [HIT; 12];
    let mut numbers = [NUMBER; 12];
    let mut links = vec![in heap; Links::unlinked(0); capacity]?;
    let Ok(mut road) = Roadmap::new(index, k, links.as_mut_slice()) else {
        return Err(Fail::new("the roadmap is not made"));
    };
    for _ in 0..120 {
        turn(
            rt,
            heap,
            &mut road,
            &mut model,
            &mut rolls,
            &mut list,
            &mut numbers,
        )?;
    }
    Ok(())
}
