// Comparisons that are refused.
use crate::kind::{Picky, Spot};
use checker::Checker;
use history::{Answer, Call, Unplayed, compare_fitting};
use hits::Hit;
use index::refusal::Refusal;
use links::Links;
use roadmap::Unmade;
use scan::rows::Row;
use scan::scan::Scan;
use std::alloc::{AllocError, Global};
use std::cell::Cell;
use std::process::Abort;
use std::test::Fail;

const SPOT: Spot = Spot { place: 0, mark: 0 };

const HIT: Hit = Hit {
    number: 9,
    distance: 9,
};

// How many neighbours, and how many places of each list.
#[derive(Clone, Copy)]
struct Places {
    k: u32,
    answers: usize,
    again: usize,
    hits: usize,
    copies: usize,
    numbers: usize,
    twins: usize,
    links: usize,
    spare: usize,
}

const ENOUGH: Places = Places {
    k: 2,
    answers: 4,
    again: 4,
    hits: 5,
    copies: 5,
    numbers: 3,
    twins: 3,
    links: 2,
    spare: 2,
};

// A history that asks for up to 5 places of hits and 3 of numbers.
fn some_calls<C: Checker<Spot> + Copy>(
    heap: Global,
    checker: C,
) -> Result<Vec<Call<Spot, C>>, AllocError> {
    let mut calls = Vec::new(heap);
    calls.push(Call::Add(SPOT, checker))?;
    calls.push(Call::Near(SPOT, 1, 5))?;
    calls.push(Call::Route(1, 1, 3))?;
    calls.push(Call::Within(SPOT, 0, 4))?;
    Ok(calls)
}

// One history played on two scans of two places. If it is refused, nothing is written.
fn played<C: Checker<Spot> + Copy>(
    rt: &impl Abort,
    heap: Global,
    checker: C,
    places: Places,
) -> Result<Result<(), Unplayed>, Fail> {
    let calls = some_calls(heap, checker)?;
    let mut rows = vec![in heap; Row::vacant(SPOT); 2]?;
    let mut others = vec![in heap; Row::vacant(SPOT); 2]?;
    let mut links = vec![in heap; Links::unlinked(0); places.links]?;
    let mut spare = vec![in heap; Links::unlinked(0); places.spare]?;
    let mut hits = vec![in heap; HIT; places.hits]?;
    let mut copies = vec![in heap; HIT; places.copies]?;
    let mut numbers = vec![in heap; 9; places.numbers]?;
    let mut twins = vec![in heap; 9; places.twins]?;
    let mut answers = vec![in heap; Ok(Answer::Dropped); places.answers]?;
    let mut again = vec![in heap; Ok(Answer::Dropped); places.again]?;
    let result = compare_fitting(
        Scan::new(rows.as_mut_slice()),
        Scan::new(others.as_mut_slice()),
        places.k,
        links.as_mut_slice(),
        spare.as_mut_slice(),
        calls.as_slice(),
        calls.as_slice(),
        hits.as_mut_slice(),
        copies.as_mut_slice(),
        numbers.as_mut_slice(),
        twins.as_mut_slice(),
        answers.as_mut_slice(),
        again.as_mut_slice(),
    );
    if result.is_err() {
        untouched(rt, hits.as_slice(), numbers.as_slice(), answers.as_slice());
        untouched(rt, copies.as_slice(), twins.as_slice(), again.as_slice());
    }
    Ok(result)
}

// The lists hold what they held.
fn untouched(
    rt: &impl Abort,
    hits: &[Hit],
    numbers: &[u16],
    answers: &[Result<Answer<Spot>, Refusal>],
) {
    for hit in hits {
        assert_eq!(rt; *hit, HIT);
    }
    for number in numbers {
        assert_eq!(rt; *number, 9);
    }
    for answer in answers {
        assert_eq!(rt; *answer, Ok(Answer::Dropped));
    }
}

// Each cause alone, and before those that come later.
#[test]
fn comparisons_are_refused_in_order(rt: HostRuntime) -> Result<(), Fail> {
    let heap = rt.alloc();
    let asked = Cell::new(0);
    let checker = Picky {
        salt: 1,
        asked: &asked,
    };
    let mut places = ENOUGH;
    assert_eq!(rt; played(&rt, heap, checker, places)?, Ok(()));
    places.spare = 1;
    let unmade = Unplayed::Unmade(Unmade::TooFewRecords(2));
    assert_eq!(rt; played(&rt, heap, checker, places)?, Err(unmade));
    places.links = 0;
    assert_eq!(rt; played(&rt, heap, checker, places)?, Err(unmade));
    places.k = 9;
    let unmade = Unplayed::Unmade(Unmade::Setting(9));
    assert_eq!(rt; played(&rt, heap, checker, places)?, Err(unmade));
    places.twins = 2;
    assert_eq!(rt;
        played(&rt, heap, checker, places)?,
        Err(Unplayed::Numbers(3))
    );
    places.copies = 4;
    assert_eq!(rt; played(&rt, heap, checker, places)?, Err(Unplayed::Hits(5)));
    places.numbers = 0;
    assert_eq!(rt;
        played(&rt, heap, checker, places)?,
        Err(Unplayed::Numbers(3))
    );
    places.hits = 3;
    assert_eq!(rt; played(&rt, heap, checker, places)?, Err(Unplayed::Hits(5)));
    places.again = 5;
    assert_eq!(rt;
        played(&rt, heap, checker, places)?,
        Err(Unplayed::Answers(4))
    );
    places.answers = 0;
    assert_eq!(rt;
        played(&rt, heap, checker, places)?,
        Err(Unplayed::Answers(4))
    );
    assert_eq!(rt; asked.get(), 0);
    Ok(())
}
