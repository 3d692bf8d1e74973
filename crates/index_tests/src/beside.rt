// One index beside the model.
use crate::model::Model;
use card::Card;
use hits::Hit;
use index::index::Index;
use index::refusal::Refusal;
use rolls::Rolls;
use std::alloc::Global;
use std::process::Abort;
use std::test::Fail;

// A card of few values, so that many distances are equal.
fn some_card(rolls: &mut Rolls) -> Card {
    let mut slots = [0u8; 8];
    for slot in slots.iter_mut() {
        *slot = (rolls.below(2) & 1) as u8;
    }
    Card { slots }
}

const MARK: Hit = Hit {
    number: 60000,
    distance: 7,
};

// The hits are these, and the places behind them keep the mark.
fn same_hits(
    rt: &impl Abort,
    list: &[Hit],
    expected: &[(u32, u16)],
    most: usize,
) -> Result<(), Fail> {
    for (i, hit) in list.iter().enumerate() {
        match expected.get(i) {
            Some((distance, number)) if i < most => {
                assert_eq!(rt; (hit.distance, hit.number), (*distance, *number));
            }
            _ => assert_eq!(rt; *hit, MARK),
        }
    }
    Ok(())
}

fn ask_near<I: Index<Element = Card>>(
    rt: &impl Abort,
    index: &I,
    model: &Model,
    q: &Card,
    k: usize,
    list: &mut [Hit],
) -> Result<(), Fail> {
    list.fill(MARK);
    let answer = index.near(q, k, list);
    let expected = model.within(q, u32::MAX)?;
    if k == 0 || k > list.len() {
        assert_eq!(rt; answer, Err(Refusal::HitCount));
        return same_hits(rt, list, expected.as_slice(), 0);
    }
    assert_eq!(rt; answer, Ok(k.min(expected.len())));
    same_hits(rt, list, expected.as_slice(), k)
}

fn ask_within<I: Index<Element = Card>>(
    rt: &impl Abort,
    index: &I,
    model: &Model,
    q: &Card,
    radius: u32,
    list: &mut [Hit],
) -> Result<(), Fail> {
    list.fill(MARK);
    let count = index.within(q, radius, list);
    let expected = model.within(q, radius)?;
    assert_eq!(rt; count, expected.len());
    same_hits(rt, list, expected.as_slice(), list.len())
}

// One random call on both.
pub fn call_both<I: Index<Element = Card>>(
    rt: &impl Abort,
    index: &mut I,
    model: &mut Model,
    rolls: &mut Rolls,
    list: &mut [Hit],
) -> Result<(), Fail> {
    let card = some_card(rolls);
    let (_, _, last) = index.tally();
    let number = (rolls.below(u32::from(last) + 3) % 65536) as u16;
    match rolls.below(6) {
        0 | 1 => assert_eq!(rt; index.add(card), model.add(card)?),
        2 => assert_eq!(rt; index.drop(number), model.drop(number)),
        3 => ask_near(rt, index, model, &card, rolls.below(14) as usize, list)?,
        4 => ask_within(rt, index, model, &card, rolls.below(160), list)?,
        _ => assert_eq!(rt; index.element(number), model.element(number)),
    }
    assert_eq!(rt; index.tally(), model.tally());
    Ok(())
}
