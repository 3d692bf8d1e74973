// Two indexes beside each other.
use crate::script::{Call, Script};
use card::Card;
use hits::Hit;
use index::index::Index;
use std::alloc::Global;
use std::process::Abort;
use std::test::Fail;

const MARK: Hit = Hit {
    number: 60000,
    distance: 7,
};

// The two lists hold the same, also behind what was written.
fn same_hits(rt: &impl Abort, one: &[Hit], other: &[Hit]) -> Result<(), Fail> {
    assert_eq!(rt; one, other);
    Ok(())
}

// One call on both.
fn call_both<I: Index<Element = Card>, J: Index<Element = Card>>(
    rt: &impl Abort,
    one: &mut I,
    other: &mut J,
    call: Call,
    list: &mut [Hit],
    other_list: &mut [Hit],
) -> Result<(), Fail> {
    match call {
        Call::Add(e) => assert_eq!(rt; one.add(e), other.add(e)),
        Call::Drop(n) => assert_eq!(rt; one.drop(n), other.drop(n)),
        Call::Element(n) => assert_eq!(rt; one.element(n), other.element(n)),
        Call::Near(q, k) => assert_eq!(rt; one.near(&q, k, list), other.near(&q, k, other_list)),
        Call::Within(q, r) => assert_eq!(rt;
            one.within(&q, r, list),
            other.within(&q, r, other_list)
        ),
    }
    assert_eq!(rt; one.tally(), other.tally());
    same_hits(rt, list, other_list)
}

// So many calls on both.
pub fn run<I: Index<Element = Card>, J: Index<Element = Card>>(
    rt: &impl Abort,
    heap: Global,
    one: &mut I,
    other: &mut J,
    mut script: Script,
    turns: u32,
) -> Result<(), Fail> {
    for turn in 0..turns {
        let (_, _, last) = one.tally();
        let call = script.call(turn, last);
        let mut list = vec![in heap; MARK; turn as usize % 13]?;
        let mut other_list = vec![in heap; MARK; turn as usize % 13]?;
        call_both(
            rt,
            one,
            other,
            call,
            list.as_mut_slice(),
            other_list.as_mut_slice(),
        )?;
    }
    Ok(())
}
