// The calls of the story.
use card::Card;
use checker::Checker;
use history::Call;
use std::alloc::{AllocError, Global};

// How many samples can stand, and how many places each list has.
pub const PLACES: usize = 12;

pub const EMPTY: Card = Card { slots: [0; 8] };

// A card with these three slots taken.
fn tools(first: u8, second: u8, third: u8) -> Card {
    Card {
        slots: [first, second, third, 0, 0, 0, 0, 0],
    }
}

// Adds cards, many of them at equal distances, asks, drops one, and asks again.
pub fn story<C: Checker<Card> + Copy>(
    heap: Global,
    checker: C,
) -> Result<Vec<Call<Card, C>>, AllocError> {
    let mut calls = Vec::new(heap);
    for (first, second, third) in [(1, 1, 0), (1, 2, 0), (2, 2, 0), (2, 3, 0), (3, 3, 0)] {
        calls.push(Call::Add(tools(first, second, third), checker))?;
    }
    for third in [1, 1, 9, 4, 5, 6] {
        calls.push(Call::Add(tools(3, 3, third), checker))?;
    }
    calls.push(Call::Near(tools(1, 1, 1), 4, 6))?;
    calls.push(Call::Within(tools(3, 3, 1), 20, 2))?;
    calls.push(Call::Near(tools(1, 1, 1), 7, 6))?;
    questions(&mut calls)?;
    calls.push(Call::Drop(5))?;
    calls.push(Call::Drop(5))?;
    calls.push(Call::Element(5))?;
    calls.push(Call::Add(tools(1, 3, 0), checker))?;
    calls.push(Call::Add(tools(1, 3, 0), checker))?;
    calls.push(Call::Add(tools(1, 3, 0), checker))?;
    calls.push(Call::Tally)?;
    questions(&mut calls)?;
    Ok(calls)
}

// Islands and routes, some of them refused.
fn questions<C: Copy>(calls: &mut Vec<Call<Card, C>>) -> Result<(), AllocError> {
    for number in [4, 8, 11, 14] {
        calls.push(Call::Island(number))?;
    }
    for (start, goal, places) in [(1, 4, 12), (1, 11, 2), (40, 41, 3), (1, 1, 1), (1, 7, 12)] {
        calls.push(Call::Route(start, goal, places))?;
    }
    Ok(())
}
