// One history of tool cards, played on a roadmap over the scan and on one over a tree, for trees of several
// settings. Prints each call with its answer, and that all answer alike.
#![tactic(auto)]

mod story;
mod tell;

use anyhow::anyhow;
use card::Card;
use card_checker::{CardWall, MixChecker};
use checker::Checker;
use gnat::chosen::choose;
use gnat::gnat::Gnat;
use gnat::settings::Settings;
use gnat_rows::Row as TreeRow;
use history::{Answer, Call, Unplayed, compare_fitting};
use hits::Hit;
use index::refusal::Refusal;
use links::Links;
use scan::rows::Row;
use scan::scan::Scan;
use std::alloc::{AllocError, Global};
use std::io;
use story::{EMPTY, PLACES, story};
use tell::tell_all;

const HIT: Hit = Hit {
    number: 0,
    distance: 0,
};

// What a comparison came to: the answers and the last route, and whether the other run has the same. Both are there either
// way, so `alike` is a plain fact beside them.
#[derive(Drop)]
struct Played {
    answers: Vec<Result<Answer<Card>, Refusal>>,
    numbers: Vec<u16>,
    alike: bool,
}

// Plays the calls on a scan and on a tree.
fn play<C: Checker<Card>>(
    heap: Global,
    calls: &[Call<Card, C>],
    settings: Settings,
) -> Result<Result<Played, Unplayed>, AllocError> {
    let mut rows = vec![in heap; Row::vacant(EMPTY); PLACES]?;
    let mut tree = vec![in heap; TreeRow::vacant(EMPTY); PLACES]?;
    let mut links = vec![in heap; Links::unlinked(0); PLACES]?;
    let mut spare = vec![in heap; Links::unlinked(0); PLACES]?;
    let mut hits = vec![in heap; HIT; PLACES]?;
    let mut copy = vec![in heap; HIT; PLACES]?;
    let mut numbers = vec![in heap; 0; PLACES]?;
    let mut twins = vec![in heap; 0; PLACES]?;
    let mut answers = vec![in heap; Ok(Answer::Dropped); calls.len()]?;
    let mut again = vec![in heap; Ok(Answer::Dropped); calls.len()]?;
    let result = compare_fitting(
        Scan::new(rows.as_mut_slice()),
        Gnat::new(tree.as_mut_slice(), settings),
        3,
        links.as_mut_slice(),
        spare.as_mut_slice(),
        calls,
        calls,
        hits.as_mut_slice(),
        copy.as_mut_slice(),
        numbers.as_mut_slice(),
        twins.as_mut_slice(),
        answers.as_mut_slice(),
        again.as_mut_slice(),
    );
    let alike = answers == again && hits == copy && numbers == twins;
    Ok(result.map(|_| Played {
        answers,
        numbers,
        alike,
    }))
}

// Each call with its answer, and what the last route left.
fn tell_played<C>(rt: &HostRuntime, calls: &[Call<Card, C>], played: &Played) -> io::Result<()> {
    tell_all(rt, calls, played.answers.as_slice())?;
    let numbers = played.numbers.as_slice();
    println!(rt; "the list of numbers: {numbers:?}")
}

// Plays the calls beside a tree of these settings. Tells them if asked to: `told` goes with no value.
fn beside<C: Checker<Card>>(
    rt: &HostRuntime,
    calls: &[Call<Card, C>],
    degree: u32,
    bucket: u32,
    told: bool,
) -> anyhow::Result<()> {
    let Ok(settings) = choose(degree, bucket) else {
        return Err(anyhow!("the settings are refused"));
    };
    let Ok(played) = play(rt.alloc(), calls, settings)? else {
        return Err(anyhow!("the history is not played"));
    };
    if told {
        tell_played(rt, calls, &played)?;
    }
    let alike = if played.alike { "alike" } else { "otherwise" };
    println!(rt; "a tree of degree {degree} and bucket {bucket} answers {alike}")?;
    Ok(())
}

// Plays the story beside trees of several settings.
fn agree<C: Checker<Card> + Copy>(rt: &HostRuntime, checker: C) -> anyhow::Result<()> {
    let calls = story(rt.alloc(), checker)?;
    let calls = calls.as_slice();
    beside(rt, calls, 2, 2, true)?;
    beside(rt, calls, 3, 4, false)?;
    beside(rt, calls, 5, 9, false)?;
    beside(rt, calls, 8, 32, false)
}

fn main(rt: HostRuntime) -> anyhow::Result<()> {
    let walls = [
        CardWall {
            slots: [2, 3, 255, 255, 255, 255, 255, 255],
        },
        CardWall {
            slots: [255, 255, 9, 255, 255, 255, 255, 255],
        },
    ];
    agree(&rt, MixChecker { walls: &walls })
}
