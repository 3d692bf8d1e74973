// Calls of an index, told in plain words. What is printed no clause says; each call is made, also where printing fails.
#![tactic(auto)]

ghost use Rattle.std.specs.Prelude.{◌≡◌};
ghost use Rattle.index.specs.Calls.{add_leaves, drop_leaves, near_list, within_list};

use hits::Hit;
use index::index::Index;
use index::refusal::Refusal;
use std::fmt::Debug;
use std::io;

pub fn tell_refusal(rt: &HostRuntime, refusal: Refusal) -> io::Result<()> {
    let number = refusal.number();
    println!(rt; "refused by {number}: {refusal}")
}

pub fn tell_add<I: Index>(rt: &HostRuntime, index: &mut I, e: I::Element) -> io::Result<()>
where
    I::Element: Debug,
    ensures { I.Index.meaning index.new ≡ add_leaves (I.Index.meaning index.old) e }
{
    let added = index.add(e);
    print!(rt; "  add {e:?}: ")?;
    match added {
        Ok(number) => println!(rt; "filed as sample {number}"),
        Err(refusal) => tell_refusal(rt, refusal),
    }
}

pub fn tell_drop<I: Index>(rt: &HostRuntime, index: &mut I, number: u16) -> io::Result<()>
    ensures { I.Index.meaning index.new ≡ drop_leaves (I.Index.meaning index.old) number }
{
    let dropped = index.drop(number);
    print!(rt; "  drop {number}: ")?;
    match dropped {
        Ok(()) => println!(rt; "taken out"),
        Err(refusal) => tell_refusal(rt, refusal),
    }
}

pub fn tell_element<I: Index>(rt: &HostRuntime, index: &I, number: u16) -> io::Result<()>
where
    I::Element: Debug,
{
    print!(rt; "  element {number}: ")?;
    match index.element(number) {
        Ok(element) => println!(rt; "{element:?}"),
        Err(refusal) => tell_refusal(rt, refusal),
    }
}

pub fn tell_tally<I: Index>(rt: &HostRuntime, index: &I) -> io::Result<()> {
    let (capacity, standing, last) = index.tally();
    println!(rt; "  tally: capacity {capacity}, {standing} standing, last number {last}")
}

fn tell_hits(rt: &HostRuntime, hits: &[Hit]) -> io::Result<()> {
    for hit in hits {
        let number = hit.number;
        let distance = hit.distance;
        print!(rt; ", sample {number} at {distance}")?;
    }
    println!(rt; "")
}

pub fn tell_near<I: Index>(
    rt: &HostRuntime,
    index: &I,
    q: &I::Element,
    k: usize,
    list: &mut [Hit],
) -> io::Result<()>
where
    I::Element: Debug,
    ensures { list.new ≡ near_list I.Element.Metric.dist (I.Index.meaning index.now) q.now k list.old }
{
    let near = index.near(q, k, list);
    print!(rt; "  the {k} nearest to {q:?}: ")?;
    match near {
        Ok(count) => {
            print!(rt; "{count} written")?;
            match list.get(0..count) {
                Some(hits) => tell_hits(rt, hits),
                None => Ok(()),
            }
        }
        Err(refusal) => tell_refusal(rt, refusal),
    }
}

pub fn tell_within<I: Index>(
    rt: &HostRuntime,
    index: &I,
    q: &I::Element,
    radius: u32,
    list: &mut [Hit],
) -> io::Result<()>
where
    I::Element: Debug,
    ensures { list.new ≡ within_list I.Element.Metric.dist (I.Index.meaning index.now) q.now radius list.old }
{
    let found = index.within(q, radius, list);
    let written = found.min(list.len());
    print!(rt; "  within {radius} of {q:?}: {found} found, {written} written")?;
    tell_hits(rt, &list[0..written])
}
