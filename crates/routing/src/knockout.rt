// Places that wait, as a knockout by cost. With n places, place p stands at n + p while it waits, and at each i from 1 to
// n - 1 stands the one of less cost of those at 2i and 2i + 1: so the one of least cost stands at 1. Nobody stands at 0.
ghost use Rattle.std.specs.Prelude.{◌≡◌, ◌+◌, ◌*◌, ◌<◌, ◌≤◌, length};
ghost use Rattle.routing.specs.Knockouts.{winner_of, wins_of, entry, places, waits, DecidedBut, Below, IsKnockout, Replayed, PutIn, Taken};

use crate::cost::Cost;

/// A place that waits, and what the chain from it costs.
#[derive(Clone, Copy)]
pub struct Waiting {
    pub cost: Cost,
    pub place: u32,
}

// Where the one of less cost stands of the two that play for `at`, the first if equal: only its number is chosen, so that
// a match copies its winner once.
fn winner(matches: &[Option<Waiting>], at: usize) -> usize
    requires { 2 * at + 1 < length matches.now }
    ensures inside { result < length matches.now }
    ensures winner { entry matches.now result ≡ winner_of (entry matches.now (2 * at)) (entry matches.now (2 * at + 1)) }
{
    let one = 2 * at;
    let other = 2 * at + 1;
    let Some(first) = matches[one] else {
        return other;
    };
    let Some(second) = matches[other] else {
        return one;
    };
    if second.cost < first.cost { other } else { one }
}

// Plays again from one match up to the last.
fn replay(matches: &mut [Option<Waiting>], from: usize)
    requires even { length matches.old ≡ 2 * places matches.old }
    requires few { places matches.old ≤ 1024 }
    requires inside { from < places matches.old }
    requires others { DecidedBut from matches.old }
    ensures { Replayed matches.old matches.new }
{
    let mut at = from;
    while at > 0 {
        matches[at] = matches[winner(matches, at)];
        at /= 2;
    }
}

// Whether a cost is less than that of one that stands in a match; where nobody stands, it is.
fn wins(cost: Cost, standing: Option<Waiting>) -> bool
    ensures { result ≡ wins_of cost standing }
{
    let Some(standing) = standing else {
        return true;
    };
    cost < standing.cost
}

/// Lets a place wait with this cost, which is less than that which it waits with, if it does.
pub fn put(matches: &mut [Option<Waiting>], place: usize, cost: Cost)
    requires knockout { IsKnockout matches.old }
    requires inside { place < places matches.old }
    requires few { places matches.old ≤ 1024 }
    requires below { Below cost (waits matches.old place) }
    ensures { PutIn place cost matches.old matches.new }
{
    let waiting = Waiting {
        cost,
        place: place as u32,
    };
    let leaf = matches.len() / 2 + place;
    matches[leaf] = Some(waiting);
    // On its way up it beats whom it costs less than; where it does not, all is decided as before.
    let mut at = leaf / 2;
    while at > 0 && wins(cost, matches[at]) {
        matches[at] = Some(waiting);
        at /= 2;
    }
}

/// Takes out the place of least cost, if one waits.
pub fn take(matches: &mut [Option<Waiting>]) -> Option<Waiting>
    requires knockout { IsKnockout matches.old }
    requires some { 0 < places matches.old }
    requires few { places matches.old ≤ 1024 }
    ensures { Taken matches.old result matches.new }
{
    let least = matches[1]?;
    let at = matches.len() / 2 + least.place as usize;
    matches[at] = None;
    replay(matches, at / 2);
    Some(least)
}
