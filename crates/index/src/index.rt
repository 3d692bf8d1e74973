// An index files samples under rising numbers and finds those nearest to a query.
ghost use Rattle.std.specs.Prelude.{◌≡◌};
ghost use Rattle.hits.specs.Samples.{hits, Ranked};
ghost use Rattle.index.specs.Meaning.{Meaning, AlwaysLawful};
ghost use Rattle.index.specs.Outcomes.{told};
ghost use Rattle.index.specs.Calls.{add_outcome, add_leaves, drop_outcome, drop_leaves, element_outcome, tally_of, near_outcome, near_list, within_count, within_list};

use crate::refusal::Refusal;
use hits::Hit;
use metric::Metric;

// `meaning` says what the index holds, and `lawful` is the proof of what an index owes in each of its
// states: what keeps it so is a fact of its type.
pub trait Index {
    type Element: Metric;

    ghost meaning: { Self → Meaning Self.Element };

    ghost lawful: { AlwaysLawful meaning };

    // Files the element under the next number, and returns that.
    fn add(&mut self, e: Self::Element) -> Result<u16, Refusal>
        ensures answer { told result ≡ add_outcome (meaning self.old) }
        ensures leaves { meaning self.new ≡ add_leaves (meaning self.old) e };

    // Takes the sample of this number out. Its space is used again, its number never.
    fn drop(&mut self, number: u16) -> Result<(), Refusal>
        ensures answer { told result ≡ drop_outcome (meaning self.old) number }
        ensures leaves { meaning self.new ≡ drop_leaves (meaning self.old) number };

    // The element of the sample of this number.
    fn element(&self, number: u16) -> Result<Self::Element, Refusal>
        ensures { told result ≡ element_outcome (meaning self.now) number };

    // The capacity, how many samples stand, and the last number given.
    fn tally(&self) -> (usize, usize, u16)
        ensures { result ≡ tally_of (meaning self.now) };

    // Writes the k hits nearest to the query, or as many as stand, and returns how many.
    fn near(&self, q: &Self::Element, k: usize, list: &mut [Hit]) -> Result<usize, Refusal>
        ensures answer { told result ≡ near_outcome (meaning self.now) k list.old }
        ensures writes { list.new ≡ near_list Self.Element.Metric.dist (meaning self.now) q.now k list.old }
        ensures ranked { Ranked Self.Element.Metric.dist q.now (meaning self.now).standing (hits Self.Element.Metric.dist q.now (meaning self.now).standing) };

    // Returns how many samples are at most `radius` away, and writes as many of these hits as the
    // list holds, the nearest first.
    fn within(&self, q: &Self::Element, radius: u32, list: &mut [Hit]) -> usize
        ensures answer { result ≡ within_count Self.Element.Metric.dist (meaning self.now) q.now radius }
        ensures writes { list.new ≡ within_list Self.Element.Metric.dist (meaning self.now) q.now radius list.old }
        ensures ranked { Ranked Self.Element.Metric.dist q.now (meaning self.now).standing (hits Self.Element.Metric.dist q.now (meaning self.now).standing) };
}
