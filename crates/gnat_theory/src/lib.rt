// The tree of an index: what filing, splitting, dropping, rebuilding and searching do, and the
// theorems about them. Each function does nothing and stands for the theorem in its contract.
#![tactic(auto)]

ghost use Rattle.gnat_theory.specs.Rules.{NearestFirst, Splits, SplitsRoomily};
ghost use Rattle.gnat_theory.specs.Keeping.{AlwaysKeepsTree, RowsCounted, PrunedIsShrunk};
ghost use Rattle.gnat_theory.specs.Finding.{OutsideIsBeyond, StruckOutOfReach, SearchExact, AlwaysBounded};
ghost use Rattle.gnat_theory.specs.Example.{Shown};

use metric::Metric;

// Of equal distances the first counts as the nearest.
pub fn nearest_is_first()
    ensures { NearestFirst }
{}

// A split chooses its pivots, fills its leaves and sets its ranges by the rule.
pub fn splits_by_the_rule<M: Metric>()
    ensures { Splits M.dist }
{}

// With a bucket of twice the degree, a split leaves more samples in leaves than it takes as pivots.
pub fn splits_roomily<M: Metric>()
    ensures { SplitsRoomily M.dist }
{}

// The empty leaf, filing, dropping, rebuilding and adding each leave a tree of just the samples
// that stand, with all ranges right and no leaf too large.
pub fn keeps_its_tree<M: Metric>()
    ensures { AlwaysKeepsTree M.dist }
{}

// The rows of a tree are its pivots and the samples in its leaves.
pub fn rows_are_counted<M: Metric>()
    ensures { RowsCounted M.dist }
{}

// A sample in a leaf can be dropped on the way down to its nearest pivots: nothing else changes.
pub fn pruned_is_shrunk<M: Metric>()
    ensures { PrunedIsShrunk M.dist }
{}

// What a range shows to be out of reach is out of reach.
pub fn outside_is_beyond<M: Metric>()
    ensures { OutsideIsBeyond M.dist }
{}

// A struck child holds no sample within the reach that the search had.
pub fn struck_is_out_of_reach<M: Metric>()
    ensures { StruckOutOfReach M.dist }
{}

// The search finds exactly the hits that are wanted, and measures no more than there are rows.
pub fn search_is_exact<M: Metric>()
    ensures { SearchExact M.dist }
{}

// The list of pending trees never has more than one place more than the tree has pivots, and the
// search by it ends.
pub fn pending_is_bounded<M: Metric>()
    ensures { AlwaysBounded M.dist }
{}

// One split and one search, worked out on a line of numbers.
pub fn example_is_shown()
    ensures { Shown }
{}
