// Striking children: what the ranges of a pivot show of all of them at once.
ghost use Rattle.std.specs.Prelude.{◌≡◌, ℕ, ◌<◌, ◌≤◌};
ghost use Rattle.gnat_theory.specs.Searching.{outside};
ghost use Rattle.gnat_theory.specs.Searching.Sight.{seen};
ghost use Rattle.gnat_search.specs.Nodes.{IsAround, StruckMore};

use gnat_rows::Branch;

// The distances from a pivot at which a sample could still count: those between the two, and these themselves.
#[derive(Clone, Copy)]
struct Band {
    from: u32,
    to: u32,
}

impl Band {
    // That of samples within the radius of what is at this distance from the pivot.
    fn around(distance: u32, radius: u32) -> Band
        ensures { IsAround distance radius result }
    {
        Band {
            from: distance.saturating_sub(radius),
            to: distance.saturating_add(radius),
        }
    }

    // Whether a range ends before the band or begins behind it.
    fn misses(self, low: u32, high: u32) -> bool
        ensures { (d R : ℕ) → IsAround d R self → result ≡ outside d R (record { low = low; high = high }) }
    {
        low > self.to || high < self.from
    }
}

// Strikes the children that the ranges of a pivot show to be out of reach. All eight places are held against the ranges,
// also those that have no child, so that it is done without a branch for each.
pub fn strike(
    struck: &mut [bool; 8],
    branch: &Branch,
    pivot: usize,
    distance: u32,
    reach: Option<u32>,
)
    requires pivot { pivot < branch.now.count }
    requires few { branch.now.count ≤ 8 }
    ensures { StruckMore branch.now pivot (seen distance reach) struck.old struck.new }
{
    let Some(radius) = reach else {
        return;
    };
    let band = Band::around(distance, radius);
    let low = &branch.low[pivot];
    let high = &branch.high[pivot];
    for child in 0..8 {
        struck[child] |= band.misses(low[child], high[child]);
    }
}
