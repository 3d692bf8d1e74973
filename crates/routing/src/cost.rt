// What a chain costs.
ghost use Rattle.std.specs.Prelude.{◌≡◌, ◌+◌, ◌<◌};
ghost use Rattle.routing.specs.Ranks.{onward, lowers};

/// The length of a chain and the count of its steps. The shorter chain costs less, and of equally
/// long ones that of fewer steps: the derived order. Both have 32 bits, so that a cost is copied as one word.
#[derive(Clone, Copy, PartialEq, Eq, PartialOrd, Ord)]
pub struct Cost {
    pub length: u32,
    pub steps: u32,
}

impl Cost {
    /// The cost of a chain that goes one step, so far, and then on by a chain of this cost.
    pub fn onward(self, apart: u32) -> Cost
        requires { (self.length + apart < 4294967296) × (self.steps + 1 < 4294967296) }
        ensures { result ≡ onward self apart }
    {
        Cost {
            length: self.length + apart,
            steps: self.steps + 1,
        }
    }

    /// Whether this is less than a cost that is known; where none is, it is.
    pub fn lowers(self, known: Option<Cost>) -> bool
        ensures { result ≡ lowers self known }
    {
        let Some(known) = known else {
            return true;
        };
        self < known
    }
}
