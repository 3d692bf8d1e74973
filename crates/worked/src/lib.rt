// The worked values: examples at the edges of the rules, proved of the definitions that the
// contracts of the other crates cite.
#![tactic(auto)]

ghost use Rattle.std.specs.Prelude.{◌≡◌, length};
ghost use Rattle.worked.specs.Values.{EachHolds, values};

// Each worked value is what the definitions give. The answer is how many there are.
pub fn values_hold() -> usize
    ensures all { EachHolds values }
    ensures count { result ≡ length values }
{
    10
}
