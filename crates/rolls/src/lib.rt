// Numbers that look random, the same in every run.
#![tactic(auto)]

ghost use Rattle.std.specs.Prelude.{◌≡◌, ◌<◌};
ghost use Rattle.rolls.specs.Rolls.{state_after, rolled, rolled_below};

// A linear congruential row of numbers.
#[derive(Drop)]
pub struct Rolls {
    state: u32,
}

impl Rolls {
    pub fn new(seed: u32) -> Rolls
        ensures { result.state ≡ seed }
    {
        Rolls { state: seed }
    }

    // Any number below 65,536.
    pub fn next(&mut self) -> u32
        ensures value { result ≡ rolled self.old.state }
        ensures state { self.new.state ≡ state_after self.old.state }
        ensures bound { result < 65536 }
    {
        self.state = self.state.wrapping_mul(1664525).wrapping_add(1013904223);
        self.state >> 16
    }

    // A number below the limit, 0 if that is 0.
    pub fn below(&mut self, limit: u32) -> u32
        ensures value { result ≡ rolled_below limit self.old.state }
        ensures state { self.new.state ≡ state_after self.old.state }
        ensures bound { 0 < limit → result < limit }
    {
        let number = self.next();
        if limit == 0 { 0 } else { number % limit }
    }
}
