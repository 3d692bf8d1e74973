// An arc of the circle, of which 4,096 make a full turn.
ghost use Rattle.std.specs.Prelude.{◌≡◌, ◌<◌};
ghost use Rattle.turning.specs.Circle.{ahead};
ghost use Rattle.walls.specs.Arcs.{in_arc, meet};

// All angles from `start` up to `extent` farther on. Both are read as remainders by 4,096.
#[derive(Clone, Copy, Debug, Default, PartialEq)]
pub struct Arc {
    pub start: u16,
    pub extent: u16,
}

impl Arc {
    /// How far an angle lies ahead of the arc's start, going up: from 0 to 4,095.
    pub fn ahead(&self, angle: u16) -> u16
        ensures value { result ≡ ahead self.now.start angle }
        ensures round { result < 4096 }
    {
        (angle % 4096 + (4096 - self.start % 4096)) % 4096
    }

    // Whether an angle is in the arc.
    pub fn contains(&self, angle: u16) -> bool
        ensures { result ≡ in_arc self.now angle }
    {
        self.ahead(angle) <= self.extent % 4096
    }

    // Whether the arcs meet: one of them has the start of the other.
    pub fn meets(&self, other: &Arc) -> bool
        ensures { result ≡ meet self.now other.now }
    {
        self.contains(other.start) || other.contains(self.start)
    }
}
