// What a call may refuse, with the figures that belong to the refusal.
ghost use Rattle.std.specs.Prelude.{◌≡◌};
ghost use Rattle.index.specs.Outcomes.{number_of, told, room_outcome};

use std::fmt;

#[derive(Clone, Copy, Debug, PartialEq)]
pub enum Refusal {
    // A degree, bucket or neighbour count outside its range: the first bad value.
    Setting(u32),
    // A hit count of 0 or beyond the list's length.
    HitCount,
    // As many samples stand as the capacity allows.
    Full,
    // The last number that can be given was given.
    NumbersUsedUp,
    // No sample stands under this number.
    NotStanding(u16),
    // No chain of edges joins the two ends.
    NotJoined,
    // The list is shorter than the chain: the places needed.
    ShortList(u16),
}

impl Refusal {
    // The number by which the refusal is known. Outputs show it, so it is written out here.
    pub fn number(&self) -> u8
        ensures { result ≡ number_of self.now }
    {
        match self {
            Refusal::Setting(_) => 1,
            Refusal::HitCount => 2,
            Refusal::Full => 3,
            Refusal::NumbersUsedUp => 4,
            Refusal::NotStanding(_) => 5,
            Refusal::NotJoined => 6,
            Refusal::ShortList(_) => 7,
        }
    }
}

// Whether an index with this tally can take one more sample. Want of room comes before want of numbers.
pub fn room(capacity: usize, standing: usize, last: u16) -> Result<(), Refusal>
    ensures { told result ≡ room_outcome capacity standing last }
{
    if standing == capacity {
        return Err(Refusal::Full);
    }
    if last == 65535 {
        return Err(Refusal::NumbersUsedUp);
    }
    Ok(())
}

// The refusal in plain words, with its figures.
impl fmt::Display for Refusal {
    fn fmt<W: fmt::Write>(&self, f: &mut fmt::Formatter<W>) -> fmt::Result {
        match self {
            Refusal::Setting(value) => write!(f, "a setting of {value} is outside its range"),
            Refusal::HitCount => write!(f, "the hit count is 0 or beyond the list"),
            Refusal::Full => write!(f, "the index is full"),
            Refusal::NumbersUsedUp => write!(f, "the numbers are used up"),
            Refusal::NotStanding(number) => write!(f, "sample {number} does not stand"),
            Refusal::NotJoined => write!(f, "no chain of edges joins the two ends"),
            Refusal::ShortList(places) => write!(
                f,
                "the list is too short: the chain needs {places} places"
            ),
        }
    }
}
