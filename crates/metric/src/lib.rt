// A kind of element: a distance with its laws, and the length of a path of elements.
#![tactic(auto)]

ghost use Rattle.std.specs.Prelude.{◌≡◌, ℕ};
ghost use Rattle.metric.specs.Laws.{MetricLaws};
ghost use Rattle.metric.specs.Paths.{measured};

// The distance of two elements is a whole number. The ghost members say what it means and
// what bounds it, and `laws` is each kind's proof that it is lawful.
pub trait Metric: Copy {
    ghost dist: { Self → Self → ℕ };

    // The constant of this name, as a clause reads it.
    ghost GREATEST: { ℕ };

    ghost laws: { MetricLaws GREATEST dist };

    // No distance exceeds it, and it is at most 1,048,576.
    const GREATEST: u32;

    fn distance(&self, other: &Self) -> u32
        ensures { result ≡ dist self.now other.now };

    fn greatest_distance() -> u32
        ensures { result ≡ GREATEST }
    {
        Self::GREATEST
    }
}

// How long a path of elements is: the sum of its steps. A path has at most 1,024 elements, and
// the laws then keep the sum within 32 bits; a longer one has no answer.
pub fn path_length<M: Metric>(path: &[M]) -> Option<u32>
    ensures { result ≡ measured M.dist path.now }
{
    if path.len() > 1024 {
        return None;
    }
    let mut total = 0;
    for step in path.windows(2) {
        total += step[0].distance(&step[1]);
    }
    Some(total)
}
