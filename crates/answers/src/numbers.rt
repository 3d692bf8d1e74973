// The numbers of an answer line.
ghost use Rattle.std.specs.Prelude.{◌≡◌, ◌+◌, ◌*◌, ◌≤◌, ◌++◌, length, take};
ghost use Rattle.answers.specs.Listing.{hit_numbers};

use arrayvec::ArrayVec;
use hits::Hit;

// Pushes the number and the distance of each of the first `count` hits.
pub(crate) fn push_hits(numbers: &mut ArrayVec<usize, 66>, hits: &[Hit], count: usize)
    requires { length numbers.old.items + 2 * length hits.now ≤ 66 }
    ensures { numbers.new.items ≡ numbers.old.items ++ hit_numbers (take count hits.now) }
{
    for hit in &hits[..count.min(hits.len())] {
        numbers.push(usize::from(hit.number));
        numbers.push(hit.distance as usize);
    }
}

// Pushes the first `count` numbers of a list.
pub(crate) fn push_list(numbers: &mut ArrayVec<usize, 66>, list: &[u16], count: usize)
    requires { length numbers.old.items + length list.now ≤ 66 }
    ensures { numbers.new.items ≡ numbers.old.items ++ take count list.now }
{
    for number in &list[..count.min(list.len())] {
        numbers.push(usize::from(*number));
    }
}
