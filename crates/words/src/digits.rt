// The number that digits write.
ghost use Rattle.std.specs.Prelude.{◌≡◌, ◌<◌, true, length};
ghost use Rattle.level_theory.specs.Words.{digit, all_bytes, number_word};

// None with a needless leading zero or above the limit. It stops as soon as the limit is passed, so
// that no number of digits is too large. A loop: each step of a fold would have to check its sum.
pub(crate) fn value_of(digits: &[u8], limit: u32) -> Option<u32>
    requires some { 0 < length digits.now }
    requires digits { all_bytes digit digits.now ≡ true }
    ensures { result ≡ number_word limit digits.now }
{
    if digits.len() > 1 && digits[0] == b'0' {
        return None;
    }
    let mut value: u64 = 0;
    for b in digits {
        value = value * 10 + u64::from(*b - b'0');
        if value > u64::from(limit) {
            return None;
        }
    }
    Some(value as u32)
}
