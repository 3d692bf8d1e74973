// Lines of a word and numbers, written into an output.
#![tactic(auto)]

ghost use Rattle.std.specs.Prelude.{◌≡◌, ◌+◌, ◌^◌, ◌<◌, ◌≤◌, ◌∷◌, length, decimal, MatchOption, sum_by};
ghost use Rattle.printing.specs.Outputs.{written, word_line, put_outcome, put_leaves};

use itoa::Buffer;

/// Lent bytes, and how many of them are written.
#[derive(Drop)]
pub struct Output<'a> {
    bytes: &'a mut [u8],
    len: usize,
}

// How many digits the number has.
fn decimal_len(n: usize) -> usize
    ensures value { result ≡ length (decimal n) }
    ensures short { result ≤ 40 }
{
    let mut digits = Buffer::new();
    digits.format(n).len()
}

// How many bytes the numbers take, each with a space before it.
fn numbers_len(numbers: &[usize]) -> usize
    requires { sum_by (λ n. length (decimal n) + 1) numbers.now < 2 ^ 64 }
    ensures { result ≡ sum_by (λ n. length (decimal n) + 1) numbers.now }
{
    numbers.iter().map(|n| decimal_len(*n) + 1).sum()
}

// How long the line is, its newline counted in.
fn line_len(word: &[u8], numbers: &[usize]) -> usize
    requires { (length word.now ≤ 128) × (length numbers.now ≤ 128) }
    ensures { result ≡ length (word_line word.now numbers.now) }
{
    word.len() + numbers_len(numbers) + 1
}

impl<'a> Output<'a> {
    /// Nothing is written yet.
    pub fn new(bytes: &'a mut [u8]) -> Output<'a>
        ensures same_reference { result.bytes.ghost_name ≡ bytes.entry.ghost_name }
        ensures bytes { result.bytes.now ≡ bytes.old }
        ensures len { result.len ≡ 0 }
    {
        Output { bytes, len: 0 }
    }

    /// The first `len` bytes, whatever they are, count as written: the next line begins at `len`, which may be any
    /// number. Beyond the bytes no line fits.
    pub fn after(bytes: &'a mut [u8], len: usize) -> Output<'a>
        ensures same_reference { result.bytes.ghost_name ≡ bytes.entry.ghost_name }
        ensures bytes { result.bytes.now ≡ bytes.old }
        ensures len { result.len ≡ len }
    {
        Output { bytes, len }
    }

    // Writes bytes that have room.
    fn put(&mut self, bytes: &[u8])
        requires { self.old.len + length bytes.now ≤ length self.old.bytes.now }
        ensures same_reference { self.new.bytes.ghost_name ≡ self.old.bytes.ghost_name }
        ensures len { self.new.len ≡ self.old.len + length bytes.now }
        ensures after { self.new.bytes.now ≡ written self.old.bytes.now self.old.len bytes.now }
        ensures places { length self.new.bytes.now ≡ length self.old.bytes.now }
    {
        let start = self.len;
        let end = start + bytes.len();
        self.bytes[start..end].copy_from_slice(bytes);
        self.len = end;
    }

    // Writes a space and a number that have room.
    fn put_number(&mut self, n: usize)
        requires { self.old.len + length (32 ∷ decimal n) ≤ length self.old.bytes.now }
        ensures same_reference { self.new.bytes.ghost_name ≡ self.old.bytes.ghost_name }
        ensures len { self.new.len ≡ self.old.len + length (32 ∷ decimal n) }
        ensures after { self.new.bytes.now ≡ written self.old.bytes.now self.old.len (32 ∷ decimal n) }
        ensures places { length self.new.bytes.now ≡ length self.old.bytes.now }
    {
        let mut digits = Buffer::new();
        self.put(b" ");
        self.put(digits.format(n).as_bytes());
    }

    /// Writes a word and numbers, parted by spaces, as one line, and returns where it ends. A line that does not
    /// fit is not begun.
    pub fn put_line(&mut self, word: &[u8], numbers: &[usize]) -> Option<usize>
        requires { (length word.now ≤ 128) × (length numbers.now ≤ 128) }
        ensures same_reference { self.new.bytes.ghost_name ≡ self.old.bytes.ghost_name }
        ensures answer { result ≡ put_outcome (length self.old.bytes.now) self.old.len (word_line word.now numbers.now) }
        ensures len { MatchOption result (self.new.len ≡ self.old.len) (λ end. self.new.len ≡ end) }
        ensures leaves { self.new.bytes.now ≡ put_leaves self.old.bytes.now self.old.len (word_line word.now numbers.now) }
    {
        if self.bytes.len().saturating_sub(self.len) < line_len(word, numbers) {
            return None;
        }
        self.put(word);
        for n in numbers {
            self.put_number(*n);
        }
        self.put(b"\n");
        Some(self.len)
    }
}

/// Writes a word of at most 128 bytes and at most 128 numbers, parted by spaces, as one line from `at` on, and returns
/// where it ends. All else stays as it was. A line that does not fit is not begun, and beyond the bytes none fits.
pub fn put_line(out: &mut [u8], at: usize, word: &[u8], numbers: &[usize]) -> Option<usize>
    requires { (length word.now ≤ 128) × (length numbers.now ≤ 128) }
    ensures answer { result ≡ put_outcome (length out.old) at (word_line word.now numbers.now) }
    ensures leaves { out.new ≡ put_leaves out.old at (word_line word.now numbers.now) }
{
    Output::after(out, at).put_line(word, numbers)
}
