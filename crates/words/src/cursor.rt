// A place among the words of a line.
ghost use Rattle.std.specs.Prelude.{◌+◌, ◌≤◌};
ghost use Rattle.words.specs.Rests.{room};

// The words that are left of a line of at most 65,536 bytes: `rest` holds them, if there are any,
// and the first of them stands at `place`, counted from 1.
#[derive(Clone, Copy, Debug)]
pub struct Words<'a> {
    pub(crate) rest: Option<&'a [u8]>,
    pub(crate) place: usize,
    ghost short: { place + room rest ≤ 65538 },
}

// The place of the first wrong, missing or surplus word.
#[derive(Clone, Copy, Debug, PartialEq)]
pub struct Misplaced(pub usize);
