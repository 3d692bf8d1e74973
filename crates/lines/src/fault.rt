// Why a level file is refused.
ghost use Rattle.std.specs.Prelude.{◌≡◌};
ghost use Rattle.lines.specs.declared.fault.ReadFault.TheVariants.{Setting};
ghost use Rattle.lines.specs.Faults.{at_line_of};

use index::refusal::Refusal;
use words::Misplaced;

#[derive(Clone, Copy, Debug, PartialEq)]
pub enum ReadFault {
    // Over 65,536 bytes.
    TooLong,
    // A line is not of its form: the line and its first wrong, missing or surplus word.
    Form { line: usize, word: usize },
    // A line is missing or left over.
    Line { line: usize },
    // A setting is refused.
    Setting { line: usize, refusal: Refusal },
}

// Settings stand in line 1 only.
impl From<Refusal> for ReadFault {
    ghost from_gives = { λ e r. r ≡ Setting 1 e };

    fn from(refusal: Refusal) -> ReadFault {
        ReadFault::Setting { line: 1, refusal }
    }
}

// What was read of a line, with the line's number in its fault.
pub fn at_line<T>(line: usize, read: Result<T, Misplaced>) -> Result<T, ReadFault>
    ensures { result ≡ at_line_of line read }
{
    read.map_err(|Misplaced(word)| ReadFault::Form { line, word })
}
