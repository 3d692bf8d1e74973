// The lines behind the header, one after another.
ghost use Rattle.std.specs.Prelude.{◌≡◌, ◌≢◌, ℕ, ◌+◌, ◌≤◌, length};
ghost use Rattle.index.specs.Outcomes.{gives};
ghost use Rattle.level_theory.specs.Words.{words_of, pieces_of};
ghost use Rattle.level_theory.specs.Reading.{header_level, read_line, read_lines};
ghost use Rattle.words.specs.Cursors.{words_left};
ghost use Rattle.lines.specs.Settings.{header_numbers};
ghost use Rattle.level.specs.declared.stage.Stage.TheVariants.{WallCount, Walls, Calls, End};
ghost use Rattle.level.specs.Stages.{stage_shown, walls_yet, calls_yet};
ghost use Rattle.level.specs.Levels.{rest_told};

use crate::level::Level;
use crate::stage::{Stage, calls_to_come, walls_to_come};
use arrayvec::ArrayVec;
use lines::calls::call_line;
use lines::counts::{count_line, wall_line};
use lines::fault::{ReadFault, at_line};
use lines::header::Header;
use words::{Misplaced, Token, Words, cut};
use written::Written;

// The level so far. What may still come has room in it, and a section that is being read has lines left.
#[derive(Drop)]
pub(crate) struct Reader<K: Written> {
    pub(crate) level: Level<K, K::Wall>,
    stage: Stage,
    ghost walls_fit: { length level.walls.items + walls_yet stage ≤ 64 },
    ghost calls_fit: { length level.calls.items + calls_yet stage ≤ 512 },
    ghost some_left: { (stage ≢ Walls 0) × (stage ≢ Calls 0) },
}

impl<K: Written> Reader<K> {
    ghost use Rattle.level.specs.Readers.{level_read, shown_progress, line_told, line_read};

    // Nothing but the header is read.
    pub(crate) fn start(header: Header) -> Self
    where
        K::Wall: Default,
        ensures level { level_read result ≡ header_level K.kind (header_numbers header) }
        ensures header { result.level.header ≡ header }
        ensures stage { result.stage ≡ WallCount }
    {
        Reader {
            level: Level {
                header,
                walls: ArrayVec::new(),
                calls: ArrayVec::new(),
            },
            stage: Stage::WallCount,
        }
    }

    // Takes the words of the line that is wanted, which its first word has to fit.
    fn take_line(&mut self, words: &mut Words) -> Result<(), Misplaced>
        requires more { self.old.stage ≢ End }
        requires place { words.old.place ≡ 1 }
        ensures told { (line : ℕ) → line_told line result self.new ≡ read_line (stage_shown self.old.stage) line (level_read self.old) (words_left words.old) }
        ensures header { self.new.level.header ≡ self.old.level.header }
    {
        match (self.stage, words.peek()) {
            (Stage::WallCount, Token::Letters(_, _)) => {
                let count = count_line(words, b"walls", 64)?;
                self.stage = walls_to_come(count as usize);
                Ok(())
            }
            (Stage::Walls(left), Token::Digits(_, _)) => {
                let wall = wall_line::<K>(words)?;
                self.level.walls.push(wall);
                self.stage = walls_to_come(left - 1);
                Ok(())
            }
            (Stage::CallCount, Token::Letters(_, _)) => {
                let count = count_line(words, b"calls", 512)?;
                self.stage = calls_to_come(count as usize);
                Ok(())
            }
            (Stage::Calls(left), Token::Letters(_, _)) => {
                let call = call_line::<K>(words)?;
                self.level.calls.push(call);
                self.stage = calls_to_come(left - 1);
                Ok(())
            }
            (_, first) => Err(Misplaced(first.place())),
        }
    }

    // Reads a whole line. One that is not wanted is left over. That it is short is a fact of the slice, as at `Words::new`.
    fn read_line(&mut self, number: usize, line: &[u8]) -> Result<(), ReadFault>
        requires { length line.now ≤ 65536 }
        ensures told { line_read result self.new ≡ read_line (stage_shown self.old.stage) number (level_read self.old) (words_of line.now) }
        ensures header { self.new.level.header ≡ self.old.level.header }
    {
        if let Stage::End = self.stage {
            return Err(ReadFault::Line { line: number });
        }
        let mut words = Words::new(line);
        let taken = self.take_line(&mut words);
        at_line(number, taken)
    }

    // Reads the lines from the second on. The bound of the text is a fact of the slice, and so of each line that is cut off.
    pub(crate) fn read_rest(&mut self, text: &[u8]) -> Result<(), ReadFault>
        requires { length text.now ≤ 65536 }
        ensures told { rest_told K.kind K.listed K.bounds result self.new.level ≡ read_lines (gives (shown_progress self.old)) 2 (pieces_of text.now) }
        ensures header { self.new.level.header ≡ self.old.level.header }
    {
        let mut rest = text;
        let mut number = 2;
        while let Some((line, behind)) = cut(rest, b'\n') {
            self.read_line(number, line)?;
            rest = behind;
            number += 1;
        }
        if self.stage == Stage::End && rest.is_empty() {
            Ok(())
        } else {
            Err(ReadFault::Line { line: number })
        }
    }
}
