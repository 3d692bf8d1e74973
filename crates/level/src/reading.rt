// Reading a level file.
ghost use Rattle.std.specs.Prelude.{◌≡◌};
ghost use Rattle.level_theory.specs.Reading.{reading};
ghost use Rattle.level.specs.Levels.{told_read};

use crate::level::AnyLevel;
use crate::reader::Reader;
use arm::Arm;
use card::Card;
use lines::fault::ReadFault;
use lines::first::read_header;
use lines::header::Kind;
use words::cut;

// The level that the bytes write, or their first fault. All lines are read before anything is done
// with the level.
pub fn read(bytes: &[u8]) -> Result<AnyLevel, ReadFault>
    ensures { told_read result ≡ reading bytes.now }
{
    if bytes.len() > 65536 {
        return Err(ReadFault::TooLong);
    }
    let Some((line, rest)) = cut(bytes, b'\n') else {
        return Err(ReadFault::Line { line: 1 });
    };
    let (kind, header) = read_header(line)?;
    match kind {
        Kind::Arms => {
            let mut reader = Reader::<Arm>::start(header);
            reader.read_rest(rest)?;
            Ok(AnyLevel::Arms(reader.level))
        }
        Kind::Cards => {
            let mut reader = Reader::<Card>::start(header);
            reader.read_rest(rest)?;
            Ok(AnyLevel::Cards(reader.level))
        }
    }
}
