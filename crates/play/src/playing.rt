// Playing a level file.
ghost use Rattle.level_theory.specs.Accepting.{AcceptsExactly};
ghost use Rattle.level_theory.specs.Refusing.{RefusesExactly};
ghost use Rattle.play.specs.Faults.{told_play};
ghost use Rattle.play.specs.Levels.{Played, PlaysAlike};
ghost use Rattle.play.specs.Reports.{printed_length};
ghost use Rattle.play.specs.Showing.{FaultFits};

use crate::fault::PlayFault;
use crate::kinds::{play_arms, play_cards};
use level::{AnyLevel, read};

// Plays the level that the bytes write, and returns how many bytes of answer lines it wrote. A file that is no level
// writes nothing. If the next line exceeds the output, the whole lines before it stand.
pub fn play(bytes: &[u8], out: &mut [u8]) -> Result<usize, PlayFault>
    ensures answered { Played bytes.now out.old (told_play result) (printed_length result out.new) out.new }
    ensures accepted { AcceptsExactly bytes.now }
    ensures refused { RefusesExactly bytes.now }
    ensures alike { PlaysAlike bytes.now out.old (told_play result) (printed_length result out.new) out.new }
    ensures room { FaultFits result }
{
    match read(bytes)? {
        AnyLevel::Arms(level) => Ok(play_arms(&level, out)?),
        AnyLevel::Cards(level) => Ok(play_cards(&level, out)?),
    }
}
