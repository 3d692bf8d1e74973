// Levels of arms and of cards, each with its checker.
ghost use Rattle.std.specs.Prelude.{◌≡◌, ◌≤◌, map, length};
ghost use Rattle.history_theory.specs.History.{start};
ghost use Rattle.level.specs.Levels.{level_shown};
ghost use Rattle.level_theory.specs.Levels.{arms, cards};
ghost use Rattle.play_theory.specs.Answering.{set_call, Answered};
ghost use Rattle.player.specs.Calls.{line_call, blank_lists, told_calls, calls_end};
ghost use Rattle.written.specs.Arms.{arm_numbers, wall_numbers};
ghost use Rattle.written.specs.Cards.{card_numbers, wall_numbers as card_wall_numbers};
ghost use Rattle.play.specs.Levels.{LevelAnswered};
ghost use Rattle.play.specs.Rows.{RowsFit};

use arm::Arm;
use arm_checkers::StepChecker;
use card::Card;
use card_checker::{CardWall, MixChecker};
use checker::Checker;
use level::Level;
use player::calls::OutputFull;
use player::indexes::play_with;
use walls::Wall;
use written::Written;

// A level whose pairs are put to a checker. The vacant element fills the rows of the roadmap's index.
fn play_level<K: Written, C: Checker<K> + Copy>(
    level: &Level<K, K::Wall>,
    vacant: K,
    checker: C,
    out: &mut [u8],
) -> Result<usize, OutputFull>
    requires { RowsFit K.row }
    ensures answered { Answered K.Metric.dist (start level.now.header.k 64) (map (λ line. set_call C.Checker.passes (line_call line checker)) level.now.calls.items) blank_lists 0 0 out.old (told_calls result) (calls_end result out.new) out.new }
    ensures few { length level.now.calls.items ≤ 512 }
{
    let mut plain = [scan::rows::Row::vacant(vacant); 64];
    let mut tree = [gnat_rows::Row::vacant(vacant); 64];
    let lines = level.calls.as_slice();
    play_with(&level.header, &mut plain, &mut tree, checker, lines, out)
}

// A level of arms: its pairs are put to Step over its walls.
pub(crate) fn play_arms(level: &Level<Arm, Wall>, out: &mut [u8]) -> Result<usize, OutputFull>
    ensures answered { LevelAnswered (level_shown arms arm_numbers wall_numbers level.now) out.old (told_calls result) (calls_end result out.new) out.new }
    ensures few { length level.now.calls.items ≤ 512 }
{
    let walls = level.walls.as_slice();
    play_level(level, Arm { angles: [0; 6] }, StepChecker { walls }, out)
}

// A level of cards: its pairs are put to Mix over its walls.
pub(crate) fn play_cards(level: &Level<Card, CardWall>, out: &mut [u8]) -> Result<usize, OutputFull>
    ensures answered { LevelAnswered (level_shown cards card_numbers card_wall_numbers level.now) out.old (told_calls result) (calls_end result out.new) out.new }
    ensures few { length level.now.calls.items ≤ 512 }
{
    let walls = level.walls.as_slice();
    play_level(level, Card { slots: [0; 8] }, MixChecker { walls }, out)
}
