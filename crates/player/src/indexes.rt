// The index that line 1 of a level asks for.
ghost use Rattle.std.specs.Prelude.{◌≡◌, map, length};
ghost use Rattle.history_theory.specs.History.{start};
ghost use Rattle.play_theory.specs.Answering.{set_call, Answered};
ghost use Rattle.player.specs.Calls.{line_call, blank_lists, told_calls, calls_end};

use crate::calls::{OutputFull, play_on};
use checker::Checker;
use gnat::gnat::Gnat;
use lines::calls::CallLine;
use lines::header::Header;
use metric::Metric;
use scan::scan::Scan;

// Makes the calls on a roadmap over 64 rows: those of a GNAT if the header has a tree, and else those of a scan.
pub fn play_with<E: Metric, C: Checker<E> + Copy>(
    header: &Header,
    plain: &mut [scan::rows::Row<E>],
    tree: &mut [gnat_rows::Row<E>],
    checker: C,
    lines: &[CallLine<E>],
    out: &mut [u8],
) -> Result<usize, OutputFull>
    requires { (length plain.old ≡ 64) × (length tree.old ≡ 64) }
    ensures { Answered E.Metric.dist (start header.now.k 64) (map (λ line. set_call C.Checker.passes (line_call line checker)) lines.now) blank_lists 0 0 out.old (told_calls result) (calls_end result out.new) out.new }
{
    match header.tree {
        Some(settings) => play_on(Gnat::new(tree, settings), header.k, checker, lines, out),
        None => play_on(Scan::new(plain), header.k, checker, lines, out),
    }
}
