// What is shown of a level file: its answer lines, and the line of its fault.
ghost use Rattle.std.specs.Prelude.{◌≤◌, length};
ghost use Rattle.play.specs.Showing.{Shown};

use crate::fault::put_fault;
use crate::playing::play;
use crate::report::printed;

// Plays the level that the bytes write. Returns how many bytes of the output, and then how many of the line, are to be
// shown. The line is a fault's; it always has room in 32 bytes.
pub fn show(bytes: &[u8], out: &mut [u8], line: &mut [u8; 32]) -> (usize, usize)
    ensures shown { Shown bytes.now out.old line.old result out.new line.new }
    ensures within { (result.0 ≤ length out.old) × (result.1 ≤ 32) }
{
    let played = play(bytes, out);
    let shown = printed(&played, out);
    let Err(fault) = played else {
        return (shown, 0);
    };
    let Some(end) = put_fault(&fault, line) else {
        unreachable()
    };
    (shown, end)
}
