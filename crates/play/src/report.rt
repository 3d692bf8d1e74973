// How much of an output is to be shown.
ghost use Rattle.std.specs.Prelude.{◌≡◌, ◌≤◌, length};
ghost use Rattle.printing.specs.Outputs.{lines_length};
ghost use Rattle.play.specs.Reports.{printed_length};

use crate::fault::PlayFault;

// How long the first `lines` lines are, or all bytes if there are fewer. It stops within the text, as no sum does.
fn lines_len(out: &[u8], lines: usize) -> usize
    ensures { result ≡ lines_length lines out.now }
{
    let mut left = lines;
    for (i, byte) in out.iter().enumerate() {
        if left == 0 {
            return i;
        }
        if *byte == b'\n' {
            left -= 1;
        }
    }
    out.len()
}

// How many bytes of the output a play wrote: all of its lines, or the whole ones before the line that did not fit.
pub fn printed(played: &Result<usize, PlayFault>, out: &[u8]) -> usize
    ensures value { result ≡ printed_length played.now out.now }
    ensures within { result ≤ length out.now }
{
    match played {
        Ok(written) => (*written).min(out.len()),
        Err(PlayFault::Output(full)) => lines_len(out, full.0),
        Err(PlayFault::Reading(_)) => 0,
    }
}
