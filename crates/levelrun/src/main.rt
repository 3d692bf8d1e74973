// Plays the level on standard input, and prints its answer lines. A level fault adds a last line.
#![tactic(auto)]

ghost use Rattle.std.specs.Prelude.{◌≤◌, length, IfOk};

use play::show;
use std::io;
use std::io::{Read, Write};

// Reads until the buffer is full or the input ends, and returns how much came. A library call that makes its own buffer
// could be refused the memory, and the program would then end otherwise than it promises.
fn read_all(input: &mut impl Read, buffer: &mut [u8]) -> io::Result<usize>
    ensures { IfOk result (λ n. n ≤ length buffer.old) }
{
    let mut got = 0;
    while got < buffer.len() {
        let n = input.read(&mut buffer[got..])?;
        if n == 0 {
            break;
        }
        got += n;
    }
    Ok(got)
}

fn main(rt: HostRuntime) -> io::Result<()> {
    // One byte more than a level may have, so that a longer one is seen.
    let mut level = [0u8; 65537];
    let mut out = [0u8; 65536];
    let mut line = [0u8; 32];
    let len = read_all(&mut rt.stdin(), &mut level)?;
    let (shown, fault) = show(&level[0..len], &mut out, &mut line);
    let mut stdout = rt.stdout();
    stdout.write_all(&out[0..shown])?;
    stdout.write_all(&line[0..fault])
}
