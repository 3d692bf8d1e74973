// Levels played into outputs that are too small.
use play::{PlayFault, play};
use player::calls::OutputFull;

// Its answers are 18 bytes long.
const LEVEL: &[u8] =
    b"arm 2 4 1\nwalls 1\n8 4 0 4095 0 4095 0 4095 0 4095 0 4095\ncalls 3\na 0 0 0 0 0 0\na 4 0 0 0 0 0\na 20 0 0 0 0 0\n";

fn full(lines: usize) -> Result<usize, PlayFault> {
    Err(PlayFault::Output(OutputFull(lines)))
}

#[test]
fn room_for_all_lines(rt: HostRuntime) {
    let mut out = [b'.'; 18];
    assert_eq!(rt; play(LEVEL, &mut out), Ok(18));
    assert_eq!(rt; out, *b"a 1 0\na 2 1\na 3 0\n");
}

// The two whole lines stand, and nothing is written behind them.
#[test]
fn room_for_two_lines_and_a_bit(rt: HostRuntime) {
    let mut out = [b'.'; 17];
    assert_eq!(rt; play(LEVEL, &mut out), full(2));
    assert_eq!(rt; out, *b"a 1 0\na 2 1\n.....");
}

#[test]
fn no_room(rt: HostRuntime) {
    assert_eq!(rt; play(LEVEL, &mut []), full(0));
    assert_eq!(rt; PlayFault::Output(OutputFull(0)).figures(), (11, 0, 0));
}
