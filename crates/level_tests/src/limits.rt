// Files as long as they may be, and longer.
use crate::said::*;
use lines::fault::ReadFault;
use std::alloc::{AllocError, Global};
use std::test::Fail;

// A text with a line in it so many times.
fn repeated(
    heap: Global,
    head: &[u8],
    line: &[u8],
    times: usize,
    tail: &[u8],
) -> Result<Vec<u8>, AllocError> {
    let mut text = Vec::new(heap);
    text.extend_from_slice(head)?;
    for _ in 0..times {
        text.extend_from_slice(line)?;
    }
    text.extend_from_slice(tail)?;
    Ok(text)
}

#[test]
fn each_limit_itself(rt: HostRuntime) {
    assert_eq!(rt;
        counts(
            b"arm 2 4 1\nwalls 1\n8 4 0 4095 0 4095 0 4095 0 4095 0 4095\ncalls 9\na 0 0 0 0 0 0\na 4 0 0 0 0 0\na 20 0 0 0 0 0\nn 2 12 0 0 0 0 0\nr 1 2\nr 1 3\nd 2\ni 3\nw 512 12 0 0 0 0 0\n",
        ),
        Some((1, 9))
    );
    assert_eq!(rt;
        counts(
            b"card 0 0 8\nwalls 1\n255 255 255 255 255 255 255 255\ncalls 4\na 255 0 0 0 0 0 0 255\nn 1048576 0 0 0 0 0 0 0 0\nd 65535\nr 0 65535\n",
        ),
        Some((1, 4))
    );
    assert!(rt; fine(b"arm 0 0 1\nwalls 0\ncalls 1\na 4095 4095 4095 4095 4095 4095\n"));
}

#[test]
fn walls_and_calls(rt: HostRuntime) -> Result<(), Fail> {
    let wall = b"0 0 0 0 0 0 0 255\n";
    let most = repeated(
        rt.alloc(),
        b"card 2 4 1\nwalls 64\n",
        wall,
        64,
        b"calls 0\n",
    )?;
    assert_eq!(rt; counts(&most), Some((64, 0)));
    let lacking = repeated(
        rt.alloc(),
        b"card 2 4 1\nwalls 64\n",
        wall,
        63,
        b"calls 0\n",
    )?;
    assert!(rt; form(&lacking, 66, 1));
    let over = repeated(
        rt.alloc(),
        b"card 2 4 1\nwalls 64\n",
        wall,
        65,
        b"calls 0\n",
    )?;
    assert!(rt; form(&over, 67, 1));
    let calls = repeated(
        rt.alloc(),
        b"card 2 4 1\nwalls 0\ncalls 512\n",
        b"d 1\n",
        512,
        b"",
    )?;
    assert_eq!(rt; counts(&calls), Some((0, 512)));
    let left = repeated(
        rt.alloc(),
        b"card 2 4 1\nwalls 0\ncalls 512\n",
        b"d 1\n",
        513,
        b"",
    )?;
    assert!(rt; line(&left, 516));
    Ok(())
}

#[test]
fn bytes(rt: HostRuntime) -> Result<(), Fail> {
    let most = repeated(rt.alloc(), b"card 2 4 1", b" ", 65525, b"\n")?;
    assert_eq!(rt; most.len(), 65536);
    assert!(rt; form(&most, 1, 5));
    let over = repeated(rt.alloc(), b"card 2 4 1", b" ", 65526, b"\n")?;
    assert!(rt; fault(&over) == Some(ReadFault::TooLong));
    Ok(())
}
