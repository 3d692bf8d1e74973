// Faults of form, of lines and of settings.
use crate::said::*;

#[test]
fn lines_missing_or_left_over(rt: HostRuntime) {
    let right = [
        line(b"", 1),
        line(b"arm 2 4 1", 1),
        line(b"arm 2 4 1\n", 2),
        line(b"arm 2 4 1\nwalls 0", 2),
        line(b"arm 2 4 1\nwalls 0\n", 3),
        line(b"arm 2 4 1\nwalls 1\n", 3),
        line(b"arm 2 4 1\nwalls 0\ncalls 1\n", 4),
        line(b"arm 2 4 1\nwalls 0\ncalls 1\nd 1", 4),
        fine(b"arm 2 4 1\nwalls 0\ncalls 0\n"),
        line(b"arm 2 4 1\nwalls 0\ncalls 0\n\n", 4),
        line(b"arm 2 4 1\nwalls 0\ncalls 0\nd 1\n", 4),
        line(b"arm 2 4 1\nwalls 0\ncalls 0\n\0", 4),
    ];
    assert_eq!(rt; right, [true; 12]);
}

#[test]
fn words_of_line_1(rt: HostRuntime) {
    let right = [
        form(b"\n", 1, 1),
        form(b"Arm 2 4 1\n", 1, 1),
        form(b"arms 2 4 1\n", 1, 1),
        form(b" arm 2 4 1\n", 1, 1),
        form(b"arm  2 4 1\n", 1, 2),
        form(b"arm 02 4 1\n", 1, 2),
        form(b"arm 2 x 1\n", 1, 3),
        form(b"arm 1048577 4 1\n", 1, 2),
        form(b"arm 2 1048577 1\n", 1, 3),
        form(b"arm 2 4 1048577\n", 1, 4),
        form(b"arm 2 4\n", 1, 4),
        form(b"arm 2 4 1\r\n", 1, 4),
        form(b"arm 2 4 1 \n", 1, 5),
        form(b"card 2 4 1 7\n", 1, 5),
        form(b"arm 2 4 99999999999999999999999\n", 1, 4),
    ];
    assert_eq!(rt; right, [true; 15]);
}

#[test]
fn settings_once_line_1_has_its_form(rt: HostRuntime) {
    let right = [
        setting(b"arm 1 4 1\n", 1),
        setting(b"arm 9 4 1\n", 9),
        setting(b"arm 4 3 9\n", 3),
        setting(b"arm 8 33 8\n", 33),
        setting(b"arm 5 0 1\n", 0),
        setting(b"arm 0 1 1\n", 0),
        setting(b"card 0 0 0\n", 0),
        setting(b"card 0 0 9\nwalls x\n", 9),
        setting(b"card 1 1048576 9\n\xff\n", 1),
        form(b"arm 1 4 1 1\n", 1, 5),
        fine(b"arm 2 2 1\nwalls 0\ncalls 0\n"),
        fine(b"card 8 32 8\nwalls 0\ncalls 0\n"),
        fine(b"card 0 0 8\nwalls 0\ncalls 0\n"),
    ];
    assert_eq!(rt; right, [true; 13]);
}

#[test]
fn words_of_sections(rt: HostRuntime) {
    let right = [
        form(b"arm 2 4 1\nwalls\n", 2, 2),
        form(b"arm 2 4 1\nwall 0\n", 2, 1),
        form(b"arm 2 4 1\n0\n", 2, 1),
        form(b"arm 2 4 1\nwalls 00\n", 2, 2),
        form(b"arm 2 4 1\nwalls 65\n", 2, 2),
        form(b"arm 2 4 1\nwalls 0 0\n", 2, 3),
        form(b"arm 2 4 1\nwalls 0\nCalls 0\n", 3, 1),
        form(b"arm 2 4 1\nwalls 0\ncalls 513\n", 3, 2),
        form(b"card 2 4 1\nwalls 1\n255 0 0 0 0 0 0 256\n", 3, 8),
        form(b"card 2 4 1\nwalls 1\n255 0 0 0 0 0 0\n", 3, 8),
        form(b"card 2 4 1\nwalls 1\ncalls 0\n", 3, 1),
        form(
            b"arm 2 4 1\nwalls 1\n8 4 0 4096 0 4095 0 4095 0 4095 0 4095\n",
            3,
            4,
        ),
        form(
            b"arm 2 4 1\nwalls 1\n8 4 0 4095 0 4095 0 4095 0 4095 0 4095 0\n",
            3,
            13,
        ),
    ];
    assert_eq!(rt; right, [true; 13]);
}

#[test]
fn words_of_calls(rt: HostRuntime) {
    let right = [
        form(b"arm 0 0 1\nwalls 0\ncalls 1\n\n", 4, 1),
        form(b"arm 0 0 1\nwalls 0\ncalls 1\nA 0 0 0 0 0 0\n", 4, 1),
        form(b"arm 0 0 1\nwalls 0\ncalls 1\naa 0 0 0 0 0 0\n", 4, 1),
        form(b"arm 0 0 1\nwalls 0\ncalls 1\nb 1\n", 4, 1),
        form(b"arm 0 0 1\nwalls 0\ncalls 1\n1 1\n", 4, 1),
        form(b"arm 0 0 1\nwalls 0\ncalls 1\na 4096 0 0 0 0 0\n", 4, 2),
        form(b"arm 0 0 1\nwalls 0\ncalls 1\na 4095 0 0 0 0\n", 4, 7),
        form(b"arm 0 0 1\nwalls 0\ncalls 1\nd 65536\n", 4, 2),
        form(
            b"arm 0 0 1\nwalls 0\ncalls 1\nn 1048577 0 0 0 0 0 0\n",
            4,
            2,
        ),
        form(
            b"arm 0 0 1\nwalls 0\ncalls 1\nw 1048577 0 0 0 0 0 0\n",
            4,
            2,
        ),
        form(b"arm 0 0 1\nwalls 0\ncalls 1\nw 1 0 0 0 0 0 0 0\n", 4, 9),
        form(b"arm 0 0 1\nwalls 0\ncalls 1\ni 65536\n", 4, 2),
        form(b"arm 0 0 1\nwalls 0\ncalls 1\ni \n", 4, 2),
        form(b"arm 0 0 1\nwalls 0\ncalls 1\nr 65536 1\n", 4, 2),
        form(b"arm 0 0 1\nwalls 0\ncalls 1\nr 1 65536\n", 4, 3),
        form(
            b"card 0 0 1\nwalls 0\ncalls 1\na 255 0 0 0 0 0 0 256\n",
            4,
            9,
        ),
        form(b"card 0 0 1\nwalls 0\ncalls 2\nd 1 1\nx\n", 4, 3),
    ];
    assert_eq!(rt; right, [true; 17]);
}
