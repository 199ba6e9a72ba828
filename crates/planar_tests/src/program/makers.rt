use script_maker::{LINE_ROOM, Maker};

// Whether this line comes next.
fn comes_next(maker: &mut Maker, line: &[u8]) -> bool {
    let mut buffer = [0; LINE_ROOM];
    match maker.next_line(&mut buffer) {
        Some(length) => &buffer[..length] == line,
        None => false,
    }
}

// A checksum of bytes that goes on from another one.
fn checksum(sum: u32, bytes: &[u8]) -> u32 {
    bytes.iter().fold(sum, |sum, byte| {
        sum.wrapping_mul(31).wrapping_add(u32::from(*byte))
    })
}

// The checksum of so many lines, each with byte 10 at its end.
fn lines_checksum(maker: &mut Maker, lines: u32) -> u32 {
    let mut buffer = [0; LINE_ROOM];
    let mut sum = 0;
    for _ in 0..lines {
        if let Some(length) = maker.next_line(&mut buffer) {
            sum = checksum(checksum(sum, &buffer[..length]), b"\n");
        }
    }
    sum
}

#[test]
fn a_script_of_two_segments(rt: HostRuntime) {
    let mut maker = Maker::new(2, 1);
    assert!(rt; comes_next(&mut maker, b"segment 454 -10626 1351 -10519"));
    assert!(rt; comes_next(&mut maker, b"segment 14667 -10757 14125 -10506"));
    assert!(rt; comes_next(&mut maker, b"count"));
    let mut buffer = [0; LINE_ROOM];
    assert!(rt; maker.next_line(&mut buffer).is_none());
    assert!(rt; maker.next_line(&mut buffer).is_none());
}

#[test]
fn every_eighth_segment_is_followed_by_a_drop(rt: HostRuntime) {
    let mut maker = Maker::new(8, 4294967295);
    let mut buffer = [0; LINE_ROOM];
    for _ in 0..7 {
        assert!(rt; maker.next_line(&mut buffer).is_some());
    }
    assert!(rt; comes_next(&mut maker, b"segment 12223 1971 12424 1200"));
    assert!(rt; comes_next(&mut maker, b"drop 4"));
    assert!(rt; comes_next(&mut maker, b"count"));
}

// Both values are those of another program's lines.
#[test]
fn the_first_four_hundred_lines_of_seed_seven(rt: HostRuntime) {
    let mut maker = Maker::new(2000, 7);
    assert!(rt; lines_checksum(&mut maker, 399) == 1384431622);
    assert!(rt; comes_next(&mut maker, b"segment 14773 5587 13968 5515"));
}
