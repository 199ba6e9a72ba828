ghost use Rattle.std.specs.Prelude.{◌<◌};

use crate::program::guests::{FOUR, status_with};
use crate::program::scripts::{
    CUTS, DIAGONALS, EQUAL, ISLANDS, JOINS, PARTING, PATHS, PINS, SQUARES, Told, are_replies,
    script_of,
};
use outside::{MemorySink, MemorySource, RepeatSource, Source};
use planar_run::Status;
use std::alloc::Global;
use std::test::Fail;

// The words of a command line: the program's name, and these behind it.
fn words_of(alloc: Global, behind: &[&str]) -> Result<Vec<String>, Fail> {
    let mut words = Vec::new(alloc);
    words.push(String::from_str(alloc, "planar")?)?;
    for word in behind {
        words.push(String::from_str(alloc, word)?)?;
    }
    Ok(words)
}

// How a script ends that the source gives, by the program's name alone, with four mirrors.
fn status_of<S: Source>(
    alloc: Global,
    source: &mut S,
    sink: &mut MemorySink,
) -> Result<Status, Fail> {
    let words = words_of(alloc, &[])?;
    status_with(alloc, &words, source, sink, &FOUR)
}

// The status and the replies of what the source gives, under these words, with four mirrors.
fn run_source<S: Source>(
    alloc: Global,
    behind: &[&str],
    source: &mut S,
) -> Result<(Status, Vec<u8>), Fail> {
    let words = words_of(alloc, behind)?;
    let mut sink = MemorySink::new(alloc, 200_000, 7, Vec::new(alloc))?;
    let status = status_with(alloc, &words, source, &mut sink, &FOUR)?;
    Ok((status, Vec::from_slice(alloc, sink.taken())?))
}

// A source of a script that comes in pieces, which fails at one call (0: at none).
fn source_of(alloc: Global, script: &[u8], piece: usize, fail: u64) -> Result<MemorySource, Fail>
    requires { 0 < piece }
{
    let bytes = Vec::from_slice(alloc, script)?;
    Ok(MemorySource::new(bytes, piece, vec![in alloc; fail]?))
}

// The status and the replies of a script that comes in pieces, over a source that fails at one call (0: at none).
fn run(
    alloc: Global,
    behind: &[&str],
    script: &[u8],
    piece: usize,
    fail: u64,
) -> Result<(Status, Vec<u8>), Fail>
    requires { 0 < piece }
{
    let mut source = source_of(alloc, script, piece, fail)?;
    run_source(alloc, behind, &mut source)
}

// Whether a script that comes in pieces of three bytes is run to its end and answered by just these replies.
fn is_answered(alloc: Global, script: &str, replies: &str) -> Result<bool, Fail> {
    let (status, taken) = run(alloc, &[], script.as_bytes(), 3, 0)?;
    Ok(status == Status::Done && taken.as_slice() == replies.as_bytes())
}

#[test]
fn a_script_comes_in_pieces(rt: HostRuntime) -> Result<(), Fail> {
    let script = "pin 3 0 2\npin -1 5 1\n\npin 4 -1 3\nshow\n# note";
    let replies =
        "ok\nok\nok\narrangement 3 0 1\nv 1 -1 5 1 pin :\nv 2 4 -1 3 pin :\nv 3 3 0 2 pin :\nf 0\np 1\np 2\np 3\nend\n";
    assert!(rt; is_answered(rt.alloc(), script, replies)?);
    assert!(rt; is_answered(rt.alloc(), "", "")?);
    Ok(())
}

// Scripts and the lengths of pieces in which they come.
const PIECES: [(&str, &[Told], &[Told], &[usize]); 7] = [
    ("two points", &PINS, &[], &[10]),
    ("curves along one edge", &EQUAL, &[], &[1, 2, 7, 4096]),
    (
        "a square with two holes",
        &ISLANDS,
        &PARTING,
        &[1, 2, 7, 4096],
    ),
    ("edges cut from two curves", &CUTS, &[], &[1, 2, 7, 4096]),
    ("paths", &PATHS, &[], &[1, 2, 7, 4096]),
    ("plans of observers", &JOINS, &[], &[1, 2, 7, 4096]),
    ("two layers", &SQUARES, &[], &[1, 2, 7, 4096]),
];

// The first call of the source whose failure isn't answered by the replies to the lines whose end came before it: one call gives each
// piece, and one more the end.
fn first_wrong_read(
    alloc: Global,
    first: &[Told],
    then: &[Told],
    piece: usize,
) -> Result<Option<u64>, Fail> {
    let script = script_of(alloc, first, then)?;
    let piece = piece.max(1);
    let calls = script.len().div_ceil(piece).saturating_add(1);
    let mut read: usize = 0;
    for call in 1..1000 {
        let (status, taken) = run(alloc, &[], &script, piece, call)?;
        let wanted = if call as usize > calls {
            Status::Done
        } else {
            Status::ReadFault
        };
        if status != wanted || !are_replies(&taken, first, then, read) {
            return Ok(Some(call));
        }
        if status == Status::Done {
            return Ok(None);
        }
        read = read.saturating_add(piece);
    }
    Ok(Some(0))
}

#[test]
fn a_read_that_fails_ends_the_run(rt: HostRuntime) -> Result<(), Fail> {
    for (shown, first, then, pieces) in &PIECES {
        for piece in *pieces {
            let wrong = first_wrong_read(rt.alloc(), first, then, *piece)?;
            assert!(rt; wrong.is_none(), "{shown}, in pieces of {piece}");
        }
    }
    Ok(())
}

#[test]
fn a_write_that_fails_ends_the_run(rt: HostRuntime) -> Result<(), Fail> {
    let alloc = rt.alloc();
    let mut source = source_of(alloc, b"show", 1, 0)?;
    let mut sink = MemorySink::new(alloc, 1000, 2, vec![in alloc; 2]?)?;
    assert!(rt; status_of(alloc, &mut source, &mut sink)? == Status::WriteFault);
    assert!(rt; sink.taken() == b"ar".as_slice());
    Ok(())
}

// The first call of the sink, which takes seven bytes at a time, whose failure isn't answered by status 4 and a front of the replies.
fn first_wrong_write(alloc: Global, script: &[u8], replies: &[u8]) -> Result<Option<u64>, Fail> {
    for call in 1..1000 {
        let mut source = source_of(alloc, script, 4096, 0)?;
        let mut sink = MemorySink::new(alloc, 1000, 7, vec![in alloc; call]?)?;
        let status = status_of(alloc, &mut source, &mut sink)?;
        if status == Status::Done && sink.taken() == replies {
            return Ok(None);
        }
        if status != Status::WriteFault || !replies.starts_with(sink.taken()) {
            return Ok(Some(call));
        }
    }
    Ok(Some(0))
}

#[test]
fn a_front_of_the_replies_is_written(rt: HostRuntime) -> Result<(), Fail> {
    let alloc = rt.alloc();
    let script = script_of(alloc, &DIAGONALS, &[])?;
    let mut replies = Vec::new(alloc);
    for (_, reply) in &DIAGONALS {
        replies.extend_from_slice(reply.as_bytes())?;
    }
    assert_eq!(rt; first_wrong_write(alloc, &script, &replies)?, None);
    Ok(())
}

const USAGE: &str =
    "usage: planar [--locate naive|walk|landmarks|trapezoid] [--make N] [--seed N]\n";

// Whether these words are answered by the usage line.
fn are_refused(alloc: Global, words: &[String]) -> Result<bool, Fail> {
    let mut source = RepeatSource::new(10, 5);
    let mut sink = MemorySink::new(alloc, 100, 100, Vec::new(alloc))?;
    let status = status_with(alloc, words, &mut source, &mut sink, &FOUR)?;
    Ok(status == Status::Usage && sink.taken() == USAGE.as_bytes())
}

#[test]
fn no_words_are_answered_by_the_usage_line(rt: HostRuntime) -> Result<(), Fail> {
    assert!(rt; are_refused(rt.alloc(), &[])?);
    Ok(())
}

// The source fails when it is read.
#[test]
fn made_scripts_ask_for_no_source(rt: HostRuntime) -> Result<(), Fail> {
    let (status, taken) = run(rt.alloc(), &["--make", "16", "--seed=7"], b"show\n", 1, 1)?;
    assert!(rt; status == Status::Done);
    assert!(rt; taken.as_slice() == b"counts 28 14 1 14 0 14\n".as_slice());
    Ok(())
}

#[test]
fn limits_are_kept(rt: HostRuntime) -> Result<(), Fail> {
    let rows: [(u8, u64, Status, &str); 8] = [
        (b'a', 201, Status::Done, "refused 1\n"),
        (b'a', 300, Status::Done, "refused 1\n"),
        (b'a', 301, Status::Done, "refused 5\n"),
        (200, 4, Status::Done, "refused 6\n"),
        (b'a', 1 << 26, Status::Done, "refused 5\n"),
        (b'a', (1 << 26) + 1, Status::TooLong, ""),
        (b'\n', 1 << 26, Status::Done, ""),
        (b'\n', (1 << 26) + 1, Status::TooLong, ""),
    ];
    for (byte, count, status, replies) in rows {
        let (ended, taken) = run_source(rt.alloc(), &[], &mut RepeatSource::new(byte, count))?;
        assert!(rt; ended == status, "at {count} times {byte}");
        assert!(rt;
            taken.as_slice() == replies.as_bytes(),
            "at {count} times {byte}"
        );
    }
    Ok(())
}

#[test]
fn statuses_have_their_exit_codes(rt: HostRuntime) {
    let rows = [
        (Status::Done, 0),
        (Status::Usage, 2),
        (Status::ReadFault, 3),
        (Status::WriteFault, 4),
        (Status::NoMemory, 5),
        (Status::TooLong, 6),
    ];
    for (status, code) in rows {
        assert!(rt; status.exit_code() == code);
    }
}
