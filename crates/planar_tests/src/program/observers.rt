use crate::program::guests::{Guest, status_with};
use crate::program::scripts::{
    DIVIDER, FENCE, ISLANDS, PARTED, Told, after_replies, are_replies, script_of,
};
use outside::{MemorySink, MemorySource};
use planar_run::Status;
use std::alloc::Global;
use std::test::Fail;

// What is shown, by these observers, by lines that come first and by others.
type Row = (
    &'static str,
    &'static [Guest],
    &'static [Told],
    &'static [Told],
);

// One after the other, with a mirror that stays and hears everything.
const LAST_NOTE: [Told; 11] = [
    ("attach 1", "ok\n"),
    ("attach 2", "ok\n"),
    ("pin 0 0 1", "ok left 1\n"),
    ("mirror 1", "refused 16\n"),
    ("attach 1", "refused 14\n"),
    ("attach 1 at 3", "refused 14\n"),
    ("leave 1", "refused 16\n"),
    ("layer blue", "ok\n"),
    ("attach 1", "refused 14\n"),
    ("mirror 2", ONE_PIN),
    ("show", "arrangement 0 0 1\nf 0\nend\n"),
];

const ONE_PIN: &str = "arrangement 1 0 1\nv 1 0 0 1 pin :\nf 0\np 1\nend\n";

// One that finds no memory for a snapshot at once waits on; in a round it is lost, and hasn't joined.
const NO_SNAPSHOT: [Told; 11] = [
    ("attach 2", "ok\n"),
    ("attach 1", "no memory\n"),
    ("mirror 1", "refused 16\n"),
    ("attach 1", "no memory\n"),
    ("attach 1 at 2", "ok\n"),
    ("pin 0 0 1", "ok lost 1\n"),
    ("attach 1", "refused 14\n"),
    ("leave 1", "refused 16\n"),
    ("show", ONE_PIN),
    ("mirror 2", ONE_PIN),
    ("count", "counts 1 0 1 0 1 0\n"),
];

// A report for which there is no memory changes nothing.
const NO_REPORT: [Told; 10] = [
    ("attach 1", "ok\n"),
    ("attach 2", "ok\n"),
    ("mirror 1", "no memory\n"),
    ("pin 0 0 1", "ok\n"),
    ("mirror 1", "no memory\n"),
    ("show", ONE_PIN),
    ("mirror 2", ONE_PIN),
    ("attach 1", "refused 15\n"),
    ("leave 1", "ok\n"),
    ("mirror 1", "refused 16\n"),
];

// One that fades at a note of its second edit; its report is of no bytes.
const FADES: [Told; 8] = [
    ("attach 1", "ok\n"),
    ("mirror 1", ""),
    ("pin 0 0 1", "ok\n"),
    ("mirror 1", ""),
    ("unpin 0 0 1", "ok lost 1\n"),
    ("mirror 1", "refused 16\n"),
    ("attach 1", "refused 14\n"),
    ("show", "arrangement 0 0 1\nf 0\nend\n"),
];

// All eight go in the round before a change; a ninth comes, and another in the same place after it.
const ALL_GO_BEFORE: [Told; 15] = [
    ("attach 1", "ok\n"),
    ("attach 2", "ok\n"),
    ("attach 3", "ok\n"),
    ("attach 4 at 1", "ok\n"),
    ("attach 5", "ok\n"),
    ("attach 6", "ok\n"),
    ("attach 7", "ok\n"),
    ("attach 8 at 1", "ok\n"),
    ("attach 9", "refused 17\n"),
    ("leave 5 at 1", "ok\n"),
    ("leave 6 at 1", "ok\n"),
    (
        "pin 0 0 1",
        "ok left 1 left 5 left 6 left 7 lost 2 lost 3 lost 4 lost 8\n",
    ),
    ("attach 9", "ok\n"),
    ("mirror 9", ONE_PIN),
    ("show", ONE_PIN),
];

// All eight go in the round after it.
const ALL_GO_AFTER: [Told; 15] = [
    ("attach 1", "ok\n"),
    ("attach 2", "ok\n"),
    ("attach 3", "ok\n"),
    ("attach 4 at 2", "ok\n"),
    ("attach 5", "ok\n"),
    ("attach 6", "ok\n"),
    ("attach 7", "ok\n"),
    ("attach 8 at 2", "ok\n"),
    ("attach 9", "refused 17\n"),
    ("leave 5 at 2", "ok\n"),
    ("leave 6 at 2", "ok\n"),
    (
        "pin 0 0 1",
        "ok left 1 left 5 left 6 left 7 lost 2 lost 3 lost 4 lost 8\n",
    ),
    ("attach 9", "ok\n"),
    ("mirror 9", ONE_PIN),
    ("show", ONE_PIN),
];

const SEATS: [Told; 11] = [
    ("attach 1", "ok\n"),
    ("attach 2", "ok\n"),
    ("attach 3 at 2", "ok\n"),
    ("attach 4", "ok\n"),
    ("attach 5", "ok\n"),
    ("attach 6", "ok\n"),
    ("attach 7", "ok\n"),
    ("attach 8 at 1", "ok\n"),
    ("attach 9", "refused 17\n"),
    ("attach 10", "refused 14\n"),
    ("clear", "ok joined 3 joined 8\n"),
];

const LAYERS: [Told; 20] = [
    ("attach 1", "ok\n"),
    ("attach 2", "ok\n"),
    ("attach 3 at 2", "ok\n"),
    ("attach 4", "ok\n"),
    ("attach 5", "ok\n"),
    ("attach 6", "ok\n"),
    ("attach 7", "ok\n"),
    ("attach 8", "ok\n"),
    ("attach 9", "refused 17\n"),
    ("layer blue", "ok\n"),
    ("attach 9", "ok\n"),
    ("attach 8", "refused 15\n"),
    ("leave 8", "ok\n"),
    ("attach 10", "refused 14\n"),
    ("layer red", "ok\n"),
    ("attach 9", "refused 15\n"),
    ("attach 3", "refused 15\n"),
    ("leave 9", "ok\n"),
    ("mirror 9", "refused 16\n"),
    ("mirror 7", "arrangement 0 0 1\nf 0\nend\n"),
];

// Eight observers, of which six come or go in the six rounds of the divider.
const COMPANY: [Guest; 8] = [
    Guest::Mirror(0),
    Guest::Mirror(2),
    Guest::Fading(3),
    Guest::Mirror(0),
    Guest::Mirror(0),
    Guest::Mirror(0),
    Guest::Fading(1),
    Guest::Mirror(0),
];

const DIVIDED: [Told; 17] = [
    ("attach 1", "ok\n"),
    ("attach 8", "ok\n"),
    ("attach 2", "ok\n"),
    ("attach 3", "ok\n"),
    ("attach 4 at 4", "ok\n"),
    ("attach 5", "ok\n"),
    ("leave 5 at 5", "ok\n"),
    ("attach 6 at 6", "ok\n"),
    ("attach 7", "ok\n"),
    (
        DIVIDER,
        "ok 11 joined 4 joined 6 left 2 left 5 lost 3 lost 7\n",
    ),
    ("show", PARTED),
    ("mirror 1", PARTED),
    ("mirror 4", PARTED),
    ("mirror 6", PARTED),
    ("mirror 8", PARTED),
    ("attach 7", "refused 14\n"),
    ("mirror 3", "refused 16\n"),
];

const ROWS: [Row; 9] = [
    (
        "a last note",
        &[Guest::Mirror(3), Guest::Mirror(0)],
        &[],
        &LAST_NOTE,
    ),
    (
        "no memory for a snapshot",
        &[Guest::Deaf, Guest::Mirror(0)],
        &[],
        &NO_SNAPSHOT,
    ),
    (
        "no memory for a report",
        &[Guest::Mute, Guest::Mirror(0)],
        &[],
        &NO_REPORT,
    ),
    ("no memory for a note", &[Guest::Fading(6)], &[], &FADES),
    (
        "all go before a change",
        &[
            Guest::Mirror(1),
            Guest::Fading(1),
            Guest::Fading(1),
            Guest::Deaf,
            Guest::Mirror(0),
            Guest::Fading(9),
            Guest::Mirror(1),
            Guest::Deaf,
            Guest::Mirror(0),
        ],
        &[],
        &ALL_GO_BEFORE,
    ),
    (
        "all go after a change",
        &[
            Guest::Mirror(2),
            Guest::Fading(2),
            Guest::Fading(2),
            Guest::Deaf,
            Guest::Mirror(0),
            Guest::Fading(9),
            Guest::Mirror(2),
            Guest::Deaf,
            Guest::Mirror(0),
        ],
        &[],
        &ALL_GO_AFTER,
    ),
    ("eight seats", &[Guest::Mirror(0); 9], &[], &SEATS),
    (
        "eight seats in each layer",
        &[Guest::Mirror(0); 9],
        &[],
        &LAYERS,
    ),
    ("eight in six rounds", &COMPANY, &ISLANDS, &DIVIDED),
];

// A mirror that leaves after so many notes, 0 for never, lines before the divider, and what the divider is answered: it makes six rounds.
const ROUNDS: [(u64, &str, &str); 21] = [
    (1, "attach 1", "ok 11 left 1\n"),
    (2, "attach 1", "ok 11 left 1\n"),
    (3, "attach 1", "ok 11 left 1\n"),
    (4, "attach 1", "ok 11 left 1\n"),
    (5, "attach 1", "ok 11 left 1\n"),
    (6, "attach 1", "ok 11 left 1\n"),
    (7, "attach 1", "ok 11\n"),
    (0, "attach 1 at 1", "ok 11 joined 1\n"),
    (0, "attach 1 at 2", "ok 11 joined 1\n"),
    (0, "attach 1 at 3", "ok 11 joined 1\n"),
    (0, "attach 1 at 4", "ok 11 joined 1\n"),
    (0, "attach 1 at 5", "ok 11 joined 1\n"),
    (0, "attach 1 at 6", "ok 11 joined 1\n"),
    (0, "attach 1 at 7", "ok 11\n"),
    (0, "attach 1\nleave 1 at 1", "ok 11 left 1\n"),
    (0, "attach 1\nleave 1 at 2", "ok 11 left 1\n"),
    (0, "attach 1\nleave 1 at 3", "ok 11 left 1\n"),
    (0, "attach 1\nleave 1 at 4", "ok 11 left 1\n"),
    (0, "attach 1\nleave 1 at 5", "ok 11 left 1\n"),
    (0, "attach 1\nleave 1 at 6", "ok 11 left 1\n"),
    (0, "attach 1\nleave 1 at 7", "ok 11\n"),
];

// The replies to a script, which is run to its end, with these observers.
fn replies_with(alloc: Global, guests: &[Guest], script: Vec<u8>) -> Result<Vec<u8>, Fail> {
    let words = [String::from_str(alloc, "planar")?];
    let mut source = MemorySource::new(script, 4096, Vec::new(alloc));
    let mut sink = MemorySink::new(alloc, 20_000, 1000, Vec::new(alloc))?;
    let status = status_with(alloc, &words, &mut source, &mut sink, guests)?;
    if status != Status::Done {
        return Ok(Vec::new(alloc));
    }
    Ok(Vec::from_slice(alloc, sink.taken())?)
}

/// Whether each line is answered by its reply, with these observers.
fn is_answered(
    alloc: Global,
    guests: &[Guest],
    before: &[Told],
    lines: &[Told],
) -> Result<bool, Fail> {
    let script = script_of(alloc, before, lines)?;
    let replies = replies_with(alloc, guests, script)?;
    Ok(are_replies(&replies, before, lines, usize::MAX))
}

// What the rows show that isn't so.
fn first_wrong(alloc: Global) -> Result<Option<&'static str>, Fail> {
    for (shown, guests, before, lines) in &ROWS {
        if !is_answered(alloc, guests, before, lines)? {
            return Ok(Some(*shown));
        }
    }
    Ok(None)
}

#[test]
fn observers_go_as_each_row_says(rt: HostRuntime) -> Result<(), Fail> {
    assert_eq!(rt; first_wrong(rt.alloc())?, None);
    Ok(())
}

// Whether the divider, behind these lines, is answered so, with one mirror.
fn is_divided_so(alloc: Global, left: u64, lines: &str, reply: &str) -> Result<bool, Fail> {
    let mut script = script_of(alloc, &ISLANDS, &[])?;
    for line in [lines, DIVIDER] {
        script.extend_from_slice(line.as_bytes())?;
        script.push(b'\n')?;
    }
    let replies = replies_with(alloc, &[Guest::Mirror(left)], script)?;
    match replies.strip_suffix(reply.as_bytes()) {
        Some(rest) => Ok(rest.ends_with(b"ok\n")),
        None => Ok(false),
    }
}

#[test]
fn each_round_is_counted(rt: HostRuntime) -> Result<(), Fail> {
    for (left, lines, reply) in &ROUNDS {
        let right = is_divided_so(rt.alloc(), *left, lines, reply)?;
        assert!(rt; right, "after {lines}, {left} notes");
    }
    Ok(())
}

// An edit of forty steps along the fence, with one observer that fades and a mirror; then what it is.
const EDIT: &str = "attach 1\nattach 2\nsegment 0 0 20 0\ncount\nshow\nmirror 2\n";

// Whether the edit is made whole where the first observer is lost at its note of this number, or isn't.
fn is_made_whole(alloc: Global, k: u64, reply: &str) -> Result<bool, Fail> {
    let mut script = script_of(alloc, &FENCE, &[])?;
    script.extend_from_slice(EDIT.as_bytes())?;
    let replies = replies_with(alloc, &[Guest::Fading(k), Guest::Mirror(0)], script)?;
    match after_replies(&replies, &FENCE, &[], usize::MAX) {
        Some(rest) => Ok(are_shown_twice(rest, reply)),
        None => Ok(false),
    }
}

// Whether the replies to the edit begin so, and the mirror's report is what is shown.
fn are_shown_twice(replies: &[u8], reply: &str) -> bool {
    match replies.strip_prefix(reply.as_bytes()) {
        Some(rest) => {
            let (shown, report) = rest.split_at(rest.len() / 2);
            !shown.is_empty() && shown == report
        }
        None => false,
    }
}

#[test]
fn an_edit_of_forty_steps_is_made_whole(rt: HostRuntime) -> Result<(), Fail> {
    for k in 1..82 {
        let lost = "ok\nok\nok 20 lost 1\ncounts 59 58 1 1 0 20\n";
        let stays = "ok\nok\nok 20\ncounts 59 58 1 1 0 20\n";
        let right = is_made_whole(rt.alloc(), k, if k > 80 { stays } else { lost })?;
        assert!(rt; right, "lost at note {k}");
    }
    Ok(())
}
