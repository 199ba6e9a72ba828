use crate::observers::calls::{Call, Turn, are_answered, is_listening, recorder_of};
use crate::observers::empty::EmptyPlane;
use crate::observers::listener::Listener;
use crate::observers::rounds::plane;
use arr_notes::Observer;
use observer_bus::AttachError;
use std::alloc::Global;
use std::test::Fail;

// A round before a change, and the one after it: told last (1), stays (2), left untold (3), joins (4), waits (5), lost (6), stays (7).
const BEFORE: [Call; 10] = [
    Call::Comes(1, 0, 1, 9),
    Call::Comes(2, 0, 0, 9),
    Call::Comes(3, 0, 0, 9),
    Call::Comes(4, 1, 0, 9),
    Call::Comes(5, 3, 0, 9),
    Call::Comes(6, 0, 0, 1),
    Call::Comes(7, 0, 0, 9),
    Call::Listens(8, 0),
    Call::Leaves(3, 1, true),
    Call::Edit(&[
        Turn::Before,
        Turn::Went(&[4], &[1, 3], &[6]),
        Turn::IsGone(1),
        Turn::Hears(2, b"sb"),
        Turn::IsGone(3),
        Turn::Hears(4, b"s"),
        Turn::IsGone(5),
        Turn::IsGone(6),
        Turn::Hears(7, b"sb"),
        // One that came before the change hears that it was made.
        Turn::After,
        Turn::Hears(2, b"sba"),
        Turn::Hears(4, b"sa"),
        Turn::IsGone(5),
        Turn::Hears(7, b"sba"),
        Turn::Hears(8, b"sba"),
        Turn::Went(&[4], &[1, 3], &[6]),
        Turn::Before,
        Turn::Hears(5, b"s"),
        Turn::Hears(2, b"sbab"),
        Turn::Went(&[4, 5], &[1, 3], &[6]),
    ]),
];

// A round after a change: lost (1), stays (2), joins (3), left untold (4), told last (5).
const AFTER: [Call; 7] = [
    Call::Comes(1, 0, 0, 2),
    Call::Comes(2, 0, 0, 9),
    Call::Comes(3, 2, 0, 9),
    Call::Comes(4, 0, 0, 9),
    Call::Comes(5, 0, 2, 9),
    Call::Leaves(4, 2, true),
    Call::Edit(&[
        Turn::Before,
        Turn::Went(&[], &[], &[]),
        Turn::After,
        Turn::Went(&[3], &[4, 5], &[1]),
        Turn::IsGone(1),
        Turn::Hears(2, b"sba"),
        Turn::Hears(3, b"s"),
        Turn::IsGone(4),
        Turn::IsGone(5),
        // One that came after the change begins with the next one.
        Turn::Before,
        Turn::Hears(3, b"sb"),
        Turn::Hears(2, b"sbab"),
    ]),
];

// Two that leave side by side, first and last, before a change and after it.
const SIDE_BY_SIDE: [Call; 6] = [
    Call::Comes(1, 0, 1, 9),
    Call::Comes(2, 0, 1, 9),
    Call::Comes(3, 0, 0, 9),
    Call::Comes(4, 0, 2, 9),
    Call::Comes(5, 0, 2, 9),
    Call::Edit(&[
        Turn::Before,
        Turn::Went(&[], &[1, 2], &[]),
        Turn::Hears(3, b"sb"),
        Turn::After,
        Turn::Went(&[], &[1, 2, 4, 5], &[]),
        Turn::Hears(3, b"sba"),
    ]),
];

// One that finds no memory for its snapshot is lost, and hasn't joined.
const WITHOUT_MEMORY: [Call; 3] = [
    Call::Comes(1, 1, 0, 0),
    Call::Comes(2, 0, 0, 9),
    Call::Edit(&[
        Turn::Before,
        Turn::Went(&[], &[], &[1]),
        Turn::Hears(2, b"sb"),
    ]),
];

// A round at which no join comes makes no snapshot, whatever becomes of its seats: told last (1), stays (2), left untold (3), waits (4),
// lost (5). One at which one comes does.
const SNAPSHOTS: [Call; 7] = [
    Call::Comes(1, 0, 1, 9),
    Call::Comes(2, 0, 0, 9),
    Call::Comes(3, 0, 0, 9),
    Call::Comes(4, 2, 0, 9),
    Call::Comes(5, 0, 0, 1),
    Call::Leaves(3, 1, true),
    Call::Edit(&[
        Turn::Looks(true),
        Turn::Before,
        Turn::Went(&[], &[1, 3], &[5]),
        Turn::Looks(false),
        Turn::After,
        Turn::Went(&[4], &[1, 3], &[5]),
        Turn::Looks(true),
        Turn::Before,
        Turn::After,
        Turn::Hears(2, b"sbaba"),
        Turn::Hears(4, b"sba"),
        Turn::Looks(false),
    ]),
];

// A second plan to leave takes the place of the first.
const SECOND_PLAN: [Call; 4] = [
    Call::Comes(1, 0, 0, 9),
    Call::Leaves(1, 1, true),
    Call::Leaves(1, 3, true),
    Call::Edit(&[
        Turn::Before,
        Turn::Hears(1, b"sb"),
        Turn::After,
        Turn::Hears(1, b"sba"),
        Turn::Before,
        Turn::IsGone(1),
        Turn::Went(&[], &[1], &[]),
    ]),
];

// A plan to join can't be given up. One that joined may leave in the next round; and each edit has its own names.
const JOINS_AND_LEAVES: [Call; 6] = [
    Call::Comes(1, 1, 0, 9),
    Call::Leaves(1, 0, false),
    Call::Leaves(2, 1, false),
    Call::Edit(&[
        Turn::Before,
        Turn::Hears(1, b"s"),
        Turn::Leaves(1, 1, true),
        Turn::After,
        Turn::IsGone(1),
        Turn::Went(&[1], &[1], &[]),
    ]),
    Call::Edit(&[Turn::Went(&[], &[], &[])]),
    Call::Comes(1, 0, 0, 9),
];

// Eight are full; a name that is taken is refused first, and a place that is emptied in a round is free.
const EIGHT: [Call; 13] = [
    Call::Comes(1, 0, 0, 9),
    Call::Comes(2, 0, 0, 9),
    Call::Comes(3, 0, 1, 9),
    Call::Comes(4, 0, 0, 9),
    Call::Comes(5, 0, 0, 9),
    Call::Comes(6, 0, 0, 9),
    Call::Comes(7, 0, 0, 9),
    Call::Comes(8, 7, 0, 9),
    Call::IsRefused(9, 0, AttachError::Full(8)),
    Call::IsRefused(8, 1, AttachError::Taken),
    Call::Edit(&[
        Turn::Before,
        Turn::Went(&[], &[3], &[]),
        Turn::Hears(4, b"sb"),
        Turn::Hears(7, b"sb"),
    ]),
    Call::Comes(9, 0, 0, 9),
    Call::Hears(9, b"s"),
];

const TABLES: [(&str, &[Call]); 8] = [
    ("each fate before a change", &BEFORE),
    ("each fate after a change", &AFTER),
    ("two that leave side by side", &SIDE_BY_SIDE),
    ("no memory", &WITHOUT_MEMORY),
    ("no snapshot", &SNAPSHOTS),
    ("a second plan", &SECOND_PLAN),
    ("joins and leaves", &JOINS_AND_LEAVES),
    ("eight seats", &EIGHT),
];

// Whether each call is answered as it has to be, by observers that come with them.
fn are_met(alloc: Global, plane: &EmptyPlane, calls: &[Call]) -> Result<bool, Fail> {
    let mut observers: Vec<Box<dyn Observer>> = Vec::new(alloc);
    for call in calls.iter().rev() {
        if is_listening(call) {
            observers.push(Box::new(alloc, Listener::new(alloc))?)?;
        }
        if let Some(recorder) = recorder_of(alloc, call) {
            observers.push(Box::new(alloc, recorder)?)?;
        }
    }
    are_answered(alloc, plane, calls, observers)
}

// What the first table shows that isn't so.
fn first_wrong(alloc: Global) -> Result<Option<&'static str>, Fail> {
    let plane = plane()?;
    for (shown, calls) in &TABLES {
        if !are_met(alloc, &plane, calls)? {
            return Ok(Some(*shown));
        }
    }
    Ok(None)
}

#[test]
fn a_bus_answers_as_each_table_says(rt: HostRuntime) -> Result<(), Fail> {
    assert_eq!(rt; first_wrong(rt.alloc())?, None);
    Ok(())
}
