use crate::layers::calls::{Call, are_right};
use crate::layers::edits::{Answer, Edit, Under};
use crate::layers::pieces::Part;
use crate::layers::scribe::Scribe;
use arrangement::{AttachError, Observer};
use mirror_observer::Mirror;
use no_memory::NoMemory;
use slab_laws::CurveId;
use std::alloc::Global;
use std::test::Fail;

const LAST_NUMBER: [Call; 2] = [
    Call::Makes(Edit::Insert(0, 0, 1, 0), Answer::Drawn(4294967295)),
    Call::Makes(Edit::Insert(0, 0, 2, 0), Answer::Spent),
];

const LIMITS: [Call; 8] = [
    Call::Makes(Edit::Insert(0, 0, 6, 0), Answer::Drawn(4294967294)),
    Call::Makes(Edit::Insert(0, 0, 6, 0), Answer::Drawn(4294967295)),
    Call::Makes(Edit::Insert(0, 0, 6, 0), Answer::Full(2)),
    Call::Makes(Edit::Pin(2), Answer::Done),
    Call::Makes(Edit::Pin(2), Answer::Pinned),
    Call::Makes(Edit::Pin(4), Answer::Done),
    Call::Makes(Edit::Pin(5), Answer::Full(2)),
    Call::Makes(Edit::Unpin(5), Answer::NotPinned),
];

// An edge inside two pieces can't go where that makes a piece too many.
const REMOVALS: [Call; 13] = [
    Call::Makes(Edit::Insert(0, 0, 6, 0), Answer::Drawn(4294967294)),
    Call::Makes(Edit::Insert(0, 0, 6, 0), Answer::Drawn(4294967295)),
    Call::Makes(Edit::Pin(2), Answer::Done),
    Call::Makes(Edit::Pin(4), Answer::Done),
    Call::Makes(Edit::RemoveEdge(2, 4), Answer::Full(3)),
    Call::HasCurves(2, 4, &[CurveId(4294967294), CurveId(4294967295)]),
    Call::Counts([4, 3, 1, 1, 0, 2]),
    Call::Makes(Edit::RemoveEdge(0, 2), Answer::Done),
    Call::HasCurves(0, 2, &[]),
    Call::Makes(Edit::RemoveCurve(4294967294), Answer::Done),
    Call::HasCurves(2, 4, &[CurveId(4294967295)]),
    Call::IsUnknown(4294967294),
    Call::Makes(Edit::Insert(0, 0, 6, 0), Answer::Spent),
];

const PINNED_EDGE: [Call; 3] = [
    Call::Makes(Edit::Insert(0, 0, 4, 0), Answer::Drawn(1)),
    Call::Makes(Edit::Pin(1), Answer::Done),
    Call::KeepsNames(Edit::Insert(2, -1, 2, 1), Answer::Drawn(2)),
];

// One segment begins and ends inside an edge of the other; that edge goes in two, and is one again.
const OVERLAPS: [Call; 20] = [
    Call::Makes(Edit::Insert(0, 0, 6, 0), Answer::Drawn(1)),
    Call::Makes(Edit::Insert(2, 0, 4, 0), Answer::Drawn(2)),
    Call::HasCurves(4, 2, &[CurveId(1), CurveId(2)]),
    Call::HasCurves(0, 2, &[CurveId(1)]),
    Call::HasCurves(0, 4, &[]),
    Call::HasEdge(2, 2, 4),
    Call::IsUnknown(3),
    Call::Counts([4, 3, 1, 1, 0, 2]),
    Call::LiesIn(3, 2, 4),
    Call::Makes(Edit::SplitEdge(2, 6, 3), Answer::NoEdge),
    Call::Makes(Edit::SplitEdge(2, 4, 5), Answer::NotInside),
    Call::Makes(Edit::SplitEdge(2, 4, 3), Answer::Done),
    Call::HasCurves(3, 4, &[CurveId(1), CurveId(2)]),
    Call::Makes(Edit::MergeEdge(3), Answer::Done),
    Call::HasEdge(2, 2, 4),
    Call::Makes(Edit::MergeEdge(3), Answer::NoVertex),
    Call::Makes(Edit::MergeEdge(2), Answer::NotMergeable),
    Call::Makes(Edit::RemoveCurve(3), Answer::Unknown),
    Call::Makes(Edit::Clear, Answer::Done),
    Call::Counts([0, 0, 1, 0, 0, 0]),
];

// The second side goes back over the first one, so its edge has two sides of the curve, and the point where it ends is a vertex.
const FOLD: [Call; 8] = [
    Call::Makes(
        Edit::InsertPath(&[(0, 0), (4, 0), (1, 0)]),
        Answer::Drawn(1),
    ),
    Call::Counts([3, 2, 1, 1, 0, 1]),
    Call::HasCurves(0, 1, &[CurveId(1)]),
    Call::HasCurves(1, 4, &[CurveId(1)]),
    Call::Makes(Edit::MergeEdge(1), Answer::NotMergeable),
    Call::Makes(Edit::RemoveEdge(1, 4), Answer::Done),
    Call::HasEdge(1, 0, 1),
    Call::Counts([2, 1, 1, 1, 0, 1]),
];

// The first and the last side cross, and there a vertex is.
const BOW_TIE: [Call; 6] = [
    Call::Makes(
        Edit::InsertPath(&[(0, 0), (2, 2), (2, 0), (0, 2)]),
        Answer::Drawn(1),
    ),
    Call::Counts([5, 5, 2, 1, 0, 1]),
    Call::Makes(Edit::InsertPath(&[(0, 0), (2, 2)]), Answer::Drawn(2)),
    Call::Counts([5, 5, 2, 1, 0, 2]),
    Call::Makes(Edit::RemoveCurve(1), Answer::Done),
    Call::Counts([2, 1, 1, 1, 0, 1]),
];

// Each side is a piece, and the pieces are no more than three.
const SIDES: [Call; 6] = [
    Call::Makes(
        Edit::InsertPath(&[(0, 0), (1, 0), (2, 0), (3, 0), (4, 0)]),
        Answer::Full(3),
    ),
    Call::Makes(
        Edit::InsertPath(&[(0, 0), (1, 0), (2, 0), (3, 0)]),
        Answer::Drawn(4294967294),
    ),
    Call::Makes(Edit::Insert(0, 0, 1, 0), Answer::Full(3)),
    Call::Makes(Edit::RemoveCurve(4294967294), Answer::Done),
    Call::Makes(
        Edit::InsertPath(&[(0, 0), (1, 0), (2, 0)]),
        Answer::Drawn(4294967295),
    ),
    Call::Makes(Edit::InsertPath(&[(0, 0), (1, 0)]), Answer::Spent),
];

// A cut leaves two pieces of the long curve, or takes one of them, in place of what was there; a curve that is dropped takes its own.
const PIECES: [Call; 15] = [
    Call::Makes(Edit::Insert(0, 0, 6, 0), Answer::Drawn(1)),
    Call::Makes(Edit::Insert(2, -2, 2, 2), Answer::Drawn(2)),
    Call::Makes(Edit::Insert(4, -2, 4, 2), Answer::Drawn(3)),
    Call::HasPieces(&[
        Part(1, (0, 0), (6, 0)),
        Part(2, (2, -2), (2, 2)),
        Part(3, (4, -2), (4, 2)),
    ]),
    Call::Makes(Edit::RemoveEdge(4, 2), Answer::Done),
    Call::HasPieces(&[
        Part(1, (0, 0), (2, 0)),
        Part(1, (4, 0), (6, 0)),
        Part(2, (2, -2), (2, 2)),
        Part(3, (4, -2), (4, 2)),
    ]),
    Call::Makes(Edit::RemoveCurve(2), Answer::Done),
    Call::HasPieces(&[
        Part(1, (0, 0), (2, 0)),
        Part(1, (4, 0), (6, 0)),
        Part(3, (4, -2), (4, 2)),
    ]),
    Call::Makes(Edit::Insert(1, 1, 3, 1), Answer::Drawn(4)),
    Call::Makes(Edit::RemoveEdge(0, 2), Answer::Done),
    Call::HasPieces(&[
        Part(1, (4, 0), (6, 0)),
        Part(3, (4, -2), (4, 2)),
        Part(4, (1, 1), (3, 1)),
    ]),
    Call::Makes(Edit::RemoveCurve(1), Answer::Done),
    Call::HasPieces(&[Part(3, (4, -2), (4, 2)), Part(4, (1, 1), (3, 1))]),
    Call::Makes(Edit::Clear, Answer::Done),
    Call::HasPieces(&[]),
];

// Each with its limits and with what it shows.
const TABLES: [(&str, Under, &[Call]); 9] = [
    (
        "the last number is drawn once",
        Under::LastNumber,
        &LAST_NUMBER,
    ),
    ("limits are kept", Under::TwoCurves, &LIMITS),
    ("removals keep to the limits", Under::TwoCurves, &REMOVALS),
    (
        "names stay on an edge with a pin",
        Under::Script,
        &PINNED_EDGE,
    ),
    (
        "overlapping segments have both curves",
        Under::Script,
        &OVERLAPS,
    ),
    ("a path folds back", Under::Script, &FOLD),
    ("a path crosses itself", Under::Script, &BOW_TIE),
    ("sides are pieces", Under::TwoCurves, &SIDES),
    (
        "pieces keep their order under cuts and drops",
        Under::Script,
        &PIECES,
    ),
];

// What the first table shows that isn't so.
fn first_wrong(alloc: Global) -> Result<Option<&'static str>, Fail> {
    for (shown, under, calls) in &TABLES {
        if !are_right(alloc, *under, calls, Vec::new(alloc))? {
            return Ok(Some(*shown));
        }
    }
    Ok(None)
}

#[test]
fn an_arrangement_answers_as_each_table_says(rt: HostRuntime) -> Result<(), Fail> {
    assert_eq!(rt; first_wrong(rt.alloc())?, None);
    Ok(())
}

// Eight are seated, and the ninth is handed back until one has left; a name that is taken is refused first.
const EIGHT_SEATS: [Call; 15] = [
    Call::Comes(1),
    Call::Comes(2),
    Call::Comes(3),
    Call::Comes(4),
    Call::Comes(5),
    Call::Comes(6),
    Call::Comes(7),
    Call::Comes(8),
    Call::IsRefused(9, AttachError::Full(8)),
    Call::IsRefused(8, AttachError::Taken),
    Call::Leaves(9, false),
    Call::Leaves(3, true),
    Call::Reports(3, None),
    Call::Comes(9),
    Call::Reports(9, Some(b"arrangement 0 0 1\nf 0\nend\n")),
];

fn has_eight_seats(alloc: Global, mirrors: Vec<Box<dyn Observer>>) -> Result<bool, Fail> {
    are_right(alloc, Under::Script, &EIGHT_SEATS, mirrors)
}

fn mirror(alloc: Global) -> Result<Box<Mirror>, NoMemory> {
    Ok(Box::new(alloc, Mirror::new(alloc, None)?)?)
}

#[test]
fn nine_mirrors_want_eight_seats(rt: HostRuntime) -> Result<(), Fail> {
    let mut mirrors: Vec<Box<dyn Observer>> = Vec::new(rt.alloc());
    for _ in 0..9 {
        mirrors.push(mirror(rt.alloc())?)?;
    }
    assert!(rt; has_eight_seats(rt.alloc(), mirrors)?);
    Ok(())
}

// All eight edits, and each kind of step.
const STEPS: [Call; 13] = [
    Call::Makes(Edit::Insert(0, 0, 8, 0), Answer::Drawn(1)),
    Call::Comes(1),
    Call::Makes(Edit::Insert(4, 0, 4, 4), Answer::Drawn(2)),
    Call::Makes(Edit::Insert(0, 0, 8, 0), Answer::Drawn(3)),
    Call::Makes(Edit::RemoveCurve(3), Answer::Done),
    Call::Makes(Edit::Pin(2), Answer::Done),
    Call::Makes(Edit::SplitEdge(4, 8, 6), Answer::Done),
    Call::Makes(Edit::MergeEdge(6), Answer::Done),
    Call::Makes(Edit::RemoveEdge(2, 4), Answer::Done),
    Call::Makes(Edit::Unpin(2), Answer::Done),
    Call::Makes(Edit::RemoveCurve(2), Answer::Done),
    Call::Makes(Edit::Clear, Answer::Done),
    Call::Reports(
        1,
        Some(
            b"#s008040.v44.e4044.+0040.+4080.-0040.-4080.s004020.p20.s408060.p60.u60.m60.d2040.u20.d4044.x44.c.",
        ),
    ),
];

fn writes_each_step(alloc: Global, scribes: Vec<Box<dyn Observer>>) -> Result<bool, Fail> {
    are_right(alloc, Under::Script, &STEPS, scribes)
}

#[test]
fn an_observer_is_told_each_step(rt: HostRuntime) -> Result<(), Fail> {
    let mut scribes: Vec<Box<dyn Observer>> = Vec::new(rt.alloc());
    scribes.push(Box::new(rt.alloc(), Scribe::new(rt.alloc()))?)?;
    assert!(rt; writes_each_step(rt.alloc(), scribes)?);
    Ok(())
}
