// Rings whose corners were found by hand. No contract tells where a ring begins, nor which comes first: here each begins with its first
// dart in the list, and they come in the order of these.
use crate::Rings;
use crate::errors::RingsError;
use crate::rings::rings_along;
use exact_plane::Point;
use std::alloc::Global;
use std::test::Fail;

type At = (i128, i128);

// Two squares of side 1 that touch at (1, 1), by source, then by target.
const TOUCHING: [(At, At); 8] = [
    ((0, 0), (1, 0)),
    ((0, 1), (0, 0)),
    ((1, 0), (1, 1)),
    ((1, 1), (0, 1)),
    ((1, 1), (2, 1)),
    ((1, 2), (1, 1)),
    ((2, 1), (2, 2)),
    ((2, 2), (1, 2)),
];

// A square of side 6 without two squares that touch at (2, 2).
const HOLED: [(At, At); 12] = [
    ((0, 0), (6, 0)),
    ((0, 6), (0, 0)),
    ((1, 1), (1, 2)),
    ((1, 2), (2, 2)),
    ((2, 1), (1, 1)),
    ((2, 2), (2, 1)),
    ((2, 2), (2, 3)),
    ((2, 3), (3, 3)),
    ((3, 2), (2, 2)),
    ((3, 3), (3, 2)),
    ((6, 0), (6, 6)),
    ((6, 6), (0, 6)),
];

// A square of side 4 without two triangles that have their least corner at (1, 1) both.
const FANNED: [(At, At); 10] = [
    ((0, 0), (4, 0)),
    ((0, 4), (0, 0)),
    ((1, 1), (1, 3)),
    ((1, 1), (2, 2)),
    ((1, 3), (2, 3)),
    ((2, 1), (1, 1)),
    ((2, 2), (2, 1)),
    ((2, 3), (1, 1)),
    ((4, 0), (4, 4)),
    ((4, 4), (0, 4)),
];

// Two squares, each without a smaller one, the second within what the first is without.
const NESTED: [(At, At); 16] = [
    ((0, 0), (8, 0)),
    ((0, 8), (0, 0)),
    ((1, 1), (1, 7)),
    ((1, 7), (7, 7)),
    ((2, 2), (6, 2)),
    ((2, 6), (2, 2)),
    ((3, 3), (3, 5)),
    ((3, 5), (5, 5)),
    ((5, 3), (3, 3)),
    ((5, 5), (5, 3)),
    ((6, 2), (6, 6)),
    ((6, 6), (2, 6)),
    ((7, 1), (1, 1)),
    ((7, 7), (7, 1)),
    ((8, 0), (8, 8)),
    ((8, 8), (0, 8)),
];

fn point(at: At) -> Result<Point, Fail> {
    let (x, y) = at;
    Ok(Point::new(x, y, 1)?)
}

fn darts_of(alloc: Global, ends: &[(At, At)]) -> Result<Vec<(Point, Point)>, Fail> {
    let mut darts = Vec::new(alloc);
    for (source, target) in ends {
        darts.push((point(*source)?, point(*target)?))?;
    }
    Ok(darts)
}

fn rings_by(alloc: Global, ends: &[(At, At)]) -> Result<Rings, Fail> {
    let darts = darts_of(alloc, ends)?;
    Ok(rings_along(alloc, &darts)?)
}

fn is_refused(alloc: Global, ends: &[(At, At)]) -> Result<bool, Fail> {
    let darts = darts_of(alloc, ends)?;
    match rings_along(alloc, &darts) {
        Ok(_) => Ok(false),
        Err(error) => Ok(error == RingsError::NotClosed),
    }
}

// Whether the ring has these corners, in this order, and is a hole where one is wanted.
fn is_ring(rings: &Rings, ring: usize, corners: &[At], is_hole: bool) -> Result<bool, Fail> {
    if rings.len() <= ring || rings.is_hole(ring) != is_hole {
        return Ok(false);
    }
    let found = rings.ring(ring);
    for (corner, wanted) in found.iter().zip(corners) {
        if *corner != point(*wanted)? {
            return Ok(false);
        }
    }
    Ok(found.len() == corners.len())
}

// Whether the ring has this least corner, and is a hole in an outer ring with that one, or an outer ring where none is wanted.
fn lies_in(rings: &Rings, ring: usize, least: At, outer: Option<At>) -> Result<bool, Fail> {
    if rings.len() <= ring || rings.least_corner(ring) != point(least)? {
        return Ok(false);
    }
    match (rings.outer_of(ring), outer) {
        (Some(found), Some(corner)) => {
            Ok(rings.is_hole(ring) && rings.least_corner(found) == point(corner)?)
        }
        (None, None) => Ok(!rings.is_hole(ring)),
        _ => Ok(false),
    }
}

#[test]
fn squares_that_touch_are_two_rings(rt: HostRuntime) -> Result<(), Fail> {
    let rings = rings_by(rt.alloc(), &TOUCHING)?;
    assert_eq!(rt; rings.len(), 2);
    assert!(rt; is_ring(&rings, 0, &[(0, 0), (1, 0), (1, 1), (0, 1)], false)?);
    assert!(rt; is_ring(&rings, 1, &[(1, 1), (2, 1), (2, 2), (1, 2)], false)?);
    Ok(())
}

// What is inside goes through between them, so that their boundary is one: it touches itself.
#[test]
fn holes_that_touch_are_one_ring(rt: HostRuntime) -> Result<(), Fail> {
    let rings = rings_by(rt.alloc(), &HOLED)?;
    let hole = [
        (1, 1),
        (1, 2),
        (2, 2),
        (2, 3),
        (3, 3),
        (3, 2),
        (2, 2),
        (2, 1),
    ];
    assert_eq!(rt; rings.len(), 2);
    assert!(rt; is_ring(&rings, 0, &[(0, 0), (6, 0), (6, 6), (0, 6)], false)?);
    assert!(rt; is_ring(&rings, 1, &hole, true)?);
    Ok(())
}

// It passes its least corner twice, and turns wide there once.
#[test]
fn a_hole_may_touch_itself_at_its_least_corner(rt: HostRuntime) -> Result<(), Fail> {
    let rings = rings_by(rt.alloc(), &FANNED)?;
    let hole = [(1, 1), (1, 3), (2, 3), (1, 1), (2, 2), (2, 1)];
    assert_eq!(rt; rings.len(), 2);
    assert!(rt; is_ring(&rings, 1, &hole, true)?);
    Ok(())
}

#[test]
fn holes_are_told_their_outer_rings(rt: HostRuntime) -> Result<(), Fail> {
    let rings = rings_by(rt.alloc(), &NESTED)?;
    assert_eq!(rt; rings.len(), 4);
    assert!(rt; lies_in(&rings, 0, (0, 0), None)?);
    assert!(rt; lies_in(&rings, 1, (1, 1), Some((0, 0)))?);
    assert!(rt; lies_in(&rings, 2, (2, 2), None)?);
    assert!(rt; lies_in(&rings, 3, (3, 3), Some((2, 2)))?);

    let holed = rings_by(rt.alloc(), &HOLED)?;
    assert!(rt; lies_in(&holed, 1, (1, 1), Some((0, 0)))?);
    Ok(())
}

#[test]
fn nothing_has_no_ring(rt: HostRuntime) -> Result<(), Fail> {
    let rings = rings_by(rt.alloc(), &[])?;
    assert!(rt; rings.is_empty());
    Ok(())
}

// Both lead in one direction from each of their ends.
#[test]
fn a_dart_and_its_twin_are_refused(rt: HostRuntime) -> Result<(), Fail> {
    assert!(rt; is_refused(rt.alloc(), &[((0, 0), (1, 0)), ((1, 0), (0, 0))])?);
    Ok(())
}

#[test]
fn a_way_that_ends_is_refused(rt: HostRuntime) -> Result<(), Fail> {
    assert!(rt; is_refused(rt.alloc(), &[((0, 0), (1, 0)), ((1, 0), (1, 1))])?);
    Ok(())
}
