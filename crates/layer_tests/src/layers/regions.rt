ghost use Rattle.arrangement.specs.Arranged.{arranged, IsWatched};

use crate::layers::edits::{Answer, Edit, Under, apply, at, layer_under};
use crate::shapes::Ends;
use arrangement::{Arrangement, Colour, Op, Region, RegionError, overlay, region_of};
use big_integers::BigInt;
use exact_plane::Point;
use region_rings::{Rings, rings_of};
use ring_areas::{Area, area_of_polygon, area_of_rings};
use std::alloc::Global;
use std::cmp::Ordering;
use std::test::Fail;

// Two squares, a corner of each in the other.
const RED: [Ends; 4] = [(0, 0, 4, 0), (4, 0, 4, 4), (4, 4, 0, 4), (0, 4, 0, 0)];

const BLUE: [Ends; 4] = [(2, 2, 6, 2), (6, 2, 6, 6), (6, 6, 2, 6), (2, 6, 2, 2)];

// A whole square once more, and a segment that hangs on it.
const TWICE: [Ends; 8] = [
    (0, 0, 4, 0),
    (4, 0, 4, 4),
    (4, 4, 0, 4),
    (0, 4, 0, 0),
    (0, 0, 4, 0),
    (4, 0, 4, 4),
    (4, 4, 0, 4),
    (0, 4, 0, 0),
];

const HANGING: [Ends; 1] = [(0, 0, 1, 0)];

const NOTHING: [Ends; 0] = [];

// Four squares within one another: two polygons, each with a hole, the second one within the hole of the first.
const NESTED: [Ends; 16] = [
    (0, 0, 8, 0),
    (8, 0, 8, 8),
    (8, 8, 0, 8),
    (0, 8, 0, 0),
    (1, 1, 7, 1),
    (7, 1, 7, 7),
    (7, 7, 1, 7),
    (1, 7, 1, 1),
    (2, 2, 6, 2),
    (6, 2, 6, 6),
    (6, 6, 2, 6),
    (2, 6, 2, 2),
    (3, 3, 5, 3),
    (5, 3, 5, 5),
    (5, 5, 3, 5),
    (3, 5, 3, 3),
];

// The least corners of their rings, both coordinates being one, and of each hole that of its outer ring.
const OUTERS: [(i128, Option<i128>); 4] = [(0, None), (1, Some(0)), (2, None), (3, Some(2))];

/// What is asked of a region.
#[derive(Clone, Copy)]
enum Wanted {
    /// These darts, by the whole coordinates of source and target.
    Darts(&'static [(i128, i128, i128, i128)]),
    /// So many darts.
    Count(usize),
    /// These rings, by the one whole coordinate of their least corners, and of each hole that of its outer ring.
    Rings(&'static [(i128, Option<i128>)]),
    /// These whole areas of polygons, each beside the number of its outer ring, and this one of the region.
    Areas(&'static [(usize, i128)], i128),
    /// The layer isn't closed, and this is its least odd end.
    Open(Colour, i128, i128),
}

// The squares' common part.
const CORNER: [(i128, i128, i128, i128); 4] = [
    (2, 2, 4, 2),
    (2, 4, 2, 2),
    (4, 2, 4, 4),
    (4, 4, 2, 4),
];

// Draws segments, whose numbers don't matter.
fn draw(layer: &mut Arrangement, sides: &[Ends]) -> Result<bool, Fail>
    requires watched { IsWatched (arranged Observer-dyn layer.old) }
    ensures watched { IsWatched (arranged Observer-dyn layer.new) }
{
    'sides: for (x1, y1, x2, y2) in sides.iter().copied() {
        match apply(layer, Edit::Insert(x1, y1, x2, y2))? {
            Answer::Drawn(_) => {}
            _ => return Ok(false),
        }
    }
    Ok(true)
}

fn is_dart(dart: &(Point, Point), wanted: &(i128, i128, i128, i128)) -> Result<bool, Fail> {
    let (x1, y1, x2, y2) = *wanted;
    Ok(dart.0 == at(x1, y1)? && dart.1 == at(x2, y2)?)
}

fn are_darts(region: &Region, wanted: &[(i128, i128, i128, i128)]) -> Result<bool, Fail> {
    let darts = region.darts();
    'darts: for (dart, ends) in darts.iter().zip(wanted) {
        if !is_dart(dart, ends)? {
            return Ok(false);
        }
    }
    Ok(darts.len() == wanted.len())
}

// Whether the ring has this least corner, and is a hole in an outer ring with that one, or an outer ring where none is wanted.
fn is_nested(rings: &Rings, ring: usize, wanted: &(i128, Option<i128>)) -> Result<bool, Fail> {
    let (least, within) = *wanted;
    if rings.len() <= ring || rings.least_corner(ring) != at(least, least)? {
        return Ok(false);
    }
    match (rings.outer_of(ring), within) {
        (Some(outer), Some(corner)) => {
            Ok(rings.is_hole(ring) && rings.least_corner(outer) == at(corner, corner)?)
        }
        (None, None) => Ok(!rings.is_hole(ring)),
        _ => Ok(false),
    }
}

// No contract tells which ring comes first: here they come by their least corners.
fn are_nested(rings: &Rings, wanted: &[(i128, Option<i128>)]) -> Result<bool, Fail> {
    'rings: for (ring, corners) in wanted.iter().enumerate() {
        if !is_nested(rings, ring, corners)? {
            return Ok(false);
        }
    }
    Ok(rings.len() == wanted.len())
}

fn has_rings(
    alloc: Global,
    region: &Region,
    wanted: &[(i128, Option<i128>)],
) -> Result<bool, Fail> {
    let rings = rings_of(alloc, region)?;
    are_nested(&rings, wanted)
}

// Whether the area is this whole number.
fn is_area(alloc: Global, area: &Area, wanted: i128) -> Result<bool, Fail> {
    let times = BigInt::from_i128(alloc, wanted)?.mul(alloc, area.denominator())?;
    Ok(times.cmp(area.numerator()) == Ordering::Equal)
}

fn is_polygon(alloc: Global, rings: &Rings, outer: usize, wanted: i128) -> Result<bool, Fail> {
    if rings.len() <= outer {
        return Ok(false);
    }
    is_area(alloc, &area_of_polygon(alloc, rings, outer)?, wanted)
}

fn has_areas(
    alloc: Global,
    region: &Region,
    polygons: &[(usize, i128)],
    wanted: i128,
) -> Result<bool, Fail> {
    let rings = rings_of(alloc, region)?;
    'polygons: for (outer, area) in polygons.iter().copied() {
        if !is_polygon(alloc, &rings, outer, area)? {
            return Ok(false);
        }
    }
    is_area(alloc, &area_of_rings(alloc, &rings)?, wanted)
}

// Whether the answer is the one that is wanted.
fn is_wanted(
    alloc: Global,
    answer: &Result<Region, RegionError>,
    wanted: Wanted,
) -> Result<bool, Fail> {
    match (answer, wanted) {
        (Ok(region), Wanted::Darts(darts)) => are_darts(region, darts),
        (Ok(region), Wanted::Count(count)) => Ok(region.darts().len() == count),
        (Ok(region), Wanted::Rings(rings)) => has_rings(alloc, region, rings),
        (Ok(region), Wanted::Areas(polygons, area)) => has_areas(alloc, region, polygons, area),
        (Err(RegionError::Open(colour, end)), Wanted::Open(which, x, y)) => {
            Ok(*colour == which && *end == at(x, y)?)
        }
        _ => Ok(false),
    }
}

// Whether the region of two layers is the one that is wanted.
fn makes(
    alloc: Global,
    red: &Arrangement,
    blue: &Arrangement,
    op: Op,
    wanted: Wanted,
) -> Result<bool, Fail> {
    let both = overlay(alloc, red, blue)?;
    let answer = region_of(&both, op);
    drop(both);
    let right = is_wanted(alloc, &answer, wanted);
    drop(answer);
    right
}

// The same of segments, over two layers of their own.
fn makes_over(
    alloc: Global,
    red: &Arrangement,
    sides: &[Ends],
    op: Op,
    wanted: Wanted,
) -> Result<bool, Fail> {
    let mut blue = layer_under(alloc, Under::Script)?;
    let drawn = draw(&mut blue, sides)?;
    let right = makes(alloc, red, &blue, op, wanted)?;
    drop(blue);
    Ok(drawn && right)
}

fn are_made(
    alloc: Global,
    red: &[Ends],
    blue: &[Ends],
    cases: &[(Op, Wanted)],
) -> Result<bool, Fail> {
    let mut layer = layer_under(alloc, Under::Script)?;
    let drawn = draw(&mut layer, red)?;
    let right = all_made(alloc, &layer, blue, cases)?;
    drop(layer);
    Ok(drawn && right)
}

// Whether each operation makes what is wanted.
fn all_made(
    alloc: Global,
    red: &Arrangement,
    blue: &[Ends],
    cases: &[(Op, Wanted)],
) -> Result<bool, Fail> {
    'cases: for (op, wanted) in cases.iter().copied() {
        if !makes_over(alloc, red, blue, op, wanted)? {
            return Ok(false);
        }
    }
    Ok(true)
}

#[test]
fn two_squares_make_regions(rt: HostRuntime) -> Result<(), Fail> {
    let cases = [
        (Op::Intersection, Wanted::Darts(&CORNER)),
        (Op::Union, Wanted::Count(8)),
        (Op::Difference, Wanted::Count(6)),
        (Op::Symmetric, Wanted::Count(12)),
    ];
    assert!(rt; are_made(rt.alloc(), &RED, &BLUE, &cases)?);
    Ok(())
}

// Each of its edges is held by two pieces, so nothing is inside.
#[test]
fn a_square_given_twice_makes_nothing(rt: HostRuntime) -> Result<(), Fail> {
    let cases = [(Op::Union, Wanted::Darts(&[]))];
    assert!(rt; are_made(rt.alloc(), &TWICE, &NOTHING, &cases)?);
    Ok(())
}

#[test]
fn holes_are_told_their_outer_rings(rt: HostRuntime) -> Result<(), Fail> {
    let cases = [(Op::Union, Wanted::Rings(&OUTERS))];
    assert!(rt; are_made(rt.alloc(), &NESTED, &NOTHING, &cases)?);
    Ok(())
}

// 64 - 36, and 16 - 4 within the hole.
#[test]
fn a_polygon_is_a_ring_without_its_holes(rt: HostRuntime) -> Result<(), Fail> {
    let cases = [(Op::Union, Wanted::Areas(&[(0, 28), (2, 12)], 40))];
    assert!(rt; are_made(rt.alloc(), &NESTED, &NOTHING, &cases)?);
    Ok(())
}

#[test]
fn areas_of_two_squares_add_up(rt: HostRuntime) -> Result<(), Fail> {
    let cases = [
        (Op::Intersection, Wanted::Areas(&[(0, 4)], 4)),
        (Op::Union, Wanted::Areas(&[(0, 28)], 28)),
        (Op::Difference, Wanted::Areas(&[(0, 12)], 12)),
        (Op::Symmetric, Wanted::Areas(&[], 24)),
    ];
    assert!(rt; are_made(rt.alloc(), &RED, &BLUE, &cases)?);
    Ok(())
}

#[test]
fn an_open_layer_makes_no_region(rt: HostRuntime) -> Result<(), Fail> {
    let red = [(Op::Union, Wanted::Open(Colour::Red, 0, 0))];
    assert!(rt; are_made(rt.alloc(), &HANGING, &NOTHING, &red)?);

    // Red is asked first.
    assert!(rt; are_made(rt.alloc(), &HANGING, &HANGING, &red)?);
    let blue = [(Op::Difference, Wanted::Open(Colour::Blue, 0, 0))];
    assert!(rt; are_made(rt.alloc(), &RED, &HANGING, &blue)?);
    Ok(())
}

// Whether a layer of the segments, and then of more, has these least odd ends.
fn is_odd_then(
    alloc: Global,
    first: &[Ends],
    before: Option<(i128, i128)>,
    then: &[Ends],
    after: Option<(i128, i128)>,
) -> Result<bool, Fail> {
    let mut layer = layer_under(alloc, Under::Script)?;
    let first_drawn = draw(&mut layer, first)?;
    let odd_before = layer.odd_end();
    let all_drawn = draw(&mut layer, then)?;
    let odd_after = layer.odd_end();
    drop(layer);
    let is_right = is_end(odd_before, before)?;
    Ok(first_drawn && all_drawn && is_right && is_end(odd_after, after)?)
}

// Whether the end is at these whole coordinates.
fn is_end(end: Option<Point>, wanted: Option<(i128, i128)>) -> Result<bool, Fail> {
    match (end, wanted) {
        (Some(end), Some((x, y))) => Ok(end == at(x, y)?),
        (None, None) => Ok(true),
        _ => Ok(false),
    }
}

#[test]
fn a_layer_tells_its_least_odd_end(rt: HostRuntime) -> Result<(), Fail> {
    assert!(rt; is_odd_then(rt.alloc(), &TWICE, None, &HANGING, Some((0, 0)))?);

    // A segment that crosses the square passes there, and ends elsewhere.
    assert!(rt; is_odd_then(rt.alloc(), &NOTHING, None, &RED, None)?);
    assert!(rt; is_odd_then(rt.alloc(), &RED, None, &[(-1, 2, 5, 2)], Some((-1, 2)))?);
    Ok(())
}
