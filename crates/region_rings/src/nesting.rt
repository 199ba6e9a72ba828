//! Which outer ring goes round which hole.
ghost use Rattle.std.specs.Prelude.{◌≡◌, ◌<◌, ◌^◌, ◌↔◌, IsTrue, pos, length, unsigned_abs, IfOk, IfSome, false, true};
ghost use lib.Signed.{lt_z};
ghost use Rattle.exact_plane.specs.Direction.{turn};
ghost use Rattle.polygon_sets.specs.ClosedBorders.{way};
ghost use Rattle.region_rings.specs.Cycles.{AreCut};
ghost use Rattle.region_rings.specs.Holes.{corner_in};
ghost use Rattle.region_rings.specs.Nesting.{passes_below, side_below, goes_round, AreLeasts, IsRound, inner_one, IsInnermost, IsOuterOf, AreOuters};

use crate::holes::{corner_at, least_place, place_after, ring_in};
use crate::ratios::ratio_order;
use crate::spokes::way_to;
use exact_plane::Point;
use no_memory::NoMemory;
use std::alloc::Global;

// Whether a way leads to the right.
fn is_right(x: i128) -> bool
    ensures { result ≡ lt_z (pos 0) x }
{
    x > 0
}

// Whether a point is above a line, by the ways from it to two points of the line, of which only the second is on its right.
fn is_above(left: (i128, i128), right: (i128, i128)) -> bool
    requires left { lt_z (pos 0) left.0 ≡ false }
    requires right { lt_z (pos 0) right.0 ≡ true }
    requires small { unsigned_abs right.1 < 2 ^ 127 }
    ensures { result ≡ lt_z (pos 0) (turn (record { x = left.0; y = left.1 }) (record { x = right.0; y = right.1 })) }
{
    let (left_run, left_rise) = left;
    let (right_run, right_rise) = right;
    let order = ratio_order(
        left_rise,
        left_run.unsigned_abs(),
        -right_rise,
        right_run.unsigned_abs(),
    );
    order.is_lt()
}

// Whether the side between two points passes below a point.
fn passes_below(point: &Point, source: &Point, target: &Point) -> bool
    ensures { result ≡ passes_below point.now source.now target.now }
{
    let back = way_to(point, source);
    let on = way_to(point, target);
    match (is_right(back.0), is_right(on.0)) {
        (false, true) => is_above(back, on),
        (true, false) => is_above(on, back),
        _ => false,
    }
}

// Whether the side from a corner of the ring to the next one passes below a point.
fn side_below(ring: &[Point], point: &Point, place: usize) -> bool
    requires { place < length ring.now }
    ensures { result ≡ side_below ring.now point.now place }
{
    let source = corner_at(ring, place);
    let target = corner_at(ring, place_after(ring, place));
    passes_below(point, &source, &target)
}

// Whether a ring goes round a point: of its sides an odd number pass below it.
fn goes_round(ring: &[Point], point: &Point) -> bool
    ensures { result ≡ goes_round ring.now point.now }
{
    let mut is_odd = false;
    for place in 0..ring.len() {
        if side_below(ring, point, place) {
            is_odd = !is_odd;
        }
    }
    is_odd
}

/// The least corner of each ring.
///
/// # Errors
///
/// There was no memory.
pub(crate) fn leasts_of(
    alloc: Global,
    points: &[Point],
    ends: &[usize],
) -> Result<Vec<Point>, NoMemory>
    requires { AreCut (length points.now) ends.now }
    ensures { IfOk result (λ v. AreLeasts points.now ends.now v.items) }
{
    let mut leasts = Vec::with_capacity(alloc, ends.len())?;
    for number in 0..ends.len() {
        let ring = ring_in(points, ends, number);
        leasts.push(corner_at(ring, least_place(ring)))?;
    }
    Ok(leasts)
}

// Whether a ring is an outer one that goes round a point.
fn is_round(points: &[Point], ends: &[usize], holes: &[bool], ring: usize, point: &Point) -> bool
    requires cut { AreCut (length points.now) ends.now }
    requires holes { length holes.now ≡ length ends.now }
    requires ring { ring < length ends.now }
    ensures { IsTrue result ↔ IsRound points.now ends.now holes.now point.now ring }
{
    !holes[ring] && goes_round(ring_in(points, ends, ring), point)
}

// Of two rings the one whose least corner is greater.
fn inner_one(leasts: &[Point], found: Option<usize>, ring: usize) -> usize
    requires found { IfSome found (λ r. r < length leasts.now) }
    requires ring { ring < length leasts.now }
    ensures { result ≡ inner_one leasts.now found ring }
{
    match found {
        None => ring,
        Some(other) => {
            if corner_at(leasts, other)
                .cmp(&corner_at(leasts, ring))
                .is_lt()
            {
                ring
            } else {
                other
            }
        }
    }
}

// The innermost outer ring round a point.
fn innermost(
    points: &[Point],
    ends: &[usize],
    holes: &[bool],
    leasts: &[Point],
    point: &Point,
) -> Option<usize>
    requires cut { AreCut (length points.now) ends.now }
    requires holes { length holes.now ≡ length ends.now }
    requires leasts { length leasts.now ≡ length ends.now }
    ensures { IsInnermost points.now ends.now holes.now leasts.now point.now result }
{
    let mut found = None;
    for ring in 0..ends.len() {
        if is_round(points, ends, holes, ring, point) {
            found = Some(inner_one(leasts, found, ring));
        }
    }
    found
}

// The outer ring of a hole.
fn outer_of(
    points: &[Point],
    ends: &[usize],
    holes: &[bool],
    leasts: &[Point],
    ring: usize,
) -> Option<usize>
    requires cut { AreCut (length points.now) ends.now }
    requires holes { length holes.now ≡ length ends.now }
    requires leasts { length leasts.now ≡ length ends.now }
    requires ring { ring < length ends.now }
    ensures { IsOuterOf points.now ends.now holes.now leasts.now ring result }
{
    if !holes[ring] {
        return None;
    }
    innermost(points, ends, holes, leasts, &corner_at(leasts, ring))
}

/// Of each hole the innermost outer ring round its least corner.
///
/// # Errors
///
/// There was no memory.
pub(crate) fn outers_of(
    alloc: Global,
    points: &[Point],
    ends: &[usize],
    holes: &[bool],
    leasts: &[Point],
) -> Result<Vec<Option<usize>>, NoMemory>
    requires cut { AreCut (length points.now) ends.now }
    requires holes { length holes.now ≡ length ends.now }
    requires leasts { length leasts.now ≡ length ends.now }
    ensures { IfOk result (λ v. AreOuters points.now ends.now holes.now leasts.now v.items) }
{
    let mut outers = Vec::with_capacity(alloc, ends.len())?;
    for ring in 0..ends.len() {
        outers.push(outer_of(points, ends, holes, leasts, ring))?;
    }
    Ok(outers)
}
