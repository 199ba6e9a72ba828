//! Which rings are holes.
ghost use Rattle.std.specs.Prelude.{◌≡◌, ◌<◌, ◌≤◌, ◌-◌, ◌↔◌, length, take, drop, slice_index_or, IsTrue, IfOk};
ghost use Rattle.polygon_sets.specs.ClosedBorders.{way_before};
ghost use Rattle.region_rings.specs.Cycles.{ring_start, AreCut};
ghost use Rattle.region_rings.specs.Holes.{corner_in, place_before, place_after, turns_wide, lesser_place, is_wide_at, IsLeastAt, IsHole, ring_of, AreHoles};

use crate::spokes::{spoke_to, turn_order};
use crate::tables::number_at;
use exact_plane::Point;
use no_memory::NoMemory;
use std::alloc::Global;

fn place_before(ring: &[Point], place: usize) -> usize
    requires { place < length ring.now }
    ensures value { result ≡ place_before ring.now place }
    ensures within { result < length ring.now }
{
    if place == 0 {
        ring.len() - 1
    } else {
        place - 1
    }
}

pub(crate) fn place_after(ring: &[Point], place: usize) -> usize
    requires { place < length ring.now }
    ensures value { result ≡ place_after ring.now place }
    ensures within { result < length ring.now }
{
    if place + 1 == ring.len() {
        0
    } else {
        place + 1
    }
}

pub(crate) fn corner_at(ring: &[Point], place: usize) -> Point
    requires { place < length ring.now }
    ensures { result ≡ corner_in ring.now place }
{
    ring[place]
}

// Whether the way from one point to a second is met before that to a third, clockwise from straight down.
fn is_met_before(from: &Point, first: &Point, second: &Point) -> bool
    ensures { result ≡ way_before from.now first.now second.now }
{
    let first = spoke_to(from, first, true, 0);
    let second = spoke_to(from, second, true, 0);
    turn_order(&first, &second).is_lt()
}

// Whether the way on from a corner is met before the way back.
fn turns_wide(ring: &[Point], place: usize) -> bool
    requires { place < length ring.now }
    ensures { result ≡ turns_wide ring.now place }
{
    let on = corner_at(ring, place_after(ring, place));
    let back = corner_at(ring, place_before(ring, place));
    is_met_before(&corner_at(ring, place), &on, &back)
}

// The place of the lesser one of two corners.
fn lesser_place(ring: &[Point], place: usize, other: usize) -> usize
    requires place { place < length ring.now }
    requires other { other < length ring.now }
    ensures value { result ≡ lesser_place ring.now place other }
    ensures within { result < length ring.now }
{
    if corner_at(ring, place).cmp(&corner_at(ring, other)).is_lt() {
        place
    } else {
        other
    }
}

pub(crate) fn least_place(ring: &[Point]) -> usize
    requires { 0 < length ring.now }
    ensures within { result < length ring.now }
    ensures least { IsLeastAt ring.now result }
{
    let mut least = 0;
    for place in 0..ring.len() {
        least = lesser_place(ring, place, least);
    }
    least
}

// Whether the ring turns wide at a place where it has this corner.
fn is_wide_at(ring: &[Point], corner: &Point, place: usize) -> bool
    requires { place < length ring.now }
    ensures { result ≡ is_wide_at ring.now corner.now place }
{
    corner_at(ring, place) == *corner && turns_wide(ring, place)
}

// Whether a ring bounds a hole: it turns wide at its least corner, where it may pass several times.
fn is_hole(ring: &[Point]) -> bool
    requires { 0 < length ring.now }
    ensures { IsTrue result ↔ IsHole ring.now }
{
    let least = corner_at(ring, least_place(ring));
    for place in 0..ring.len() {
        if is_wide_at(ring, &least, place) {
            return true;
        }
    }
    false
}

// The corners from one place on up to another.
fn part_of(points: &[Point], start: usize, end: usize) -> &[Point]
    requires start { start ≤ end }
    requires end { end ≤ length points.now }
    ensures { result.now ≡ take (end - start) (drop start points.now) }
{
    &points[start..end]
}

// Where a ring begins.
fn start_at(ends: &[usize], ring: usize) -> usize
    requires { ring < length ends.now }
    ensures { result ≡ ring_start ends.now ring }
{
    if ring == 0 {
        return 0;
    }
    ends[ring - 1]
}

/// The corners of a ring, of those of all rings.
pub(crate) fn ring_in<'a>(points: &'a [Point], ends: &[usize], ring: usize) -> &'a [Point]
    requires cut { AreCut (length points.now) ends.now }
    requires ring { ring < length ends.now }
    ensures value { result.now ≡ ring_of points.now ends.now ring }
    ensures some { 0 < length result.now }
{
    let start = start_at(ends, ring);
    let end = number_at(ends, ring);
    part_of(points, start, end)
}

/// Of each ring whether it is a hole.
///
/// # Errors
///
/// There was no memory.
pub(crate) fn holes_of(
    alloc: Global,
    points: &[Point],
    ends: &[usize],
) -> Result<Vec<bool>, NoMemory>
    requires { AreCut (length points.now) ends.now }
    ensures { IfOk result (λ v. AreHoles points.now ends.now v.items) }
{
    let mut holes = Vec::with_capacity(alloc, ends.len())?;
    for ring in 0..ends.len() {
        holes.push(is_hole(ring_in(points, ends, ring)))?;
    }
    Ok(holes)
}
