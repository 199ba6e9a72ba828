ghost use Rattle.std.specs.Prelude.{◌≡◌, ◌<◌, ◌==◌, ◌||◌, pos, ◌<ℤ◌, length, IfOk};
ghost use Rattle.region_rings.specs.Holes.{corner_in, place_after};
ghost use Rattle.ring_areas.specs.Areas.{side_at, twice_area, area, ring_area, rings_area, is_told, is_in_polygon, polygon_area, AreWhole};
ghost use Rattle.ring_areas.specs.Fractions.{IsSame};
ghost use Rattle.ring_areas.specs.Walks.{plus_within};

use crate::area::Area;
use crate::sums::{none, plus, side_cross};
use exact_plane::Point;
use no_memory::NoMemory;
use region_rings::Rings;
use std::alloc::Global;

fn place_after(ring: &[Point], place: usize) -> usize
    requires { place < length ring.now }
    ensures value { result ≡ place_after ring.now place }
    ensures within { result < length ring.now }
{
    if place + 1 == ring.len() {
        0
    } else {
        place + 1
    }
}

fn corner_at(ring: &[Point], place: usize) -> Point
    requires { place < length ring.now }
    ensures { result ≡ corner_in ring.now place }
{
    ring[place]
}

// The cross product of a corner and the next one.
fn side_at(alloc: Global, ring: &[Point], place: usize) -> Result<Area, NoMemory>
    requires { place < length ring.now }
    ensures { IfOk result (λ a. a ≡ side_at ring.now place) }
{
    let from = corner_at(ring, place);
    let to = corner_at(ring, place_after(ring, place));
    side_cross(alloc, &from, &to)
}

// The sum over all sides.
fn twice_area(alloc: Global, ring: &[Point]) -> Result<Area, NoMemory>
    ensures { IfOk result (λ a. a ≡ twice_area ring.now) }
{
    let mut sum = none(alloc)?;
    for place in 0..ring.len() {
        let part = side_at(alloc, ring, place)?;
        sum = plus(alloc, &sum, &part)?;
    }
    Ok(sum)
}

fn ring_area(alloc: Global, ring: &[Point]) -> Result<Area, NoMemory>
    ensures { IfOk result (λ a. a ≡ area ring.now) }
{
    twice_area(alloc, ring)?.half(alloc)
}

/// The signed area of a closed ring, of its corners in their order: positive where it goes round counterclockwise, negative where
/// clockwise (the shoelace formula). It takes n products, of as many digits as all weights have.
///
/// # Errors
///
/// There was no memory.
pub fn area_of(alloc: Global, ring: &[Point]) -> Result<Area, NoMemory>
    ensures area { IfOk result (λ a. IsSame a (area ring.now)) }
    ensures positive { IfOk result (λ a. pos 0 <ℤ a.denominator) }
    ensures whole { AreWhole ring.now → IfOk result (λ a. a.denominator ≡ pos 2) }
{
    let area = ring_area(alloc, ring)?;
    area.laws();
    Ok(area)
}

/// The area of a region: the sum over all its rings, where holes are negative.
///
/// # Errors
///
/// There was no memory.
pub fn area_of_rings(alloc: Global, rings: &Rings) -> Result<Area, NoMemory>
    ensures area { IfOk result (λ a. IsSame a (rings_area rings.now)) }
    ensures positive { IfOk result (λ a. pos 0 <ℤ a.denominator) }
{
    let mut sum = none(alloc)?;
    for ring in 0..rings.len() {
        let part = ring_area(alloc, rings.ring(ring))?;
        sum = plus(alloc, &sum, &part)?;
    }
    sum.laws();
    Ok(sum)
}

fn is_told(told: Option<usize>, outer: usize) -> bool
    ensures { result ≡ is_told told outer }
{
    match told {
        None => false,
        Some(ring) => ring == outer,
    }
}

// Whether a ring is an outer one, or a hole in it.
fn is_in_polygon(rings: &Rings, outer: usize, ring: usize) -> bool
    requires { ring < length rings.now.ends }
    ensures { result ≡ is_in_polygon rings.now outer ring }
{
    ring == outer || is_told(rings.outer_of(ring), outer)
}

// The sum with a ring's area, where the ring is of the polygon.
fn plus_within(
    alloc: Global,
    sum: Area,
    rings: &Rings,
    outer: usize,
    ring: usize,
) -> Result<Area, NoMemory>
    requires { ring < length rings.now.ends }
    ensures { IfOk result (λ a. a ≡ plus_within rings.now outer ring sum) }
{
    if !is_in_polygon(rings, outer, ring) {
        return Ok(sum);
    }
    let part = ring_area(alloc, rings.ring(ring))?;
    plus(alloc, &sum, &part)
}

/// The area of a polygon: an outer ring without its holes, those of which it is `Rings::outer_of`.
///
/// # Errors
///
/// There was no memory.
pub fn area_of_polygon(alloc: Global, rings: &Rings, outer: usize) -> Result<Area, NoMemory>
    requires { outer < length rings.now.ends }
    ensures area { IfOk result (λ a. IsSame a (polygon_area rings.now outer)) }
    ensures positive { IfOk result (λ a. pos 0 <ℤ a.denominator) }
{
    let mut sum = none(alloc)?;
    for ring in 0..rings.len() {
        sum = plus_within(alloc, sum, rings, outer, ring)?;
    }
    sum.laws();
    Ok(sum)
}
