//! The boundary of a region as closed rings, which is what users of Boolean operations take home (CGAL manual, polygons with holes).
//!
//! A region is told by the darts of its border: what is made is on the left of each, and isn't on its right. A ring goes along such
//! darts. Where one ends, the boundary goes on with the dart that is met first, of all border darts at that vertex, whether they go
//! out of it or come in, clockwise from the way back:
//!
//! ```text
//!             e   .'                 d comes in from the left, what is made is above it.
//!             |  f                   The way back points to the left; clockwise from it
//!    inside   |.'    outside         e is met first, then f. So e follows d: between them
//!    ---d---> v                      is nothing but the inside, and no part of it is cut off.
//! ```
//!
//! That is the sharpest turn to the left that there is, and what `next` is of the face on the left where the darts within a face are
//! left out. Where parts of the inside touch at a vertex alone, each is gone round by itself: a ring touches itself or another ring
//! there, and crosses none. So outer rings go round counterclockwise and holes clockwise. A ring is a hole where it turns wide at its
//! least corner: the way on from there is met before the way back, clockwise from straight down. Where it passes its least corner
//! several times, as a hole made of two that touch does, it does so once.
//!
//! A polygon is an outer ring and its holes (Open Geospatial Consortium, simple features; CGAL manual, polygons with holes). A hole's
//! outer ring is the innermost one that goes round it: of the outer rings round its least corner the one whose own least corner is
//! the greatest. A ring goes round a point where an odd number of its sides pass below it, of those that have just one end on the
//! right of the point's vertical.
//!
//! # What is proved
//!
//! `rings_of` says:
//!
//! - `sides`, `all`, `once`, `counted`: the sides of the rings, from each corner to the next and from the last to the first, are the
//!   darts, each in one place of one ring (`cut`: no ring is empty);
//! - `rule`: each side is followed by the one of which the rule speaks (`IsNextSide`);
//! - `holes`: a ring is told to be a hole exactly where it turns wide at its least corner (`IsHole`);
//! - `leasts`: of each ring its least corner is told;
//! - `outers`: each hole is told an outer ring that goes round its least corner, and no outer ring round that has a greater least
//!   corner; it is told none only where no outer ring goes round (`IsInnermost`).
//!
//! This is proved for any list of darts that is a closed border (`IsClosedBorder`): no two ends of darts at one vertex lead in one
//! direction, and each dart is followed by one, by the rule. The border of a region is closed (`Region::laws`), so there are rings, or
//! there was no memory. For going clockwise round a vertex from a dart that comes in, what is on its left stays inside up to the first
//! dart that has the inside on one side alone. That one goes out with the inside on its left.
//!
//! Its edges alone are a plane graph, whose even-odd set is the inside (`Region::laws`). So of a region `rings_of` tells more:
//!
//! - `nested`: no hole is told none (`AreAllNested`);
//! - `one_face`: a hole and its outer ring bound one face of that graph, so that what is inside between them is connected
//!   (`AreOfOneFace`). A bounded face has one outer cycle, which of the outer rings round the hole has the greatest least corner.
//!
//! # What isn't
//!
//! That a ring which turns wide at its least corner is clockwise is the definition here, and isn't compared with an area. Areas are
//! told by `ring_areas`.
//!
//! # How
//!
//! Both ends of all darts are sorted by vertex, and round each vertex clockwise from straight down, by quarters and slopes; slopes are
//! compared by products of 256 bits, since only the points are known. What follows an end is its neighbour in that list, or, after the
//! last one of a vertex, the first. Then each cycle is walked once. It takes n log n steps for n darts, and no recursion. For each
//! hole all sides of the outer ones are looked at, to see which pass below its least corner: so many steps more as there are holes,
//! times darts.
#![tactic(auto)]

mod cycles;
mod errors;
mod holes;
mod nesting;
mod nexts;
mod ratios;
mod rings;
mod spokes;
mod tables;
#[cfg(test)]
mod tests;

pub use rings::{Rings, rings_of};
