//! The exact areas of a region's rings.
//!
//! The area of a closed ring is half the sum, over its sides, of the cross products of their ends (the shoelace formula; O'Rourke,
//! Computational Geometry in C, 1.3): positive where the ring goes round counterclockwise, negative where it goes round clockwise, as
//! holes do. So the area of a region is the sum over its rings, and that of a polygon the sum over an outer ring and its holes.
//!
//! Corners are homogeneous, so each cross product is a fraction over the product of two weights, and the sum is brought over a common
//! denominator by cross multiplication. That passes every fixed width, so numbers are those of `big_integers`. The answer isn't in
//! lowest terms. A ring with whole corners has the denominator 2.
//!
//! Areas are in square plane units.
#![tactic(auto)]

mod area;
mod rings;
mod sums;
#[cfg(test)]
mod tests;

pub use area::Area;
pub use rings::{area_of, area_of_polygon, area_of_rings};
