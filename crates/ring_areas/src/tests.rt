// Areas that were found by hand. Those of regions and polygons are tried in `layer_tests`, where there are layers.
use crate::{Area, area_of};
use big_integers::BigInt;
use exact_plane::Point;
use std::alloc::Global;
use std::cmp::Ordering;
use std::test::Fail;

fn ring_by(alloc: Global, corners: &[(i128, i128, i128)]) -> Result<Vec<Point>, Fail> {
    let mut ring = Vec::new(alloc);
    for (x, y, w) in corners {
        ring.push(Point::new(*x, *y, *w)?)?;
    }
    Ok(ring)
}

// Whether an area is this fraction.
fn is(area: &Area, alloc: Global, numerator: i128, denominator: i128) -> Result<bool, Fail> {
    let first = BigInt::from_i128(alloc, numerator)?.mul(alloc, area.denominator())?;
    let second = BigInt::from_i128(alloc, denominator)?.mul(alloc, area.numerator())?;
    Ok(first.cmp(&second) == Ordering::Equal)
}

#[test]
fn a_square_has_its_side_squared(rt: HostRuntime) -> Result<(), Fail> {
    let ring = ring_by(rt.alloc(), &[(0, 0, 1), (1, 0, 1), (1, 1, 1), (0, 1, 1)])?;
    assert!(rt; is(&area_of(rt.alloc(), &ring)?, rt.alloc(), 1, 1)?);
    Ok(())
}

#[test]
fn a_clockwise_ring_is_negative(rt: HostRuntime) -> Result<(), Fail> {
    let ring = ring_by(rt.alloc(), &[(0, 0, 1), (0, 2, 1), (3, 0, 1)])?;
    assert!(rt; is(&area_of(rt.alloc(), &ring)?, rt.alloc(), -3, 1)?);
    Ok(())
}

// The corners (1/2, 1/3), (3/2, 1/3), (0, 7/5): a side of length 1, and 16/15 above it the last corner.
#[test]
fn corners_may_be_fractions(rt: HostRuntime) -> Result<(), Fail> {
    let ring = ring_by(rt.alloc(), &[(3, 2, 6), (9, 2, 6), (0, 7, 5)])?;
    assert!(rt; is(&area_of(rt.alloc(), &ring)?, rt.alloc(), 8, 15)?);
    Ok(())
}
