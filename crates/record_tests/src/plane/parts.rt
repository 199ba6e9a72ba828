use crate::shapes::{Ends, point, segment};
use exact_plane::Point;
use side_parts::{Part, Side, parts_in_order};
use std::alloc::Global;
use std::test::Fail;

// Whole points by their coordinates, in order.
fn points_of(alloc: Global, numbers: &[(i128, i128)]) -> Result<Vec<Point>, Fail> {
    let mut points = Vec::new(alloc);
    for (x, y) in numbers {
        points.push(point((*x, *y, 1))?)?;
    }
    Ok(points)
}

fn sides_of(alloc: Global, numbers: &[Ends]) -> Result<Vec<Side>, Fail> {
    let mut sides = Vec::new(alloc);
    for ends in numbers {
        sides.push(Side::of(&segment(*ends)?))?;
    }
    Ok(sides)
}

fn part(low: usize, high: usize, side: usize) -> Part {
    Part { low, high, side }
}

// The two sides of a V, of which the second is met by something at (3, 2).
#[test]
fn each_side_has_a_part_for_each_two_neighbours(rt: HostRuntime) -> Result<(), Fail> {
    let points = points_of(rt.alloc(), &[(0, 4), (2, 0), (3, 2), (4, 4)])?;
    let sides = sides_of(rt.alloc(), &[(0, 4, 2, 0), (2, 0, 4, 4)])?;
    let found = parts_in_order(rt.alloc(), &points, &sides)?;
    assert!(rt; found.as_slice() == [part(0, 1, 0), part(1, 2, 1), part(2, 3, 1)].as_slice());
    Ok(())
}

// A path from (0, 0) to (4, 0) and back to (1, 0).
#[test]
fn parts_of_a_fold_stand_together(rt: HostRuntime) -> Result<(), Fail> {
    let points = points_of(rt.alloc(), &[(0, 0), (1, 0), (4, 0)])?;
    let sides = sides_of(rt.alloc(), &[(0, 0, 4, 0), (4, 0, 1, 0)])?;
    let found = parts_in_order(rt.alloc(), &points, &sides)?;
    assert!(rt; found.as_slice() == [part(0, 1, 0), part(1, 2, 0), part(1, 2, 1)].as_slice());
    Ok(())
}
