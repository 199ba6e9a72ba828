use crate::shapes::{At, Ends};
use exact_plane::{Point, PointError, Segment, SegmentError};
use std::test::Fail;

#[test]
fn errors_say_what_is_wrong(rt: HostRuntime) -> Result<(), Fail> {
    let (weight, number) = (PointError::ZeroWeight, PointError::Range);
    let (end, ends) = (SegmentError::Range, SegmentError::Equal);
    let found = format!(in rt.alloc(); "{weight}, {number}, {end}, {ends}")?;
    let wanted =
        "the weight is 0, a number is out of its range, a number is out of its range, the two ends are equal";
    assert!(rt; found.as_str() == wanted, "{found}");
    Ok(())
}

// Numbers that are no point's: a weight of 0, and weights and coordinates out of their ranges.
const NO_POINTS: [(At, PointError); 6] = [
    ((1, 1, 0), PointError::ZeroWeight),
    ((1, 1, -1), PointError::Range),
    ((16_777_216, 0, 1), PointError::Range),
    ((0, -16_777_216, 1), PointError::Range),
    ((0, 0, 2_251_799_813_685_248), PointError::Range),
    ((16_777_216, 0, 0), PointError::ZeroWeight),
];

#[test]
fn numbers_are_refused_for_their_reason(rt: HostRuntime) -> Result<(), Fail> {
    for ((x, y, w), wanted) in NO_POINTS {
        let found = Point::new(x, y, w);
        assert!(rt; found == Err(wanted));
    }
    Ok(())
}

// Numbers of a point, and the same in lowest terms.
const POINTS: [(At, At); 2] = [((4, 2, 6), (2, 1, 3)), ((0, 0, 5), (0, 0, 1))];

#[test]
fn points_are_in_lowest_terms(rt: HostRuntime) -> Result<(), Fail> {
    for ((x, y, w), wanted) in POINTS {
        let found = Point::new(x, y, w)?;
        assert!(rt; (found.x(), found.y(), found.w()) == wanted);
    }
    Ok(())
}

// Ends that are no segment's: one point twice, and coordinates out of their range, which are refused first.
const NO_SEGMENTS: [(Ends, SegmentError); 4] = [
    ((1, 1, 1, 1), SegmentError::Equal),
    ((1_048_576, 0, 1_048_576, 0), SegmentError::Equal),
    ((16_777_216, 0, 0, 0), SegmentError::Range),
    ((16_777_216, 0, 16_777_216, 0), SegmentError::Range),
];

#[test]
fn ends_are_refused_for_their_reason(rt: HostRuntime) -> Result<(), Fail> {
    for ((x1, y1, x2, y2), wanted) in NO_SEGMENTS {
        let found = Segment::new(x1, y1, x2, y2);
        assert!(rt; found == Err(wanted));
    }
    Ok(())
}

#[test]
fn a_point_prints_its_three_numbers(rt: HostRuntime) -> Result<(), Fail> {
    let point = Point::new(6, -14, 4)?;
    let found = format!(in rt.alloc(); "{point}")?;
    assert!(rt; found.as_str() == "3 -7 2", "{found}");
    Ok(())
}
