ghost use Rattle.std.specs.Prelude.{◌≡◌, ◌⊎◌, ◌↔◌, ◌-◌, ◌^◌, ◌&&◌, IsErrOf, IfOk};
ghost use Rattle.std.specs.Ordering.{int_eq};
ghost use Rattle.std.specs.declared.cmp.Ordering.TheVariants.{Less};
ghost use Rattle.exact_plane.specs.declared.bounds.TheConstants.{MAX_COORDINATE};
ghost use Rattle.exact_plane.specs.PointOrder.{point_cmp};
ghost use Rattle.exact_plane.specs.Segment.{segment, is_coordinate, are_coordinates, is_before, AreCoordinates, AreEnds};
ghost use Rattle.exact_plane.specs.SegmentOf.{segment_of};

use crate::bounds::MAX_COORDINATE;
use crate::point::Point;
use std::marker::Model;
use thiserror::Error;

/// Why four numbers are no segment's ends.
#[derive(Clone, Copy, Debug, PartialEq, Eq, Error)]
pub enum SegmentError {
    /// A coordinate is out of its range.
    #[error("a number is out of its range")]
    Range,
    /// The two ends are one point.
    #[error("the two ends are equal")]
    Equal,
}

/// A segment between two points with whole coordinates, in plane units.
///
/// Its lower end is the lesser of the two in point order.
#[derive(Clone, Copy, Debug, PartialEq, Eq)]
pub struct Segment {
    pub(crate) lower_x: i64,
    pub(crate) lower_y: i64,
    pub(crate) upper_x: i64,
    pub(crate) upper_y: i64,
}

impl Model for Segment {
    ghost use Rattle.exact_plane.specs.Segment.{Segment as Ends, segment, IsSegment};

    ghost Value = { Ends };

    ghost view = { λ s. segment s.lower_x s.lower_y s.upper_x s.upper_y };

    ghost invariant = { λ s. IsSegment s.lower_x s.lower_y s.upper_x s.upper_y };

    ghost inverse = { λ e. record { lower_x = e.lower.x; lower_y = e.lower.y; upper_x = e.upper.x; upper_y = e.upper.y } };
}

pub(crate) fn within(number: i64) -> bool
    ensures { result ≡ is_coordinate number }
{
    number.unsigned_abs() as u128 <= MAX_COORDINATE
}

fn all_within(x1: i64, y1: i64, x2: i64, y2: i64) -> bool
    ensures { result ≡ are_coordinates x1 y1 x2 y2 }
{
    within(x1) && within(y1) && within(x2) && within(y2)
}

fn comes_first(x1: i64, y1: i64, x2: i64, y2: i64) -> bool
    ensures { result ≡ is_before x1 y1 x2 y2 }
{
    x1 < x2 || (x1 == x2 && y1 < y2)
}

fn same(x1: i64, y1: i64, x2: i64, y2: i64) -> bool
    ensures { result ≡ (int_eq x1 x2 && int_eq y1 y2) }
{
    x1 == x2 && y1 == y2
}

impl Segment {
    /// The segment between (x1, y1) and (x2, y2), in whichever order they are given.
    ///
    /// No coordinate is larger than `MAX_COORDINATE` in size, and the ends differ.
    pub fn new(x1: i64, y1: i64, x2: i64, y2: i64) -> Result<Segment, SegmentError>
        ensures value { result ≡ segment_of x1 y1 x2 y2 }
        ensures range { IsErrOf result SegmentError.Range ↔ ¬ AreCoordinates x1 y1 x2 y2 }
        ensures equal { IsErrOf result SegmentError.Equal ↔ (AreCoordinates x1 y1 x2 y2 × (x1 ≡ x2) × (y1 ≡ y2)) }
        ensures ends { IfOk result (λ s. (s ≡ segment x1 y1 x2 y2) ⊎ (s ≡ segment x2 y2 x1 y1)) }
        ensures ascending { IfOk result (λ s. point_cmp s.lower s.upper ≡ Less) }
        ensures limit { MAX_COORDINATE ≡ 2 ^ 24 - 1 }
    {
        if !all_within(x1, y1, x2, y2) {
            return Err(SegmentError::Range);
        }
        if same(x1, y1, x2, y2) {
            return Err(SegmentError::Equal);
        }
        if comes_first(x1, y1, x2, y2) {
            Ok(Segment {
                lower_x: x1,
                lower_y: y1,
                upper_x: x2,
                upper_y: y2,
            })
        } else {
            Ok(Segment {
                lower_x: x2,
                lower_y: y2,
                upper_x: x1,
                upper_y: y1,
            })
        }
    }

    /// The lesser of its ends in point order.
    pub fn lower(&self) -> Point
        ensures value { result ≡ self.now.lower }
        ensures ends { AreEnds self.now }
    {
        Point::whole(self.lower_x, self.lower_y)
    }

    /// The greater of its ends in point order.
    pub fn upper(&self) -> Point
        ensures { result ≡ self.now.upper }
    {
        Point::whole(self.upper_x, self.upper_y)
    }
}
