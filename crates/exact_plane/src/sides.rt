ghost use Rattle.std.specs.Prelude.{◌≡◌, ◌<◌, ◌≤◌, pos, ◌*ℤ◌, ◌<ℤ◌, ◌^◌, unsigned_abs};
ghost use Rattle.std.specs.Ordering.{int_eq};
ghost use Rattle.exact_plane.specs.declared.bounds.TheConstants.{MAX_DIFFERENCE, DEPTH_LIMIT, HEIGHT_LIMIT};
ghost use Rattle.exact_plane.specs.Height.{height_cmp};
ghost use Rattle.exact_plane.specs.Line.{side_of};
ghost use Rattle.exact_plane.specs.Segment.{line_of_segment};
ghost use Rattle.exact_plane.specs.Sign.{sign_of};

use crate::line::{Line, difference, offset};
use crate::point::Point;
use crate::segment::Segment;
use std::cmp::Ordering;

/// The sign of a number, or the side of a line on which a point is.
#[derive(Clone, Copy, PartialEq, Eq)]
pub enum Sign {
    /// Negative: on the right of the line.
    Minus,
    /// 0: on the line.
    Zero,
    /// Positive: on the left of the line.
    Plus,
}

// The sign of a number.
fn as_sign(value: i128) -> Sign
    ensures { result ≡ sign_of value }
{
    match value.cmp(&0) {
        Ordering::Less => Sign::Minus,
        Ordering::Equal => Sign::Zero,
        Ordering::Greater => Sign::Plus,
    }
}

/// The side of a line on which a point is.
///
/// It is the sign of a X + b Y + c W for the line's numbers a, b, c and the point's X, Y, W.
pub fn side(line: &Line, point: &Point) -> Sign
    ensures { result ≡ sign_of (side_of line.now point.now) }
{
    let value = point.place.side_value(line.a, line.b, line.c);
    as_sign(value)
}

/// The side of a segment's line on which a point is (CGAL, `Orientation_2`).
///
/// It is that of `line_of`, told by the numbers of the ends as they are: no greatest common divisor is sought.
pub fn orientation(segment: &Segment, point: &Point) -> Sign
    ensures { result ≡ sign_of (side_of (line_of_segment segment.now) point.now) }
{
    let (x1, y1) = (segment.lower_x, segment.lower_y);
    let (x2, y2) = (segment.upper_x, segment.upper_y);
    let across = difference(x2, x1);
    let down = difference(y1, y2);
    let offset = offset(x1, y1, x2, y2);
    let value = point.place.side_value(down, across, offset);
    as_sign(value)
}

impl Line {
    /// Whether a point is on the line (CGAL, `Line_2::has_on`).
    pub fn holds(&self, point: &Point) -> bool
        ensures { result ≡ int_eq (side_of self.now point.now) (pos 0) }
    {
        let value = point.place.side_value(self.a, self.b, self.c);
        value.cmp(&0).is_eq()
    }
}

// The product by another line's number b.
fn by_other(depth: i128, b: i64) -> i128
    requires depth { unsigned_abs depth < DEPTH_LIMIT }
    requires b { unsigned_abs b ≤ MAX_DIFFERENCE }
    ensures value { result ≡ depth *ℤ b }
    ensures small { unsigned_abs result < HEIGHT_LIMIT }
{
    depth * b as i128
}

/// Compares the heights of two lines at the abscissa of a point: `Greater` where the first is above the second.
///
/// Neither line is vertical. The height of a line with the numbers a, b, c at the abscissa X/W is
/// -(a X + c W) / (b W). The numbers that are compared stay below 2^127 in size.
pub fn above_at(first: &Line, second: &Line, point: &Point) -> Ordering
    requires first_not_vertical { pos 0 <ℤ first.now.b }
    requires second_not_vertical { pos 0 <ℤ second.now.b }
    ensures value { result ≡ height_cmp first.now second.now point.now }
    ensures limit { HEIGHT_LIMIT ≡ 2 ^ 127 }
{
    let of_first = by_other(point.place.depth(first.a, first.c), second.b);
    let of_second = by_other(point.place.depth(second.a, second.c), first.b);
    of_second.cmp(&of_first)
}
