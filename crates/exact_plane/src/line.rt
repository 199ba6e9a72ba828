ghost use Rattle.std.specs.Prelude.{◌≡◌, ◌≤◌, ◌↔◌, pos, ◌-ℤ◌, ◌*ℤ◌, ◌<ℤ◌, unsigned_abs, IsTrue};
ghost use Rattle.std.specs.Bool.{OnFalse};
ghost use Rattle.std.specs.Ordering.{int_cmp};
ghost use Rattle.exact_plane.specs.declared.bounds.TheConstants.{MAX_DIFFERENCE, MAX_OFFSET};
ghost use Rattle.exact_plane.specs.Line.{side_of, turn_at, reduced_line, IsOn, IsLine, AreLineNumbers};
ghost use Rattle.exact_plane.specs.Point.{Point};
ghost use Rattle.exact_plane.specs.Segment.{line_of_segment, IsCoordinate, AreCoordinates};

use crate::segment::Segment;
use integers::{greatest_common_divisor, quotient};
use std::marker::Model;

/// The line a x + b y + c = 0 of a segment, in lowest terms.
///
/// It has a direction: it runs to the right, or is vertical and runs upwards, and a x + b y + c is positive on its
/// left. One line has one triple of numbers.
#[derive(Clone, Copy, Debug, PartialEq, Eq)]
pub struct Line {
    pub(crate) a: i64,
    pub(crate) b: i64,
    pub(crate) c: i64,
}

impl Model for Line {
    ghost use Rattle.exact_plane.specs.Line.{Line as Numbers, IsLine};

    ghost Value = { Numbers };

    ghost view = { λ l. record { a = l.a; b = l.b; c = l.c } };

    ghost invariant = { λ l. IsLine (record { a = l.a; b = l.b; c = l.c }) };

    ghost inverse = { λ l. record { a = l.a; b = l.b; c = l.c } };
}

impl Line {
    /// What is true of all lines: the numbers are those of a line through two whole points, in lowest terms, and it runs to the
    /// right, or upwards.
    pub fn laws(&self)
        ensures { IsLine self.now }
    {
        // Any use of a field tells what is kept.
        let _ = &self.b;
    }

    /// Whether it is vertical, so that it has no height at an abscissa.
    pub fn is_vertical(&self) -> bool
        ensures line { IsLine self.now }
        ensures vertical { IsTrue result ↔ (self.now.b ≡ pos 0) }
        ensures not_vertical { OnFalse result (pos 0 <ℤ self.now.b) }
    {
        self.b.cmp(&0).is_eq()
    }
}

// How far one coordinate is beyond another.
pub(crate) fn difference(first: i64, second: i64) -> i64
    requires first { IsCoordinate first }
    requires second { IsCoordinate second }
    ensures value { result ≡ first -ℤ second }
    ensures small { unsigned_abs result ≤ MAX_DIFFERENCE }
{
    first - second
}

// The number c of the line through two ends.
pub(crate) fn offset(x1: i64, y1: i64, x2: i64, y2: i64) -> i64
    requires { AreCoordinates x1 y1 x2 y2 }
    ensures value { result ≡ x1 *ℤ y2 -ℤ x2 *ℤ y1 }
    ensures small { unsigned_abs result ≤ MAX_OFFSET }
{
    x1 * y2 - x2 * y1
}

// The same line in lowest terms.
fn lowest(a: i64, b: i64, c: i64) -> Line
    requires { AreLineNumbers a b c }
    ensures value { result ≡ reduced_line a b c }
{
    let of_both = greatest_common_divisor(a.unsigned_abs(), b.unsigned_abs());
    let divisor = greatest_common_divisor(of_both, c.unsigned_abs());
    Line {
        a: quotient(a, divisor),
        b: quotient(b, divisor),
        c: quotient(c, divisor),
    }
}

/// The line through a segment's ends, which runs from its lower to its upper end.
///
/// For the lower end (xp, yp) and the upper end (xq, yq) its numbers are those of yp - yq, xq - xp and
/// xp yq - xq yp in lowest terms.
pub fn line_of(segment: &Segment) -> Line
    ensures value { result ≡ line_of_segment segment.now }
    ensures line { IsLine result }
    ensures lower_on { IsOn result segment.now.lower }
    ensures upper_on { IsOn result segment.now.upper }
    ensures left { (t : Point) → int_cmp (side_of result t) (pos 0) ≡ int_cmp (turn_at segment.now.lower segment.now.upper t) (pos 0) }
{
    let (x1, y1) = (segment.lower_x, segment.lower_y);
    let (x2, y2) = (segment.upper_x, segment.upper_y);
    let across = difference(x2, x1);
    let down = difference(y1, y2);
    let offset = offset(x1, y1, x2, y2);
    lowest(down, across, offset)
}
