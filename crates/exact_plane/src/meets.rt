ghost use Rattle.std.specs.Prelude.{◌≡◌, ◌&&◌, ◌<◌, ◌≤◌, pos, ◌-ℤ◌, ◌*ℤ◌, ◌<ℤ◌, unsigned_abs};
ghost use Rattle.exact_plane.specs.declared.bounds.TheConstants.{MAX_DIFFERENCE, MAX_OFFSET, WEIGHT_LIMIT, NUMERATOR_LIMIT};
ghost use Rattle.exact_plane.specs.Meet.{IsMeeting};
ghost use Rattle.exact_plane.specs.MeetOf.{later as later_point, earlier as earlier_point, part_of, same_line, weight_of, is_between as is_place_between, crossing_meet};
ghost use Rattle.exact_plane.specs.Span.{span_of_segment};

use crate::line::Line;
use crate::place::{Place, wide_product};
use crate::point::{Point, is_in_range};
use crate::segment::Segment;
use crate::spans::Span;
use std::cmp::Ordering;

/// What two segments or spans have in common.
#[derive(Clone, Copy, PartialEq, Eq)]
pub enum Meet {
    /// No point.
    Apart,
    /// One point.
    At(Point),
    /// The points from the first, the lesser, to the second, on the line of both.
    Along(Point, Point),
}

fn later(first: Point, second: Point) -> Point
    ensures { result ≡ later_point first second }
{
    match first.cmp(&second) {
        Ordering::Less => second,
        Ordering::Equal | Ordering::Greater => first,
    }
}

fn earlier(first: Point, second: Point) -> Point
    ensures { result ≡ earlier_point first second }
{
    match first.cmp(&second) {
        Ordering::Less | Ordering::Equal => first,
        Ordering::Greater => second,
    }
}

// What two spans of one line have in common.
fn part(first: &Span, second: &Span) -> Meet
    ensures { result ≡ part_of first.now second.now }
{
    let lower = later(first.lower, second.lower);
    let upper = earlier(first.upper, second.upper);
    match lower.cmp(&upper) {
        Ordering::Less => Meet::Along(lower, upper),
        Ordering::Equal => Meet::At(lower),
        Ordering::Greater => Meet::Apart,
    }
}

fn is_one_line(first: &Line, second: &Line) -> bool
    ensures { result ≡ same_line first.now second.now }
{
    first == second
}

// The weight of the crossing of two lines: 0 where they are parallel.
pub(crate) fn cross_weight(a1: i64, b1: i64, a2: i64, b2: i64) -> i64
    requires a1 { unsigned_abs a1 ≤ MAX_DIFFERENCE }
    requires b1 { unsigned_abs b1 ≤ MAX_DIFFERENCE }
    requires a2 { unsigned_abs a2 ≤ MAX_DIFFERENCE }
    requires b2 { unsigned_abs b2 ≤ MAX_DIFFERENCE }
    ensures value { result ≡ a1 *ℤ b2 -ℤ a2 *ℤ b1 }
    ensures small { unsigned_abs result < WEIGHT_LIMIT }
{
    a1 * b2 - a2 * b1
}

// The number x of the crossing.
fn cross_abscissa(b1: i64, c1: i64, b2: i64, c2: i64) -> i128
    requires b1 { unsigned_abs b1 ≤ MAX_DIFFERENCE }
    requires c1 { unsigned_abs c1 ≤ MAX_OFFSET }
    requires b2 { unsigned_abs b2 ≤ MAX_DIFFERENCE }
    requires c2 { unsigned_abs c2 ≤ MAX_OFFSET }
    ensures value { result ≡ b1 *ℤ c2 -ℤ b2 *ℤ c1 }
    ensures small { unsigned_abs result < NUMERATOR_LIMIT }
{
    let first = wide_product(b1, c2);
    let second = wide_product(b2, c1);
    first - second
}

// The number y of the crossing.
fn cross_ordinate(c1: i64, a1: i64, c2: i64, a2: i64) -> i128
    requires c1 { unsigned_abs c1 ≤ MAX_OFFSET }
    requires a1 { unsigned_abs a1 ≤ MAX_DIFFERENCE }
    requires c2 { unsigned_abs c2 ≤ MAX_OFFSET }
    requires a2 { unsigned_abs a2 ≤ MAX_DIFFERENCE }
    ensures value { result ≡ c1 *ℤ a2 -ℤ c2 *ℤ a1 }
    ensures small { unsigned_abs result < NUMERATOR_LIMIT }
{
    let first = wide_product(c1, a2);
    let second = wide_product(c2, a1);
    first - second
}

// Whether a place of a span's line is between its ends.
fn is_between(span: &Span, place: &Place) -> bool
    ensures { result ≡ is_place_between span.now place.now }
{
    span.lower.place.compare(place).is_le() && place.compare(&span.upper.place).is_le()
}

// Whether a place of both lines is between the ends of both spans.
fn is_between_both(first: &Span, second: &Span, place: &Place) -> bool
    ensures { result ≡ (is_place_between first.now place.now && is_place_between second.now place.now) }
{
    is_between(first, place) && is_between(second, place)
}

// What two spans have in common, where the weight of their lines' crossing is positive.
fn crossing(first: &Span, second: &Span) -> Meet
    requires { pos 0 <ℤ weight_of first.now.line second.now.line }
    ensures { result ≡ crossing_meet first.now second.now }
{
    let (l, m) = (first.line, second.line);
    let x = cross_abscissa(l.b, l.c, m.b, m.c);
    let y = cross_ordinate(l.c, l.a, m.c, m.a);
    let w = cross_weight(l.a, l.b, m.a, m.b);
    if !is_in_range(x, y, w as i128) {
        return Meet::Apart;
    }
    let place = Place::of(x, y, w);
    if is_between_both(first, second, &place) {
        Meet::At(Point {
            place: place.lowest(),
        })
    } else {
        Meet::Apart
    }
}

/// What two spans have in common.
pub fn span_meeting(first: &Span, second: &Span) -> Meet
    ensures { IsMeeting first.now second.now result }
{
    let (l, m) = (first.line, second.line);
    if is_one_line(&l, &m) {
        return part(first, second);
    }
    let weight = cross_weight(l.a, l.b, m.a, m.b);
    match weight.cmp(&0) {
        Ordering::Less => crossing(second, first),
        Ordering::Equal => Meet::Apart,
        Ordering::Greater => crossing(first, second),
    }
}

/// What two segments have in common.
pub fn meeting(first: &Segment, second: &Segment) -> Meet
    ensures { IsMeeting (span_of_segment first.now) (span_of_segment second.now) result }
{
    span_meeting(&Span::of(first), &Span::of(second))
}
