//! What a segment has in common with an edge that was looked at: sides rule out most edges, an exact meeting comes last.
ghost use Rattle.std.specs.Prelude.{◌≡◌, ◌&&◌, ◌||◌, true, None};
ghost use Rattle.zone_walk.specs.Found.{is_left, is_right};
ghost use Rattle.zone_walk.specs.Sights.{IsSoundLook, IsMetOf, span_in};

use counted_looks::Glimpse;
use exact_plane::{Line, Meet, Point, Sign, Span, side, span_meeting};

/// The points that a segment has in common with a dart's edge and its ends.
#[derive(Clone, Copy)]
pub(crate) struct CommonPoints {
    /// The only one, or the lesser end of the part that is common.
    pub(crate) first: Point,
    /// The greater end of that part.
    pub(crate) last: Option<Point>,
    pub(crate) source: Point,
    pub(crate) target: Point,
}

fn is_on_left(line: &Line, point: &Point) -> bool
    ensures { result ≡ is_left line.now point.now }
{
    match side(line, point) {
        Sign::Plus => true,
        Sign::Minus | Sign::Zero => false,
    }
}

fn is_on_right(line: &Line, point: &Point) -> bool
    ensures { result ≡ is_right line.now point.now }
{
    match side(line, point) {
        Sign::Minus => true,
        Sign::Zero | Sign::Plus => false,
    }
}

// Whether two points are both on the left of the line or both on its right.
fn are_aside(line: &Line, source: &Point, target: &Point) -> bool
    ensures { result ≡ ((is_left line.now source.now && is_left line.now target.now) || (is_right line.now source.now && is_right line.now target.now)) }
{
    match side(line, source) {
        Sign::Plus => is_on_left(line, target),
        Sign::Minus => is_on_right(line, target),
        Sign::Zero => false,
    }
}

// The edge of a dart that was looked at, between its two points.
fn edge_seen(looked: &Glimpse, source: &Point, target: &Point) -> Span
    requires look { (v : _) × (d : _) × IsSoundLook v d looked.now }
    requires source { source.now ≡ looked.now.source }
    requires target { target.now ≡ looked.now.target }
    ensures { (v : _) (d : _) → IsSoundLook v d looked.now → result ≡ span_in v d }
{
    let line = looked.line();
    if *source < *target {
        Span::between(*source, *target, line)
    } else {
        Span::between(*target, *source, line)
    }
}

/// Whether the side of a span's line on which the points of a dart that was looked at are tells that its edge has no point in common
/// with the span.
pub(crate) fn is_ruled_out(looked: &Glimpse, whole: &Span) -> bool
    ensures { (v : _) (d : _) → IsSoundLook v d looked.now → result ≡ true → IsMetOf v whole.now d None }
{
    let source = looked.source();
    let target = looked.target();
    // The laws of points and lines tell that the edge is a span.
    source.laws();
    target.laws();
    looked.line().laws();
    are_aside(&whole.line(), &source, &target)
}

/// The points that a span has in common with the edge of a dart that was looked at, its ends included. `None` where there are none.
pub(crate) fn points_on_edge(looked: &Glimpse, whole: &Span) -> Option<CommonPoints>
    requires { (v : _) × (d : _) × IsSoundLook v d looked.now }
    ensures { (v : _) (d : _) → IsSoundLook v d looked.now → IsMetOf v whole.now d result }
{
    let source = looked.source();
    let target = looked.target();
    // The laws of points and lines tell that the edge is a span.
    source.laws();
    target.laws();
    looked.line().laws();
    let edge = edge_seen(looked, &source, &target);
    match span_meeting(whole, &edge) {
        Meet::Apart => None,
        Meet::At(point) => Some(CommonPoints {
            first: point,
            last: None,
            source,
            target,
        }),
        Meet::Along(first, last) => Some(CommonPoints {
            first,
            last: Some(last),
            source,
            target,
        }),
    }
}
