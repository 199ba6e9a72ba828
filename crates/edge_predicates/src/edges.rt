ghost use Rattle.std.specs.Prelude.{◌≡◌, ◌&&◌};
ghost use Rattle.exact_plane.specs.Sign.{sign_of};
ghost use Rattle.slab_laws.specs.SpansDrawn.{edge_of};
ghost use Rattle.slab_laws.specs.Skeleton.{left_of, over, under, inside, precedes as comes_before, side as side_number};
ghost use Rattle.slab_laws.specs.Slabs.{reaches_left as is_reached_left, reaches_right as is_reached_right};
ghost use Rattle.slab_laws.specs.Meets.{covers_above};
ghost use Rattle.slab_laws.specs.Faces.{passes as passes_wall};

use crate::points::{is_left_of, is_lower_than, is_on_wall, precedes};
use exact_plane::{Point, Sign, Span, side};

/// Whether the edge isn't vertical.
pub fn is_slanted(edge: &Span) -> bool
    ensures { result ≡ left_of edge.now.lower edge.now.upper }
{
    is_left_of(&edge.lower(), &edge.upper())
}

// The side of the edge's line on which a point is.
fn side_of(edge: &Span, point: &Point) -> Sign
    ensures { result ≡ sign_of (side_number (edge_of edge.now) point.now) }
{
    edge.laws();
    side(&edge.line(), point)
}

/// Whether the edge's line passes above the point, or on the left of it where the edge is vertical.
pub fn is_over(edge: &Span, point: &Point) -> bool
    ensures { result ≡ over (edge_of edge.now) point.now }
{
    match side_of(edge, point) {
        Sign::Minus => true,
        Sign::Zero | Sign::Plus => false,
    }
}

/// Whether the edge's line passes below the point, or on the right of it where the edge is vertical.
pub fn is_under(edge: &Span, point: &Point) -> bool
    ensures { result ≡ under (edge_of edge.now) point.now }
{
    match side_of(edge, point) {
        Sign::Plus => true,
        Sign::Zero | Sign::Minus => false,
    }
}

// Whether the point comes after the edge's lower end and before its upper end.
fn is_between_ends(edge: &Span, point: &Point) -> bool
    ensures { result ≡ (comes_before edge.now.lower point.now && comes_before point.now edge.now.upper) }
{
    precedes(&edge.lower(), point) && precedes(point, &edge.upper())
}

/// Whether the point lies on the edge and is none of its ends.
pub fn has_inside(edge: &Span, point: &Point) -> bool
    ensures { result ≡ inside (edge_of edge.now) point.now }
{
    edge.laws();
    is_between_ends(edge, point) && edge.line().holds(point)
}

/// Whether the edge is in the slab directly to the left of the point's wall.
pub fn reaches_left(edge: &Span, point: &Point) -> bool
    ensures { result ≡ is_reached_left (edge_of edge.now) point.now }
{
    is_left_of(&edge.lower(), point) && !is_left_of(&edge.upper(), point)
}

/// Whether the edge is in the slab directly to the right of the point's wall.
pub fn reaches_right(edge: &Span, point: &Point) -> bool
    ensures { result ≡ is_reached_right (edge_of edge.now) point.now }
{
    !is_left_of(point, &edge.lower()) && is_left_of(point, &edge.upper())
}

/// Whether the edge passes through the point's wall, from the slab on its left to the one on its right.
pub fn passes(edge: &Span, point: &Point) -> bool
    ensures { result ≡ passes_wall point.now (edge_of edge.now) }
{
    is_left_of(&edge.lower(), point) && is_left_of(point, &edge.upper())
}

/// Whether the edge is vertical and covers the part of the point's wall just above it.
pub fn covers(edge: &Span, point: &Point) -> bool
    ensures { result ≡ covers_above (edge_of edge.now) point.now }
{
    is_on_wall(&edge.lower(), point)
        && is_on_wall(&edge.upper(), point)
        && !is_lower_than(point, &edge.lower())
        && is_lower_than(point, &edge.upper())
}
