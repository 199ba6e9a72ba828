ghost use Rattle.std.specs.Prelude.{◌≡◌, true, pos};
ghost use Rattle.slab_laws.specs.SpansDrawn.{edge_of};
ghost use lib.Signed.{lt_z};
ghost use Rattle.slab_laws.specs.Skeleton.{left_of, in_range, higher_at, below, gap};

use crate::points::is_left_of;
use exact_plane::{Point, Span, above_at};

// Whether the point is within the edge's abscissas, ends included.
fn has_in_range(edge: &Span, point: &Point) -> bool
    ensures { result ≡ in_range (edge_of edge.now) point.now }
{
    !is_left_of(point, &edge.lower()) && !is_left_of(&edge.upper(), point)
}

// Whether the other edge's line is higher at the point's abscissa.
fn is_line_below(edge: &Span, other: &Span, point: &Point) -> bool
    requires own { left_of edge.now.lower edge.now.upper ≡ true }
    requires others { left_of other.now.lower other.now.upper ≡ true }
    ensures { result ≡ lt_z (pos 0) (gap (edge_of edge.now) (edge_of other.now) point.now) }
{
    edge.laws();
    other.laws();
    point.laws();
    above_at(&other.line(), &edge.line(), point).is_gt()
}

// Whether the other edge is higher at the point's abscissa, which both pass.
fn is_lower_at(edge: &Span, other: &Span, point: &Point) -> bool
    requires own { left_of edge.now.lower edge.now.upper ≡ true }
    requires others { left_of other.now.lower other.now.upper ≡ true }
    ensures { result ≡ higher_at (edge_of edge.now) (edge_of other.now) point.now }
{
    has_in_range(edge, point) && has_in_range(other, point) && is_line_below(edge, other, point)
}

/// Whether the edge is below the other at an end of one of them that both pass: the order of the edges of a slab (Fogel, Halperin and Wein:
/// status order of the sweep).
pub fn is_below(edge: &Span, other: &Span) -> bool
    requires own { left_of edge.now.lower edge.now.upper ≡ true }
    requires others { left_of other.now.lower other.now.upper ≡ true }
    ensures { result ≡ below (edge_of edge.now) (edge_of other.now) }
{
    is_lower_at(edge, other, &edge.lower())
        || is_lower_at(edge, other, &edge.upper())
        || is_lower_at(edge, other, &other.lower())
        || is_lower_at(edge, other, &other.upper())
}
