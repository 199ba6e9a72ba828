ghost use Rattle.std.specs.Prelude.{◌≡◌, ◌&&◌, true, int_lt};
ghost use Rattle.slab_laws.specs.Skeleton.{left_of, below};
ghost use Rattle.slab_laws.specs.SpansDrawn.{edge_of};

use edge_predicates::{is_below, is_left_of};
use exact_plane::{BoundingBox, Span};

// Whether all that is in a box is above all that is in another one.
fn is_wholly_over(bounds: &BoundingBox, others: &BoundingBox) -> bool
    ensures { result ≡ int_lt others.now.greatest.y bounds.now.least.y }
{
    others.greatest.y < bounds.least.y
}

// Whether two edges have more than one abscissa in common.
fn overlap(edge: &Span, other: &Span) -> bool
    ensures { result ≡ (left_of edge.now.lower other.now.upper && left_of other.now.lower edge.now.upper) }
{
    is_left_of(&edge.lower(), &other.upper()) && is_left_of(&other.lower(), &edge.upper())
}

// Whether all of an edge, with its box, is below all of another one, and they have abscissas in common.
fn is_wholly_under(edge: &Span, bounds: &BoundingBox, other: &Span, others: &BoundingBox) -> bool
    ensures { result ≡ (int_lt bounds.now.greatest.y others.now.least.y && (left_of edge.now.lower other.now.upper && left_of other.now.lower edge.now.upper)) }
{
    is_wholly_over(others, bounds) && overlap(edge, other)
}

/// Whether an edge is below another one, as `edge_predicates::is_below` says. Mostly the whole parts of ordinates tell, and no heights
/// are compared.
pub(crate) fn is_lower(edge: &Span, other: &Span) -> bool
    requires own { left_of edge.now.lower edge.now.upper ≡ true }
    requires others { left_of other.now.lower other.now.upper ≡ true }
    ensures { result ≡ below (edge_of edge.now) (edge_of other.now) }
{
    edge.laws();
    other.laws();
    let bounds = BoundingBox::of(edge);
    let others = BoundingBox::of(other);
    if is_wholly_over(&bounds, &others) {
        return false;
    }
    if is_wholly_under(edge, &bounds, other, &others) {
        return true;
    }
    is_below(edge, other)
}
