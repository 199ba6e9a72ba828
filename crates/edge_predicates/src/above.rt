ghost use Rattle.std.specs.Prelude.{◌≡◌};
ghost use Rattle.slab_laws.specs.SpansDrawn.{edge_of};
ghost use Rattle.edge_predicates.specs.Above.{is_above as lies_above};

use crate::edges::{is_over, is_under};
use crate::points::precedes;
use exact_plane::Span;

/// Which of two edges is above the other, where both go on beyond the later of their lower ends.
pub fn is_above(edge: &Span, other: &Span) -> bool
    ensures { result ≡ lies_above (edge_of edge.now) (edge_of other.now) }
{
    let lower = edge.lower();
    let start = other.lower();
    if precedes(&start, &lower) {
        is_under(other, &lower)
    } else if precedes(&lower, &start) {
        is_over(edge, &start)
    } else {
        is_under(other, &edge.upper())
    }
}
