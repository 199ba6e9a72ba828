ghost use Rattle.std.specs.Prelude.{◌≡◌, ◌<◌, length, map};
ghost use Rattle.slab_laws.specs.Darts.{class};
ghost use Rattle.slab_laws.specs.SpansDrawn.{edge_of};
ghost use Rattle.slab_laws.specs.Rotation.{earlier};
ghost use Rattle.dart_orbits.specs.DartRows.{row_dart};
ghost use Rattle.plain_slabs.specs.RowTurns.{row_comes_first};

use edge_predicates::{is_below, is_slanted};
use exact_plane::Span;
use slab_laws::ListedDart;

// In which quarter of the way round a vertex an edge goes out, clockwise from straight down: to the left, up, to the right,
// or down.
fn quarter(edge: &Span, forward: bool) -> u8
    ensures { result ≡ class (edge_of edge.now) forward }
{
    match (is_slanted(edge), forward) {
        (true, false) => 0,
        (false, true) => 1,
        (true, true) => 2,
        (false, false) => 3,
    }
}

// Whether a dart comes before another on the way clockwise round their source, from straight down on.
fn is_earlier(edges: &[Span], dart: &ListedDart, other: &ListedDart) -> bool
    requires own { dart.now.edge < length edges.now }
    requires others { other.now.edge < length edges.now }
    ensures { let es = map edge_of edges.now in result ≡ earlier (row_dart es dart.now) (row_dart es other.now) }
{
    let (edge, other_edge) = (&edges[dart.edge], &edges[other.edge]);
    let (own, others) = (
        quarter(edge, dart.forward),
        quarter(other_edge, other.forward),
    );
    if own != others {
        return own < others;
    }
    // On the left the way goes upwards, on the right downwards. Straight up and straight down there is one edge at most.
    match own {
        0 => is_below(edge, other_edge),
        2 => is_below(other_edge, edge),
        _ => false,
    }
}

// Whether a dart is met before another on the way clockwise round their source, from just after a third one on, which is met
// last.
pub(crate) fn comes_first_clockwise(
    edges: &[Span],
    from: &ListedDart,
    dart: &ListedDart,
    other: &ListedDart,
) -> bool
    requires from { from.now.edge < length edges.now }
    requires own { dart.now.edge < length edges.now }
    requires others { other.now.edge < length edges.now }
    ensures { result ≡ row_comes_first edges.now from.now dart.now other.now }
{
    let is_later = is_earlier(edges, from, dart);
    if is_later != is_earlier(edges, from, other) {
        return is_later;
    }
    is_earlier(edges, dart, other)
}
