ghost use Rattle.std.specs.Prelude.{◌≡◌, ◌<◌, true, length, map, Contains};
ghost use Rattle.std.specs.List.{count_by};
ghost use Rattle.slab_laws.specs.Cycles.{left_of_dart};
ghost use Rattle.slab_laws.specs.Darts.{cell_of};
ghost use Rattle.slab_laws.specs.SpansDrawn.{edge_of, drawn};
ghost use Rattle.slab_laws.specs.Rows.{dart_at, dart_rows};
ghost use Rattle.slab_laws.specs.Skeleton.{left_of, IsPlaneSkeleton};
ghost use Rattle.edge_predicates.specs.CellsAbove.{is_beneath};

use edge_predicates::{cell_after, cell_before, is_below, is_slanted, reaches_right, slab_after};
use exact_plane::{Point, Span};
use slab_laws::{ListedDart, SlabCell};

// Whether an edge is in the slab on the right of the other's lower end, and below the other there.
fn is_below_beside(edge: &Span, other: &Span) -> bool
    requires { left_of other.now.lower other.now.upper ≡ true }
    ensures { result ≡ is_beneath other.now edge.now }
{
    edge.laws();
    reaches_right(edge, &other.lower()) && is_below(edge, other)
}

// How many edges of the slab on the right of the edge's lower end are below the edge.
fn place_beside(edges: &[Span], edge: &Span) -> usize
    requires { left_of edge.now.lower edge.now.upper ≡ true }
    ensures { result ≡ count_by (is_beneath edge.now) edges.now }
{
    edges.iter().filter(|e| is_below_beside(e, edge)).count()
}

// The cell on the left of the way forward along an edge, or of the way back.
fn cell_beside(points: &[Point], edges: &[Span], edge: &Span, forward: bool) -> SlabCell
    requires plane { IsPlaneSkeleton (drawn points.now edges.now) }
    requires among { Contains (map edge_of edges.now) (edge_of edge.now) }
    ensures { result ≡ cell_of (drawn points.now edges.now) (edge_of edge.now) forward }
{
    let low = edge.lower();
    if is_slanted(edge) {
        let slab = slab_after(points, &low);
        let below = place_beside(edges, edge);
        let place = if forward { below + 1 } else { below };
        SlabCell { slab, place }
    } else if forward {
        cell_before(points, edges, &low)
    } else {
        cell_after(points, edges, &low)
    }
}

/// The cell on the left of a dart: of a slanted edge in the first slab that it spans, above it for the way forward and
/// below it for the way back; left of a vertical edge for the way up, right of it for the way down (CGAL manual,
/// incident face).
///
/// It takes time linear in the number of points and edges.
pub(crate) fn left_cell_at(
    points: &[Point],
    edges: &[Span],
    darts: &[ListedDart],
    place: usize,
) -> SlabCell
    requires plane { IsPlaneSkeleton (drawn points.now edges.now) }
    requires darts { darts.now ≡ dart_rows (drawn points.now edges.now) }
    requires place { place < length darts.now }
    ensures { result ≡ left_of_dart (drawn points.now edges.now) (dart_at (drawn points.now edges.now) place) }
{
    let dart = darts[place];
    let edge = edges[dart.edge];
    cell_beside(points, edges, &edge, dart.forward)
}
