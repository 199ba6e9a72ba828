ghost use Rattle.std.specs.Prelude.{◌≡◌, Contains};
ghost use Rattle.std.specs.Ordering.{is_lt};
ghost use Rattle.exact_plane.specs.PointOrder.{point_cmp};
ghost use Rattle.plane_graphs.specs.Ascending.{IsAscending};
ghost use Rattle.slab_laws.specs.Darts.{ahead};
ghost use Rattle.slab_laws.specs.Rows.{dart_place, dart_rows};
ghost use Rattle.slab_laws.specs.Skeleton.{IsPlaneSkeleton};
ghost use Rattle.slab_laws.specs.SpansDrawn.{drawn};
ghost use Rattle.sweep_graphs.specs.Edges.{ends_cmp, edge_between};
ghost use Rattle.overlay_sweep.specs.DartEnds.{ends_of_row};

use exact_plane::{Point, Span};
use slab_laws::ListedDart;
use sweep_graphs::EdgeEnds;

fn comes_before(dart: &ListedDart, edge: &EdgeEnds) -> bool
    ensures { result ≡ is_lt (ends_cmp (ends_of_row dart.now) edge.now) }
{
    let ends = EdgeEnds {
        low: dart.source,
        high: dart.target,
    };
    ends < *edge
}

/// The place of the dart that goes forward along an edge, by one search. The darts are those of `darts_of` for these points and
/// edges, of which the edge is one.
pub fn forward_dart(
    points: &[Point],
    edges: &[Span],
    darts: &[ListedDart],
    edge: &EdgeEnds,
) -> usize
    requires plane { IsPlaneSkeleton (drawn points.now edges.now) }
    requires ascend { IsAscending point_cmp points.now }
    requires darts { darts.now ≡ dart_rows (drawn points.now edges.now) }
    requires edge { Contains (drawn points.now edges.now).edges (edge_between points.now edge.now) }
    ensures { result ≡ dart_place (drawn points.now edges.now) (ahead (edge_between points.now edge.now)) }
{
    darts.partition_point(|dart| comes_before(dart, edge))
}
