ghost use Rattle.std.specs.Prelude.{◌≡◌, ◌++◌, map, IfOk};
ghost use Rattle.std.specs.List.{position_or_len};
ghost use Rattle.exact_plane.specs.PointOrder.{point_cmp};
ghost use Rattle.plane_graphs.specs.Ascending.{IsAscending};
ghost use Rattle.slab_laws.specs.Skeleton.{IsPlaneSkeleton, same_point};
ghost use Rattle.slab_laws.specs.SpansDrawn.{drawn};
ghost use Rattle.slab_laws.specs.Rows.{dart_rows};
ghost use Rattle.dart_orbits.specs.DartRows.{ahead_rows, twin_row};

use exact_plane::{Point, Span};
use no_memory::NoMemory;
use slab_laws::ListedDart;
use std::alloc::{AllocError, Global};

// The place of a point among the points, or their number where it isn't there.
fn place_of(points: &[Point], point: &Point) -> usize
    requires { IsAscending point_cmp points.now }
    ensures { result ≡ position_or_len (same_point point.now) points.now }
{
    points.binary_search(point).unwrap_or(points.len())
}

/// The rows of the darts that go forward along the edges, in the order of these, by two searches for each.
///
/// The points are in their order, and each edge's ends are among them.
pub(crate) fn rows_ahead(
    alloc: Global,
    points: &[Point],
    edges: &[Span],
) -> Result<Vec<ListedDart>, NoMemory>
    requires plane { IsPlaneSkeleton (drawn points.now edges.now) }
    requires ascend { IsAscending point_cmp points.now }
    ensures { IfOk result (λ rs. rs.items ≡ ahead_rows (drawn points.now edges.now)) }
{
    let mut rows = Vec::with_capacity(alloc, edges.len())?;
    for (edge, span) in edges.iter().enumerate() {
        rows.push(ListedDart {
            source: place_of(points, &span.lower()),
            target: place_of(points, &span.upper()),
            edge,
            forward: true,
        })?;
    }
    Ok(rows)
}

// The row of a dart's twin, the same edge in the other direction.
fn twin_row(dart: &ListedDart) -> ListedDart
    ensures { result ≡ twin_row dart.now }
{
    ListedDart {
        source: dart.target,
        target: dart.source,
        edge: dart.edge,
        forward: !dart.forward,
    }
}

// The rows, and after them those of the twins.
fn with_twins(alloc: Global, ahead: &[ListedDart]) -> Result<Vec<ListedDart>, AllocError>
    ensures { IfOk result (λ rs. rs.items ≡ ahead.now ++ map twin_row ahead.now) }
{
    let twins = ahead.iter().map(|row| twin_row(row));
    ahead.iter().copied().chain(twins).collect(alloc)
}

/// The darts of a plane graph, two for each edge, by source, then by target (CGAL manual, halfedge), from the rows of those that go
/// forward, which are in the order of the edges. Of the points and edges only the contract speaks.
pub(crate) fn darts_by_rows(
    alloc: Global,
    points: &[Point],
    edges: &[Span],
    ahead: &[ListedDart],
) -> Result<Vec<ListedDart>, NoMemory>
    requires plane { IsPlaneSkeleton (drawn points.now edges.now) }
    requires ascend { IsAscending point_cmp points.now }
    requires ahead { ahead.now ≡ ahead_rows (drawn points.now edges.now) }
    ensures { IfOk result (λ rs. rs.items ≡ dart_rows (drawn points.now edges.now)) }
{
    let mut rows = with_twins(alloc, ahead)?;
    // Edges that stand in their order give the first half in order, which this sort keeps as one run; it sorts the twins and merges.
    rows.sort()?;
    Ok(rows)
}

/// The darts of a plane graph, two for each edge, by source, then by target (CGAL manual, halfedge).
///
/// A dart's row has the places of its ends among the points and of its edge among the edges, from 0 on. The points are in
/// their order, and each edge's ends are among them. For V points and E edges this takes some E log V + E log E steps.
///
/// # Errors
///
/// `NoMemory` where there is no memory for the list.
pub fn darts_of(
    alloc: Global,
    points: &[Point],
    edges: &[Span],
) -> Result<Vec<ListedDart>, NoMemory>
    requires plane { IsPlaneSkeleton (drawn points.now edges.now) }
    requires ascend { IsAscending point_cmp points.now }
    ensures { IfOk result (λ rs. rs.items ≡ dart_rows (drawn points.now edges.now)) }
{
    let ahead = rows_ahead(alloc, points, edges)?;
    darts_by_rows(alloc, points, edges, &ahead)
}
