ghost use Rattle.std.specs.Prelude.{◌≡◌, ◌<◌, ◌==◌, ◌&&◌, IfOk, length};
ghost use Rattle.exact_plane.specs.PointOrder.{point_cmp};
ghost use Rattle.plane_graphs.specs.Ascending.{IsAscending};
ghost use Rattle.slab_laws.specs.Skeleton.{IsPlaneSkeleton};
ghost use Rattle.slab_laws.specs.SpansDrawn.{drawn};
ghost use Rattle.slab_laws.specs.Rows.{dart_rows, next_places};
ghost use Rattle.dart_orbits.specs.DartRows.{place_after};
ghost use Rattle.plain_slabs.specs.RowTurns.{row_comes_first};

use crate::turns::comes_first_clockwise;
use dart_orbits::twins_of;
use exact_plane::{Point, Span};
use no_memory::NoMemory;
use slab_laws::ListedDart;
use std::alloc::Global;

// Whether a dart leaves the same vertex as the first one, and is met before the other on the way round from there.
fn is_nearer(edges: &[Span], from: &ListedDart, dart: &ListedDart, other: &ListedDart) -> bool
    requires from { from.now.edge < length edges.now }
    requires own { dart.now.edge < length edges.now }
    requires others { other.now.edge < length edges.now }
    ensures { result
        ≡ ((dart.now.source == from.now.source) && row_comes_first edges.now from.now dart.now other.now) }
{
    dart.source == from.source && comes_first_clockwise(edges, from, dart, other)
}

// The place of the dart that is met first on the way clockwise round a dart's source, from just after it on: itself where
// no other dart leaves that vertex.
fn first_after(points: &[Point], edges: &[Span], darts: &[ListedDart], from: usize) -> usize
    requires plane { IsPlaneSkeleton (drawn points.now edges.now) }
    requires ascend { IsAscending point_cmp points.now }
    requires darts { darts.now ≡ dart_rows (drawn points.now edges.now) }
    requires from { from < length darts.now }
    ensures { result ≡ place_after (drawn points.now edges.now) from }
{
    let mut first = from;
    for (place, dart) in darts.iter().enumerate() {
        if is_nearer(edges, &darts[from], dart, &darts[first]) {
            first = place;
        }
    }
    first
}

/// Of each dart the place of the dart that follows on its cycle: the first clockwise after the twin, out of the target
/// (CGAL manual, next halfedge of a boundary).
///
/// A dart whose target no other edge has is followed by its twin. The darts are those of `darts_of` for these points and
/// edges. Each dart is held against all: (2E)^2 tests of whole numbers for E edges, and of the edges themselves only where
/// two darts leave one vertex.
///
/// # Errors
///
/// `NoMemory` where there is no memory for the list.
pub(crate) fn nexts_of(
    alloc: Global,
    points: &[Point],
    edges: &[Span],
    darts: &[ListedDart],
) -> Result<Vec<usize>, NoMemory>
    requires plane { IsPlaneSkeleton (drawn points.now edges.now) }
    requires ascend { IsAscending point_cmp points.now }
    requires darts { darts.now ≡ dart_rows (drawn points.now edges.now) }
    ensures { IfOk result (λ ns. ns.items ≡ next_places (drawn points.now edges.now)) }
{
    let twins = twins_of(alloc, points, edges, darts)?;
    let mut nexts = Vec::with_capacity(alloc, twins.len())?;
    for twin in &twins {
        nexts.push(first_after(points, edges, darts, *twin))?;
    }
    Ok(nexts)
}
