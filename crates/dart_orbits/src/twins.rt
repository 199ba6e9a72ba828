ghost use Rattle.std.specs.Prelude.{◌≡◌, ◌<◌, cond, length, slice_index_or, IfOk};
ghost use Rattle.exact_plane.specs.PointOrder.{point_cmp};
ghost use Rattle.plane_graphs.specs.Ascending.{IsAscending};
ghost use Rattle.slab_laws.specs.Skeleton.{IsPlaneSkeleton};
ghost use Rattle.slab_laws.specs.SpansDrawn.{drawn};
ghost use Rattle.slab_laws.specs.Rows.{dart_rows, twin_places};
ghost use Rattle.dart_orbits.specs.Along.{AreEdgesBelow, AreOnceEach, ArePlacesAlong};

use crate::tables::{number_at, set_number};
use exact_plane::{Point, Span};
use no_memory::NoMemory;
use slab_laws::ListedDart;
use std::alloc::Global;

// By the place of each edge, of which there are so many, the place of the dart that goes along it in one direction.
fn places_along(
    alloc: Global,
    darts: &[ListedDart],
    count: usize,
    forward: bool,
) -> Result<Vec<usize>, NoMemory>
    requires edges { AreEdgesBelow count darts.now }
    requires once { AreOnceEach darts.now }
    ensures counted { IfOk result (λ v. length v.items ≡ count) }
    ensures along { IfOk result (λ v. ArePlacesAlong darts.now forward (length darts.now) v.items) }
{
    let mut places = Vec::new(alloc);
    places.resize(count, 0)?;
    for (place, dart) in darts.iter().enumerate() {
        if dart.forward == forward {
            set_number(&mut places, dart.edge, place);
        }
    }
    Ok(places)
}

// The place of a dart's twin, by the places of the darts that go forward along the edges and back.
fn twin_among(ahead: &[usize], back: &[usize], dart: &ListedDart) -> usize
    requires ahead { dart.now.edge < length ahead.now }
    requires back { dart.now.edge < length back.now }
    ensures { result ≡ slice_index_or (cond dart.now.forward back.now ahead.now) dart.now.edge 0 }
{
    if dart.forward {
        number_at(back, dart.edge)
    } else {
        number_at(ahead, dart.edge)
    }
}

/// Of each dart the place of its twin, the dart of the same edge in the other direction (CGAL manual, twin).
///
/// The darts are those of `darts_of` for these points and edges, which say what graph is meant and aren't read. Two tables by edges
/// tell each twin.
///
/// # Errors
///
/// `NoMemory` where there is no memory for the list.
pub fn twins_of(
    alloc: Global,
    points: &[Point],
    edges: &[Span],
    darts: &[ListedDart],
) -> Result<Vec<usize>, NoMemory>
    requires plane { IsPlaneSkeleton (drawn points.now edges.now) }
    requires ascend { IsAscending point_cmp points.now }
    requires darts { darts.now ≡ dart_rows (drawn points.now edges.now) }
    ensures { IfOk result (λ ts. ts.items ≡ twin_places (drawn points.now edges.now)) }
{
    let ahead = places_along(alloc, darts, edges.len(), true)?;
    let back = places_along(alloc, darts, edges.len(), false)?;
    let mut twins = Vec::with_capacity(alloc, darts.len())?;
    for dart in darts {
        twins.push(twin_among(&ahead, &back, dart))?;
    }
    Ok(twins)
}
