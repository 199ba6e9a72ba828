ghost use Rattle.std.specs.Prelude.{◌≡◌, ◌==◌, ◌&&◌, ◌<◌, length, map, slice_index_or, IfOk};
ghost use Rattle.exact_plane.specs.PointOrder.{point_cmp};
ghost use Rattle.plane_graphs.specs.Ascending.{IsAscending};
ghost use Rattle.slab_laws.specs.Darts.{ahead};
ghost use Rattle.slab_laws.specs.Rows.{dart_rows};
ghost use Rattle.slab_laws.specs.Skeleton.{IsPlaneSkeleton};
ghost use Rattle.slab_laws.specs.SpansDrawn.{drawn};
ghost use Rattle.slab_laws.specs.Subdivision.{has_dart};
ghost use Rattle.std.specs.List.{Contains};
ghost use Rattle.sweep_graphs.specs.Edges.{edge_between};
ghost use Rattle.sweep_graphs.specs.Traces.{point_at};
ghost use Rattle.dart_orbits.specs.Orbits.{AreOrbits};
ghost use Rattle.dart_orbits.specs.Ways.{row_in};
ghost use Rattle.overlay_sweep.specs.CycleFaces.{AreCycleRanks, rank_round};
ghost use Rattle.overlay_sweep.specs.EdgesUnder.{AreUnder};
ghost use Rattle.overlay_sweep.specs.LayerLabels.{rank_beside};
ghost use lib.Dec.{ltb};

use crate::darts::forward_dart;
use crate::roots::{cycle_of, edge_under};
use dart_orbits::Orbits;
use exact_plane::{Point, Span};
use no_memory::NoMemory;
use slab_laws::ListedDart;
use std::alloc::Global;
use sweep_graphs::EdgeEnds;

fn rank_at(ranks: &[usize], cycle: usize) -> usize
    requires { cycle < length ranks.now }
    ensures { result ≡ slice_index_or ranks.now cycle 0 }
{
    ranks[cycle]
}

/// The rank of the face above an edge, by one search. The darts and their cycles are those of `orbits_of` for these points and edges,
/// of which the edge is one, and the ranks are those of `cycle_ranks`.
pub fn rank_above(
    points: &[Point],
    edges: &[Span],
    orbits: &Orbits,
    ranks: &[usize],
    edge: &EdgeEnds,
) -> usize
    requires plane { IsPlaneSkeleton (drawn points.now edges.now) }
    requires ascend { IsAscending point_cmp points.now }
    requires orbits { AreOrbits (drawn points.now edges.now) orbits.now }
    requires ranks { AreCycleRanks (drawn points.now edges.now) ranks.now }
    requires edge { Contains (drawn points.now edges.now).edges (edge_between points.now edge.now) }
    ensures { result ≡ rank_beside (drawn points.now edges.now) (ahead (edge_between points.now edge.now)) }
{
    let dart = forward_dart(points, edges, &orbits.darts, edge);
    rank_at(ranks, cycle_of(orbits, dart))
}

fn is_before(dart: &ListedDart, vertex: usize) -> bool
    ensures { result ≡ ltb dart.now.source vertex }
{
    dart.source < vertex
}

fn goes_out(darts: &[ListedDart], place: usize, vertex: usize) -> bool
    ensures { result ≡ (ltb place (length darts.now) && ((row_in darts.now place).source == vertex)) }
{
    place < darts.len() && darts[place].source == vertex
}

// Whether a dart goes out of a vertex, by one search.
fn has_dart_at(points: &[Point], edges: &[Span], darts: &[ListedDart], vertex: usize) -> bool
    requires plane { IsPlaneSkeleton (drawn points.now edges.now) }
    requires ascend { IsAscending point_cmp points.now }
    requires darts { darts.now ≡ dart_rows (drawn points.now edges.now) }
    requires vertex { vertex < length points.now }
    ensures { result ≡ has_dart (drawn points.now edges.now) (point_at points.now vertex) }
{
    let place = darts.partition_point(|dart| is_before(dart, vertex));
    goes_out(darts, place, vertex)
}

// Of a vertex without darts the rank of its face.
fn bare_rank(
    points: &[Point],
    edges: &[Span],
    orbits: &Orbits,
    below: &[Option<EdgeEnds>],
    ranks: &[usize],
    vertex: usize,
) -> usize
    requires plane { IsPlaneSkeleton (drawn points.now edges.now) }
    requires ascend { IsAscending point_cmp points.now }
    requires orbits { AreOrbits (drawn points.now edges.now) orbits.now }
    requires below { AreUnder (drawn points.now edges.now) below.now }
    requires ranks { AreCycleRanks (drawn points.now edges.now) ranks.now }
    requires vertex { vertex < length points.now }
    ensures { result ≡ rank_round (drawn points.now edges.now) (point_at points.now vertex) }
{
    if has_dart_at(points, edges, &orbits.darts, vertex) {
        return 0;
    }
    match edge_under(below, vertex) {
        Some(edge) => rank_above(points, edges, orbits, ranks, &edge),
        None => 0,
    }
}

/// Of each vertex without darts the rank of its face, that above the edge directly below it (CGAL manual, isolated vertices); of the
/// others, 0. Two searches for each vertex.
///
/// The darts and their cycles are those of `orbits_of` for these points and edges, the ranks those of `cycle_ranks`, and of each
/// vertex the edge below it is known.
///
/// # Errors
///
/// There was no memory.
pub fn bare_ranks(
    alloc: Global,
    points: &[Point],
    edges: &[Span],
    orbits: &Orbits,
    below: &[Option<EdgeEnds>],
    ranks: &[usize],
) -> Result<Vec<usize>, NoMemory>
    requires plane { IsPlaneSkeleton (drawn points.now edges.now) }
    requires ascend { IsAscending point_cmp points.now }
    requires orbits { AreOrbits (drawn points.now edges.now) orbits.now }
    requires below { AreUnder (drawn points.now edges.now) below.now }
    requires ranks { AreCycleRanks (drawn points.now edges.now) ranks.now }
    ensures { IfOk result (λ v. v.items ≡ map (rank_round (drawn points.now edges.now)) points.now) }
{
    let mut bare = Vec::with_capacity(alloc, points.len())?;
    for vertex in 0..points.len() {
        bare.push(bare_rank(points, edges, orbits, below, ranks, vertex))?;
    }
    Ok(bare)
}
