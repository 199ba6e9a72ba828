ghost use Rattle.std.specs.Prelude.{◌≡◌, ◌<◌, length, slice_index_or, None, IfOk};
ghost use Rattle.exact_plane.specs.PointOrder.{point_cmp};
ghost use Rattle.plane_graphs.specs.Ascending.{IsAscending};
ghost use Rattle.slab_laws.specs.Skeleton.{IsPlaneSkeleton};
ghost use Rattle.slab_laws.specs.SpansDrawn.{drawn};
ghost use Rattle.face_roots.specs.CycleRanks.{IsRootOf, AreRankedBy, AreRootsOf};
ghost use Rattle.dart_orbits.specs.Orbits.{AreOrbits};
ghost use Rattle.dart_orbits.specs.Ways.{row_in};
ghost use Rattle.overlay_sweep.specs.CycleFaces.{AreCycleRanks};
ghost use Rattle.overlay_sweep.specs.EdgesUnder.{AreUnder};

use crate::darts::forward_dart;
use crate::kinds::is_inner;
use dart_orbits::Orbits;
use exact_plane::{Point, Span};
use face_roots::{Root, ranks_of};
use no_memory::NoMemory;
use std::alloc::Global;
use sweep_graphs::EdgeEnds;

pub(crate) fn edge_under(below: &[Option<EdgeEnds>], vertex: usize) -> Option<EdgeEnds>
    requires { vertex < length below.now }
    ensures { result ≡ slice_index_or below.now vertex None }
{
    below[vertex]
}

pub(crate) fn lead_of(orbits: &Orbits, cycle: usize) -> usize
    requires { cycle < length orbits.now.cycles.items }
    ensures { result ≡ slice_index_or orbits.now.cycles.items cycle 0 }
{
    orbits.cycles[cycle]
}

fn source_of(orbits: &Orbits, dart: usize) -> usize
    requires { dart < length orbits.now.darts.items }
    ensures { result ≡ (row_in orbits.now.darts.items dart).source }
{
    orbits.darts[dart].source
}

pub(crate) fn cycle_of(orbits: &Orbits, dart: usize) -> usize
    requires { dart < length orbits.now.in_cycles.items }
    ensures { result ≡ slice_index_or orbits.now.in_cycles.items dart 0 }
{
    orbits.in_cycles[dart]
}

// What tells the face of a cycle.
fn root_of(
    points: &[Point],
    edges: &[Span],
    orbits: &Orbits,
    below: &[Option<EdgeEnds>],
    cycle: usize,
) -> Root
    requires plane { IsPlaneSkeleton (drawn points.now edges.now) }
    requires ascend { IsAscending point_cmp points.now }
    requires orbits { AreOrbits (drawn points.now edges.now) orbits.now }
    requires below { AreUnder (drawn points.now edges.now) below.now }
    requires cycle { cycle < length orbits.now.cycles.items }
    ensures { IsRootOf (drawn points.now edges.now) cycle result }
{
    let lead = lead_of(orbits, cycle);
    if !is_inner(
        points,
        edges,
        &orbits.darts,
        &orbits.around,
        &orbits.leads,
        lead,
    ) {
        return Root::Outer;
    }
    match edge_under(below, source_of(orbits, lead)) {
        Some(edge) => {
            let dart = forward_dart(points, edges, &orbits.darts, &edge);
            Root::Above(cycle_of(orbits, dart))
        }
        None => Root::Outside,
    }
}

/// What tells the face of each cycle: nothing else, where it bounds its face from outside; else the edge directly below its least
/// vertex (CGAL manual, outer and inner boundary cycles). Two searches for each cycle.
///
/// The darts and their cycles are those of `orbits_of` for these points and edges, and of each vertex the edge below it is known.
///
/// # Errors
///
/// There was no memory.
pub fn roots_of(
    alloc: Global,
    points: &[Point],
    edges: &[Span],
    orbits: &Orbits,
    below: &[Option<EdgeEnds>],
) -> Result<Vec<Root>, NoMemory>
    requires plane { IsPlaneSkeleton (drawn points.now edges.now) }
    requires ascend { IsAscending point_cmp points.now }
    requires orbits { AreOrbits (drawn points.now edges.now) orbits.now }
    requires below { AreUnder (drawn points.now edges.now) below.now }
    ensures { IfOk result (λ v. AreRootsOf (drawn points.now edges.now) v.items) }
{
    let count = orbits.cycles.len();
    let mut roots = Vec::with_capacity(alloc, count)?;
    for cycle in 0..count {
        roots.push(root_of(points, edges, orbits, below, cycle))?;
    }
    Ok(roots)
}

/// The ranks of the faces of all cycles, in the order of these, by their roots: the unbounded face has rank 0, and the others follow by
/// the least darts of their outer cycles. Of the points and edges only the contract speaks; the roots are those of `roots_of`.
///
/// # Errors
///
/// There was no memory.
pub fn cycle_ranks(
    alloc: Global,
    points: &[Point],
    edges: &[Span],
    roots: &[Root],
) -> Result<Vec<usize>, NoMemory>
    requires plane { IsPlaneSkeleton (drawn points.now edges.now) }
    requires roots { AreRootsOf (drawn points.now edges.now) roots.now }
    ensures ranks { IfOk result (λ v. AreCycleRanks (drawn points.now edges.now) v.items) }
    ensures ranked { IfOk result (λ v. AreRankedBy roots.now v.items) }
{
    let ranks = ranks_of(alloc, roots)?;
    Ok(ranks)
}
