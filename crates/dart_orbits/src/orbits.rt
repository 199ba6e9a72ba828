ghost use Rattle.std.specs.Prelude.{◌≡◌, IfOk};
ghost use Rattle.exact_plane.specs.PointOrder.{point_cmp};
ghost use Rattle.plane_graphs.specs.Ascending.{IsAscending};
ghost use Rattle.slab_laws.specs.Skeleton.{IsPlaneSkeleton};
ghost use Rattle.slab_laws.specs.SpansDrawn.{drawn};
ghost use Rattle.dart_orbits.specs.DartRows.{ahead_rows};
ghost use Rattle.dart_orbits.specs.Orbits.{AreOrbits};

use crate::cycles::{cycles_at, least_darts_among};
use crate::leads::least_darts_by_walks;
use crate::nexts::nexts_around;
use crate::rows::darts_by_rows;
use crate::twins::twins_of;
use crate::ways::darts_around;
use exact_plane::{Point, Span};
use no_memory::NoMemory;
use slab_laws::ListedDart;
use std::alloc::Global;

/// The darts of a plane graph, how they stand round its vertices, and their cycles, all by places.
#[derive(Drop)]
pub struct Orbits {
    /// By source, then by target.
    pub darts: Vec<ListedDart>,
    /// Of each dart its twin.
    pub twins: Vec<usize>,
    /// All darts by their sources, those of one source clockwise from straight down.
    pub around: Vec<usize>,
    /// Of each dart the one that follows on its cycle.
    pub nexts: Vec<usize>,
    /// Of each dart the least dart of its cycle.
    pub leads: Vec<usize>,
    /// Of each cycle its least dart, ascending.
    pub cycles: Vec<usize>,
    /// Of each dart its cycle.
    pub in_cycles: Vec<usize>,
}

/// The darts of a plane graph and their cycles, in n log n steps for n edges (CGAL manual, halfedges and boundary cycles). The points
/// are in their order, and the rows are those of the darts that go forward along the edges, in the order of these.
///
/// # Errors
///
/// There was no memory.
pub fn orbits_of(
    alloc: Global,
    points: &[Point],
    edges: &[Span],
    ahead: &[ListedDart],
) -> Result<Orbits, NoMemory>
    requires plane { IsPlaneSkeleton (drawn points.now edges.now) }
    requires ascend { IsAscending point_cmp points.now }
    requires ahead { ahead.now ≡ ahead_rows (drawn points.now edges.now) }
    ensures { IfOk result (AreOrbits (drawn points.now edges.now)) }
{
    let darts = darts_by_rows(alloc, points, edges, ahead)?;
    let twins = twins_of(alloc, points, edges, &darts)?;
    let around = darts_around(alloc, points, edges, &darts)?;
    let nexts = nexts_around(alloc, points, edges, &darts, &twins, &around)?;
    let leads = least_darts_by_walks(alloc, points, edges, &nexts)?;
    let cycles = least_darts_among(alloc, points, edges, &leads)?;
    let in_cycles = cycles_at(alloc, points, edges, &leads, &cycles)?;
    Ok(Orbits {
        darts,
        twins,
        around,
        nexts,
        leads,
        cycles,
        in_cycles,
    })
}
