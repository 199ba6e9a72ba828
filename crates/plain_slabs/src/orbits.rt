ghost use Rattle.std.specs.Prelude.{◌≡◌, IfOk};
ghost use Rattle.exact_plane.specs.PointOrder.{point_cmp};
ghost use Rattle.plane_graphs.specs.Ascending.{IsAscending};
ghost use Rattle.slab_laws.specs.SpansDrawn.{drawn};
ghost use Rattle.slab_laws.specs.Skeleton.{IsPlaneSkeleton};
ghost use Rattle.plain_slabs.specs.Orbits.{AreOrbits};

use crate::leads::least_darts;
use crate::nexts::nexts_of;
use dart_orbits::{cycles_at, darts_of, least_darts_among, twins_of};
use exact_plane::{Point, Span};
use no_memory::NoMemory;
use slab_laws::ListedDart;
use std::alloc::Global;

/// The darts of a graph and their cycles, by places.
#[derive(Drop)]
pub(crate) struct Orbits {
    pub(crate) darts: Vec<ListedDart>,
    pub(crate) twins: Vec<usize>,
    pub(crate) nexts: Vec<usize>,
    /// Of each dart the least dart of its cycle.
    pub(crate) leads: Vec<usize>,
    /// Of each cycle its least dart.
    pub(crate) cycles: Vec<usize>,
    /// Of each dart its cycle.
    pub(crate) in_cycles: Vec<usize>,
}

// The darts and their cycles.
pub(crate) fn orbits_of(alloc: Global, points: &[Point], edges: &[Span]) -> Result<Orbits, NoMemory>
    requires plane { IsPlaneSkeleton (drawn points.now edges.now) }
    requires ascend { IsAscending point_cmp points.now }
    ensures { IfOk result (AreOrbits (drawn points.now edges.now)) }
{
    let darts = darts_of(alloc, points, edges)?;
    let twins = twins_of(alloc, points, edges, &darts)?;
    let nexts = nexts_of(alloc, points, edges, &darts)?;
    let leads = least_darts(alloc, points, edges, &nexts)?;
    let cycles = least_darts_among(alloc, points, edges, &leads)?;
    let in_cycles = cycles_at(alloc, points, edges, &leads, &cycles)?;
    Ok(Orbits {
        darts,
        twins,
        nexts,
        leads,
        cycles,
        in_cycles,
    })
}
