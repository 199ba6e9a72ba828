ghost use Rattle.std.specs.Prelude.{IfOk};
ghost use Rattle.slab_laws.specs.FacesSound.{IsSound};
ghost use Rattle.lower_envelope.specs.Edges.{AreOuterDarts};
ghost use Rattle.lower_envelope.specs.Corners.{AreOuterEnds, AreSlabEdgesOf};

use crate::edges::{darts_of, spans_of, stretches_of};
use crate::slabs::outermost_of;
use envelope_laws::Which;
use exact_plane::{Point, Span};
use no_memory::NoMemory;
use record_orders::{VertexKey, points_of};
use slab_laws::{DartId, Faced};
use std::alloc::Global;

/// The outermost edge of each slab. A slab lies between neighbouring walls of the vertices that are looked at.
#[derive(Drop)]
pub(crate) struct SlabEdges {
    /// The vertices on the boundaries of the unbounded face, in their order, which tell the slabs.
    pub(crate) points: Vec<Point>,
    /// The edges on offer, by their darts.
    pub(crate) darts: Vec<DartId>,
    /// The same edges, in the same order.
    pub(crate) edges: Vec<Span>,
    /// By the number of a slab the place of its outermost edge.
    pub(crate) outermost: Vec<Option<usize>>,
}

/// The outermost edge of each slab, from the darts on the boundaries of the unbounded face and the vertices there in their order: of
/// the edges that have this face on their outer side, since no others are outermost anywhere.
///
/// # Errors
///
/// There was no memory.
pub(crate) fn slab_edges_of<R: Faced>(
    alloc: Global,
    records: &R,
    which: Which,
    boundary: &[DartId],
    ends: &[VertexKey],
) -> Result<SlabEdges, NoMemory>
    requires sound { IsSound (R.graph records.now) (R.faces records.now) }
    requires boundary { AreOuterDarts (R.graph records.now) (R.faces records.now) boundary.now }
    requires ends { AreOuterEnds (R.graph records.now) (R.faces records.now) ends.now }
    ensures { IfOk result (AreSlabEdgesOf which (R.graph records.now) (R.faces records.now) ends.now) }
{
    let points = points_of(alloc, ends)?;
    let darts = darts_of(alloc, records, which, boundary)?;
    let edges = spans_of(alloc, records, &darts)?;
    let stretches = stretches_of(alloc, &points, &edges)?;
    let outermost = outermost_of(alloc, which, &edges, &stretches, points.len())?;
    Ok(SlabEdges {
        points,
        darts,
        edges,
        outermost,
    })
}
