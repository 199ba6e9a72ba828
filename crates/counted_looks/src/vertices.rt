ghost use Rattle.std.specs.Prelude.{◌≡◌, ◌+◌, length};
ghost use Rattle.dcel_records.specs.Spots.{IsVertexAt};

use dcel_records::Records;
use exact_plane::Point;
use slab_laws::{Darts, VertexId};
use std::sync::ledger::Ledger;
use work_steps::Steps;

/// The vertex at a point, by one look at each vertex. It looks at those after the one that it found too, so that what it takes is known
/// from the records alone.
pub(crate) fn look_at_vertices<L: Ledger>(
    records: &Records,
    point: &Point,
    steps: &mut Steps<L>,
) -> Option<VertexId>
    ensures vertex { IsVertexAt records.now.graph point.now result }
    ensures looks { steps.new ≡ steps.old + length records.now.graph.vertices }
{
    let mut found = None;
    let mut last = None;
    'vertices: while let Some(vertex) = records.vertex_after(last) {
        steps.tick();
        if records.point(vertex) == *point {
            found = Some(vertex);
        }
        last = Some(vertex);
    }
    found
}
