ghost use Rattle.std.specs.Prelude.{◌≤◌};
ghost use Rattle.curve_history.specs.Past.{curves_on, strands_on, SameLayer, SpendsPairs};
ghost use Rattle.dcel_records.specs.RecordsView.{IsSpare, IsSpareFaces};
ghost use Rattle.dcel_records.specs.SoundMaps.{IsMapAtRest, map_of};
ghost use Rattle.dcel_records.specs.Spots.{met_of};
ghost use Rattle.face_location.specs.Spots.{IsSpotOf};
ghost use Rattle.observer_bus.specs.Rows.{bus_row};
ghost use Rattle.sound_views.specs.RecordGraphLaws.{IsVertexAt};
ghost use Rattle.told_steps.specs.StrandRuns.{IsStrandRun};
ghost use Rattle.told_steps.specs.ToldRuns.{AreInStep, IsToldRun};
ghost use Rattle.told_steps.specs.VertexMade.{darts_at, IsPlaneWith, IsVertexMade, pairs_at, steps_at, vertices_at};

use crate::edges::split_edge;
use crate::vertices::add_vertex;
use curve_history::History;
use dcel_records::{Records, Spot};
use exact_plane::Point;
use observer_bus::Bus;
use slab_laws::VertexId;
use std::alloc::Global;

/// The vertex at a point; where there is none, the point becomes one at its spot, in room that is there: the edge that has it inside
/// is split, or a vertex comes inside the face that the spot names. Where no observer joins it takes no memory of its own (CGAL manual, `insert_point`).
pub fn make_vertex(
    alloc: Global,
    records: &mut Records,
    history: &mut History,
    bus: &mut Bus,
    at: Spot,
    p: Point,
) -> VertexId
    requires in_step { AreInStep (map_of records.old) (curves_on history.old)
        (bus_row Observer-dyn bus.old) }
    requires map { IsMapAtRest records.old }
    requires spot { IsSpotOf records.old.graph records.old.faces.tables p at }
    requires plane { IsPlaneWith records.old.graph (curves_on history.old) p (met_of at) }
    requires vertices { vertices_at (met_of at) ≤ records.old.spare_vertices }
    requires darts { darts_at (met_of at) ≤ records.old.spare_darts }
    requires pairs { pairs_at (strands_on history.old) (met_of at) ≤ history.old.spare_pairs }
    ensures told { IsToldRun (map_of records.old) (curves_on history.old)
        (bus_row Observer-dyn bus.old)
        (steps_at records.old.graph p (met_of at)) (map_of records.new) (curves_on history.new)
        (bus_row Observer-dyn bus.new) }
    ensures strands { IsStrandRun records.old.graph history.old (steps_at records.old.graph p (met_of at)) records.new.graph history.new }
    ensures in_step { AreInStep (map_of records.new) (curves_on history.new)
        (bus_row Observer-dyn bus.new) }
    ensures map { IsMapAtRest records.new }
    ensures vertex { IsVertexAt records.new.graph p result }
    ensures made { IsVertexMade records.old.graph (curves_on history.old) p (met_of at) records.new.graph (curves_on history.new) result }
    ensures layer { SameLayer history.old history.new }
    ensures spare { IsSpare records.new records.old (vertices_at (met_of at)) (darts_at (met_of at)) }
    ensures spare_faces { IsSpareFaces records.old.faces records.new.faces 0 0 }
    ensures spare_history { SpendsPairs history.old history.new (pairs_at (strands_on history.old) (met_of at)) }
{
    match at {
        Spot::Vertex(vertex) => vertex,
        Spot::Edge(d) => split_edge(alloc, records, history, bus, d, p),
        Spot::Face(face) => add_vertex(alloc, records, &*history, bus, face, p),
    }
}
