ghost use Rattle.std.specs.Prelude.{◌≡◌, ◌≤◌, ◌+◌, ◌*◌, [], ◌∷◌};
ghost use Rattle.plane_graphs.specs.Line.{IsProper};
ghost use Rattle.slab_laws.specs.Sound.{IsGraphSound};
ghost use Rattle.dcel_records.specs.RecordsView.{IsSpareFaces, tables_of};
ghost use Rattle.dcel_records.specs.SoundMaps.{IsMapAtRest, map_of};
ghost use Rattle.dcel_records.specs.Spots.{met_of};
ghost use Rattle.face_location.specs.Spots.{IsFaceNamed};
ghost use Rattle.curve_history.specs.Past.{curves_on, strands_on, SameLayer};
ghost use Rattle.observer_bus.specs.Rows.{bus_row};
ghost use Rattle.told_steps.specs.ToldRuns.{AreInStep};
ghost use Rattle.told_steps.specs.VertexMade.{pairs_at};
ghost use Rattle.zone_walk.specs.Zone.{vertices_needed, splits_needed, points_of_meetings};
ghost use Rattle.segment_insert.specs.Coming.{HasPart, LeadsTo, IsMetNow, IsMetStill};
ghost use Rattle.segment_insert.specs.Insertion.{AreMeetings, AreVertices};
ghost use Rattle.segment_insert.specs.StepsMade.{new_pairs, MayBeVertices, BecomeVertices, BecomesVertex};

use curve_history::History;
use dcel_records::{Records, Spot};
use exact_plane::Point;
use observer_bus::Bus;
use slab_laws::{DartId, Darts, VertexId};
use std::alloc::Global;
use told_steps::make_vertex;
use zone_walk::Meeting;

// The part of an edge that has the point inside, by its dart. Where the edge went in several since its dart was told, that
// dart has the lowest part, and each part is followed by the next one.
fn part_at(records: &Records, dart: DartId, point: Point) -> DartId
    requires proper { IsProper point }
    requires sound { IsGraphSound records.now.graph }
    requires part { HasPart records.now.graph point dart }
    ensures { LeadsTo records.now.graph point result dart }
{
    let mut part = dart;
    'parts: while records.point(records.target(part)) < point {
        part = records.next(part);
    }
    part
}

// Where a meeting's point lies now: in a part of its edge, where that went in several since the meeting was told, and else where it
// was told to lie.
fn spot_now(records: &Records, meeting: &Meeting) -> Spot
    requires proper { IsProper meeting.now.point }
    requires sound { IsGraphSound records.now.graph }
    requires met { (h : _) × IsMetStill records.now.graph h meeting.now.point (met_of meeting.now.spot) }
    requires face { IsFaceNamed records.now.graph (tables_of records.now) meeting.now.point meeting.now.spot }
    ensures met { IsMetNow records.now.graph meeting.now.point (met_of meeting.now.spot) (met_of result) }
    ensures face { IsFaceNamed records.now.graph (tables_of records.now) meeting.now.point result }
{
    match meeting.spot {
        Spot::Vertex(vertex) => Spot::Vertex(vertex),
        Spot::Edge(dart) => Spot::Edge(part_at(records, dart, meeting.point)),
        Spot::Face(face) => Spot::Face(face),
    }
}

// The vertex at the meeting's point, which comes at the spot where there is none.
fn vertex_of(
    alloc: Global,
    records: &mut Records,
    history: &mut History,
    bus: &mut Bus,
    at: Spot,
    meeting: Meeting,
) -> VertexId
    requires in_step { AreInStep (map_of records.old) (curves_on history.old)
        (bus_row Observer-dyn bus.old) }
    requires map { IsMapAtRest records.old }
    requires met { IsMetStill records.old.graph (strands_on history.old) meeting.point (met_of meeting.spot) }
    requires now { IsMetNow records.old.graph meeting.point (met_of meeting.spot) (met_of at) }
    requires face { IsFaceNamed records.old.graph (tables_of records.old) meeting.point at }
    requires plane { MayBeVertices records.old.graph history.old (meeting ∷ []) }
    requires vertices { vertices_needed (meeting ∷ []) ≤ records.old.spare_vertices }
    requires darts { 2 * splits_needed (meeting ∷ []) ≤ records.old.spare_darts }
    requires pairs { pairs_at (strands_on history.old) (met_of meeting.spot) ≤ history.old.spare_pairs }
    ensures told { BecomesVertex (map_of records.old) history.old (bus_row Observer-dyn bus.old) meeting
        (map_of records.new) history.new (bus_row Observer-dyn bus.new) result }
    ensures in_step { AreInStep (map_of records.new) (curves_on history.new)
        (bus_row Observer-dyn bus.new) }
    ensures map { IsMapAtRest records.new }
    ensures layer { SameLayer history.old history.new }
    ensures vertices { records.old.spare_vertices ≤ records.new.spare_vertices + vertices_needed (meeting ∷ []) }
    ensures darts { records.old.spare_darts ≤ records.new.spare_darts + 2 * splits_needed (meeting ∷ []) }
    ensures spare_faces { IsSpareFaces records.old.faces records.new.faces 0 0 }
    ensures pairs { history.old.spare_pairs ≤ history.new.spare_pairs + pairs_at (strands_on history.old) (met_of meeting.spot) }
{
    make_vertex(alloc, records, history, bus, at, meeting.point)
}

/// Makes every meeting point a vertex, in room that is there: an edge that has it inside goes in two, and inside a face a
/// vertex comes. Each meeting is told its vertex. The faces that meetings name stay theirs while vertices come.
pub(crate) fn make_vertices(
    alloc: Global,
    records: &mut Records,
    history: &mut History,
    bus: &mut Bus,
    meetings: &mut Vec<Meeting>,
)
    requires in_step { AreInStep (map_of records.old) (curves_on history.old)
        (bus_row Observer-dyn bus.old) }
    requires map { IsMapAtRest records.old }
    requires meetings { AreMeetings records.old.graph (tables_of records.old) meetings.old.items }
    requires plane { MayBeVertices records.old.graph history.old meetings.old.items }
    requires vertices { vertices_needed meetings.old.items ≤ records.old.spare_vertices }
    requires darts { 2 * splits_needed meetings.old.items ≤ records.old.spare_darts }
    requires pairs { new_pairs history.old meetings.old.items ≤ history.old.spare_pairs }
    ensures told { BecomeVertices (map_of records.old) history.old (bus_row Observer-dyn bus.old) meetings.old.items
        (map_of records.new) history.new (bus_row Observer-dyn bus.new) }
    ensures in_step { AreInStep (map_of records.new) (curves_on history.new)
        (bus_row Observer-dyn bus.new) }
    ensures map { IsMapAtRest records.new }
    ensures named { AreVertices records.new.graph meetings.new.items }
    ensures points { points_of_meetings meetings.new.items ≡ points_of_meetings meetings.old.items }
    ensures layer { SameLayer history.old history.new }
    ensures spare_darts { records.old.spare_darts ≤ records.new.spare_darts + 2 * splits_needed meetings.old.items }
    ensures spare_faces { IsSpareFaces records.old.faces records.new.faces 0 0 }
    ensures spare_pairs { history.old.spare_pairs ≤ history.new.spare_pairs + new_pairs history.old meetings.old.items }
{
    for i in 0..meetings.len() {
        let meeting = meetings[i];
        let at = spot_now(&*records, &meeting);
        let vertex = vertex_of(alloc, records, history, bus, at, meeting);
        meetings[i].spot = Spot::Vertex(vertex);
    }
}
