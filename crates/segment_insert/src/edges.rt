ghost use Rattle.std.specs.Prelude.{◌≡◌, ◌≢◌, ◌≤◌, ◌+◌, ◌*◌, true, length, Contains};
ghost use Rattle.plane_graphs.specs.Ascending.{Member};
ghost use Rattle.slab_laws.specs.Sound.{IsGraphSound};
ghost use Rattle.slab_laws.specs.View.{IsOutOf, target_in};
ghost use Rattle.curve_history.specs.Past.{curves_on, SameLayer};
ghost use Rattle.dcel_records.specs.declared.spot.Met.TheVariants.{Vertex};
ghost use Rattle.dcel_records.specs.Spots.{met_of};
ghost use Rattle.dcel_records.specs.SoundMaps.{IsMapAtRest, map_of};
ghost use Rattle.observer_bus.specs.Rows.{bus_row};
ghost use Rattle.told_steps.specs.ToldRuns.{AreInStep};
ghost use Rattle.zone_walk.specs.Zone.{is_on_segment, is_vertex, points_of_meetings};
ghost use Rattle.segment_insert.specs.Parts.{IsOpenPart};
ghost use Rattle.segment_insert.specs.Insertion.{AreVertices, AreAllOn};
ghost use Rattle.segment_insert.specs.StepsMade.{IsPlaceTo, MayBeAlong, ComesAlong, SideComesAlong, MayBeAlongAll, ComesAlongAll, SideComesAlongAll};

use curve_history::History;
use dcel_records::{Records, Spot};
use exact_plane::{Direction, Line, Segment, line_of};
use observer_bus::Bus;
use rotation_order::{Place, place_at};
use slab_laws::{CurveId, DartId, VertexId};
use std::alloc::Global;
use told_steps::{add_curve, add_edge};
use zone_walk::Meeting;

// The vertex that a meeting point is.
pub(crate) fn vertex_of(meeting: &Meeting) -> VertexId
    requires { is_vertex (met_of meeting.now.spot) ≡ true }
    ensures { (met_of meeting.now.spot) ≡ Vertex result }
{
    match meeting.spot {
        Spot::Vertex(vertex) => vertex,
        Spot::Edge(_) | Spot::Face(_) => unreachable!(),
    }
}

// The place at `w` of a new edge from `u`, where none runs between them: the way back from `w` leads along no edge.
fn place_back(records: &Records, line: &Line, u: VertexId, w: VertexId) -> Option<DartId>
    requires sound { IsGraphSound records.now.graph }
    requires part { IsOpenPart records.now.graph line.now u w }
    requires no_edge { (d : _) → IsOutOf records.now.graph u d → target_in records.now.graph d ≢ w }
    ensures { IsPlaceTo records.now.graph w u result }
{
    match place_at(records, w, Direction::along(line).back()) {
        Place::Bare => None,
        Place::Between(a, _) => Some(a),
        Place::Along(_) => unreachable!(),
    }
}

// A new edge of this side of the curve from `u` to `w`, where none runs between them, in its places round both.
fn new_edge(
    alloc: Global,
    records: &mut Records,
    history: &mut History,
    bus: &mut Bus,
    line: &Line,
    curve: CurveId,
    side: u32,
    u: VertexId,
    w: VertexId,
    at_u: Option<DartId>,
)
    requires in_step { AreInStep (map_of records.old) (curves_on history.old)
        (bus_row Observer-dyn bus.old) }
    requires map { IsMapAtRest records.old }
    requires part { IsOpenPart records.old.graph line.now u w }
    requires place { IsPlaceTo records.old.graph u w at_u }
    requires no_edge { (d : _) → IsOutOf records.old.graph u d → target_in records.old.graph d ≢ w }
    requires curve_named { Member curve.0 history.old.names }
    requires side { side ≤ 8 }
    requires plane { MayBeAlong records.old.graph history.old u w curve.0 }
    requires darts { 2 ≤ records.old.spare_darts }
    requires cycles { 1 ≤ records.old.faces.spare_cycles }
    requires faces { 1 ≤ records.old.faces.spare_faces }
    requires pairs { 1 ≤ history.old.spare_pairs }
    ensures told { ComesAlong (map_of records.old) history.old (bus_row Observer-dyn bus.old) u w curve.0
        (map_of records.new) history.new (bus_row Observer-dyn bus.new) }
    ensures strands { SideComesAlong records.old.graph history.old u w curve.0 side records.new.graph history.new }
    ensures in_step { AreInStep (map_of records.new) (curves_on history.new)
        (bus_row Observer-dyn bus.new) }
    ensures map { IsMapAtRest records.new }
    ensures vertices { records.new.graph.vertices ≡ records.old.graph.vertices }
    ensures layer { SameLayer history.old history.new }
    ensures spare_darts { records.old.spare_darts ≤ records.new.spare_darts + 2 }
    ensures spare_cycles { records.old.faces.spare_cycles ≤ records.new.faces.spare_cycles + 1 }
    ensures spare_faces { records.old.faces.spare_faces ≤ records.new.faces.spare_faces + 1 }
    ensures spare_pairs { history.old.spare_pairs ≤ history.new.spare_pairs + 1 }
{
    let at_w = place_back(&*records, line, u, w);
    add_edge(
        alloc, records, history, bus, u, w, at_u, at_w, *line, curve, side,
    );
}

// The open part from `u` to `w` becomes an edge of this side of the curve: an edge that runs there gets it, or else a new one comes.
pub(crate) fn make_edge(
    alloc: Global,
    records: &mut Records,
    history: &mut History,
    bus: &mut Bus,
    line: &Line,
    curve: CurveId,
    side: u32,
    u: VertexId,
    w: VertexId,
)
    requires in_step { AreInStep (map_of records.old) (curves_on history.old)
        (bus_row Observer-dyn bus.old) }
    requires map { IsMapAtRest records.old }
    requires part { IsOpenPart records.old.graph line.now u w }
    requires curve_named { Member curve.0 history.old.names }
    requires side { side ≤ 8 }
    requires plane { MayBeAlong records.old.graph history.old u w curve.0 }
    requires darts { 2 ≤ records.old.spare_darts }
    requires cycles { 1 ≤ records.old.faces.spare_cycles }
    requires faces { 1 ≤ records.old.faces.spare_faces }
    requires pairs { 1 ≤ history.old.spare_pairs }
    ensures told { ComesAlong (map_of records.old) history.old (bus_row Observer-dyn bus.old) u w curve.0
        (map_of records.new) history.new (bus_row Observer-dyn bus.new) }
    ensures strands { SideComesAlong records.old.graph history.old u w curve.0 side records.new.graph history.new }
    ensures in_step { AreInStep (map_of records.new) (curves_on history.new)
        (bus_row Observer-dyn bus.new) }
    ensures map { IsMapAtRest records.new }
    ensures vertices { records.new.graph.vertices ≡ records.old.graph.vertices }
    ensures layer { SameLayer history.old history.new }
    ensures spare_darts { records.old.spare_darts ≤ records.new.spare_darts + 2 }
    ensures spare_cycles { records.old.faces.spare_cycles ≤ records.new.faces.spare_cycles + 1 }
    ensures spare_faces { records.old.faces.spare_faces ≤ records.new.faces.spare_faces + 1 }
    ensures spare_pairs { history.old.spare_pairs ≤ history.new.spare_pairs + 1 }
{
    match place_at(&*records, u, Direction::along(line)) {
        Place::Along(d) => add_curve(alloc, &*records, history, bus, d, curve, side),
        Place::Bare => new_edge(alloc, records, history, bus, line, curve, side, u, w, None),
        Place::Between(a, _) => new_edge(
            alloc,
            records,
            history,
            bus,
            line,
            curve,
            side,
            u,
            w,
            Some(a),
        ),
    }
}

/// Makes every open part between two neighbouring meeting points an edge of this side of the curve, in room that is there: an edge
/// that runs there gets the curve, or else a new one comes.
pub(crate) fn make_edges(
    alloc: Global,
    records: &mut Records,
    history: &mut History,
    bus: &mut Bus,
    segment: &Segment,
    curve: CurveId,
    side: u32,
    meetings: &[Meeting],
)
    requires in_step { AreInStep (map_of records.old) (curves_on history.old)
        (bus_row Observer-dyn bus.old) }
    requires map { IsMapAtRest records.old }
    requires named { AreVertices records.old.graph meetings.now }
    requires on { (m : _) → Contains meetings.now m → is_on_segment segment.now m.point ≡ true }
    requires all_on { AreAllOn records.old.graph segment.now (points_of_meetings meetings.now) }
    requires curve_named { Member curve.0 history.old.names }
    requires side { side ≤ 8 }
    requires plane { MayBeAlongAll records.old.graph history.old curve.0 meetings.now }
    requires darts { 2 * length meetings.now ≤ records.old.spare_darts + 2 }
    requires cycles { length meetings.now ≤ records.old.faces.spare_cycles + 1 }
    requires faces { length meetings.now ≤ records.old.faces.spare_faces + 1 }
    requires pairs { length meetings.now ≤ history.old.spare_pairs }
    ensures told { ComesAlongAll (map_of records.old) history.old (bus_row Observer-dyn bus.old) curve.0 meetings.now
        (map_of records.new) history.new (bus_row Observer-dyn bus.new) }
    ensures strands { SideComesAlongAll records.old.graph history.old curve.0 side meetings.now records.new.graph history.new }
    ensures in_step { AreInStep (map_of records.new) (curves_on history.new)
        (bus_row Observer-dyn bus.new) }
    ensures map { IsMapAtRest records.new }
    ensures layer { SameLayer history.old history.new }
{
    let line = line_of(segment);
    for i in 1..meetings.len() {
        let u = vertex_of(&meetings[i - 1]);
        let w = vertex_of(&meetings[i]);
        make_edge(alloc, records, history, bus, &line, curve, side, u, w);
    }
}
