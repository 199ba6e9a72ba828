ghost use Rattle.std.specs.Prelude.{◌≡◌, ◌≤◌, ◌<◌, ◌+◌, ◌*◌, suc, length};
ghost use Rattle.plane_graphs.specs.Ascending.{Member};
ghost use Rattle.plane_graphs.specs.Strands.{strand};
ghost use Rattle.slab_laws.specs.Sound.{IsGraphSound};
ghost use Rattle.arr_notes.specs.Curves.{AreCurvesOf};
ghost use Rattle.curve_history.specs.Past.{curves_on, strands_on, SameCurves, SameLayer};
ghost use Rattle.dcel_records.specs.SoundMaps.{IsMapAtRest, map_of};
ghost use Rattle.observer_bus.specs.Rows.{bus_row};
ghost use Rattle.told_steps.specs.ToldRuns.{AreInStep};
ghost use Rattle.zone_walk.specs.Zone.{points_of_meetings};
ghost use Rattle.segment_insert.specs.Parts.{IsOpenPart};
ghost use Rattle.segment_insert.specs.Insertion.{AreVertices};
ghost use Rattle.segment_insert.specs.StepsMade.{goes_along, AreAllOnSides, ArePartsOf, ComesAlongParts, IsDrawnAlong, MayBeAlongParts, SideComesAlong, SidesComeAlong};

use crate::edges::{make_edge, vertex_of};
use curve_history::History;
use dcel_records::Records;
use exact_plane::{Direction, Line};
use observer_bus::Bus;
use rotation_order::{Place, place_at};
use side_parts::{Part, Side};
use slab_laws::{CurveId, VertexId};
use std::alloc::Global;
use told_steps::add_side;
use zone_walk::Meeting;

// The number of the side that a part is of, from 1 on.
fn side_number(part: &Part) -> u32
    requires { part.now.side < 8 }
    ensures { result ≡ suc part.now.side }
{
    part.side as u32 + 1
}

// Whether the part before is between the same two points.
fn is_along(before: Option<Part>, part: &Part) -> bool
    ensures { result ≡ goes_along before part.now }
{
    match before {
        Some(other) => other.low == part.low && other.high == part.high,
        None => false,
    }
}

// One more side along the edge of the curve that runs from `u` to `w`.
fn hold_side(
    records: &Records,
    history: &mut History,
    line: &Line,
    curve: CurveId,
    side: u32,
    u: VertexId,
    w: VertexId,
)
    requires sound { IsGraphSound records.now.graph }
    requires curves { AreCurvesOf records.now.graph (curves_on history.old) }
    requires part { IsOpenPart records.now.graph line.now u w }
    requires curve_named { Member curve.0 history.old.names }
    requires side { side ≤ 8 }
    requires there { IsDrawnAlong records.now.graph (curves_on history.old) u w curve.0 }
    requires new { ¬ IsDrawnAlong records.now.graph (strands_on history.old) u w (strand curve.0 side) }
    requires pairs { 1 ≤ history.old.spare_pairs }
    ensures strands { SideComesAlong records.now.graph history.old u w curve.0 side records.now.graph history.new }
    ensures curves { SameCurves history.old history.new }
    ensures layer { SameLayer history.old history.new }
    ensures spare_pairs { history.old.spare_pairs ≤ history.new.spare_pairs + 1 }
{
    match place_at(records, u, Direction::along(line)) {
        Place::Along(d) => add_side(history, d, curve, side),
        Place::Bare | Place::Between(_, _) => unreachable!(),
    }
}

/// Makes every part of the curve's sides an edge of it, in room that is there: an edge that runs there gets the curve, or else a new
/// one comes; and where the part before is between the same two points, the edge of both gets the side alone, of which observers
/// are told nothing.
pub(crate) fn make_parts(
    alloc: Global,
    records: &mut Records,
    history: &mut History,
    bus: &mut Bus,
    sides: &[Side],
    curve: CurveId,
    meetings: &[Meeting],
    parts: &[Part],
)
    requires in_step { AreInStep (map_of records.old) (curves_on history.old)
        (bus_row Observer-dyn bus.old) }
    requires map { IsMapAtRest records.old }
    requires named { AreVertices records.old.graph meetings.now }
    requires all_on { AreAllOnSides records.old.graph sides.now (points_of_meetings meetings.now) }
    requires few { length sides.now ≤ 8 }
    requires parts { ArePartsOf (points_of_meetings meetings.now) sides.now parts.now }
    requires curve_named { Member curve.0 history.old.names }
    requires plane { MayBeAlongParts records.old.graph history.old curve.0 meetings.now parts.now }
    requires darts { 2 * length parts.now ≤ records.old.spare_darts }
    requires cycles { length parts.now ≤ records.old.faces.spare_cycles }
    requires faces { length parts.now ≤ records.old.faces.spare_faces }
    requires pairs { length parts.now ≤ history.old.spare_pairs }
    ensures told { ComesAlongParts (map_of records.old) history.old (bus_row Observer-dyn bus.old) curve.0 meetings.now parts.now
        (map_of records.new) history.new (bus_row Observer-dyn bus.new) }
    ensures strands { SidesComeAlong records.old.graph history.old curve.0 meetings.now parts.now records.new.graph history.new }
    ensures in_step { AreInStep (map_of records.new) (curves_on history.new)
        (bus_row Observer-dyn bus.new) }
    ensures map { IsMapAtRest records.new }
    ensures layer { SameLayer history.old history.new }
{
    let mut before: Option<Part> = None;
    'each: for part in parts {
        let line = sides[part.side].line();
        let side = side_number(part);
        let u = vertex_of(&meetings[part.low]);
        let w = vertex_of(&meetings[part.high]);
        if is_along(before, part) {
            hold_side(&*records, history, &line, curve, side, u, w);
        } else {
            make_edge(alloc, records, history, bus, &line, curve, side, u, w);
        }
        before = Some(*part);
    }
}
