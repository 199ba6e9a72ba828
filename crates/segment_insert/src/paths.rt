ghost use Rattle.std.specs.Prelude.{◌≡◌, ◌≤◌, ◌<◌, ◌+◌, ◌^◌, ◌++◌, length, IfOk, OnErr};
ghost use Rattle.exact_plane.specs.Path.{ArePathSides};
ghost use Rattle.exact_plane.specs.PointOrder.{point_cmp};
ghost use Rattle.exact_plane.specs.Segment.{AreEnds};
ghost use Rattle.plane_graphs.specs.Ascending.{Member, IsAscending};
ghost use Rattle.edit_steps.specs.Edits.{Insert, path_pieces, steps as steps_of};
ghost use Rattle.edit_steps.specs.Refusals.{IsAnswerFor};
ghost use Rattle.dcel_records.specs.RecordsView.{tables_of};
ghost use Rattle.dcel_records.specs.SoundMaps.{IsMapAtRest, IsSoundMap, map_of};
ghost use Rattle.curve_history.specs.Past.{curves_on, strands_on, SameLayer, SameCurves, SameStrands};
ghost use Rattle.curve_history.specs.declared.history.TheConstants.{LAST_CURVE};
ghost use Rattle.observer_bus.specs.Rows.{bus_row};
ghost use Rattle.told_steps.specs.LayerEdits.{IsAfter, layer_at};
ghost use Rattle.told_steps.specs.RecordLayers.{IsLayer};
ghost use Rattle.piece_location.specs.Layers.{IsPastOf};
ghost use Rattle.told_steps.specs.ToldEdits.{AreWatched, IsToldEdit};
ghost use Rattle.told_steps.specs.ToldRuns.{AreInStep, IsToldRun};
ghost use Rattle.zone_walk.specs.Zone.{points_of_meetings};
ghost use Rattle.path_zone.specs.PathZone.{AreStarts, IsPathZone};
ghost use Rattle.segment_insert.specs.Insertion.{insert_said, refusal_of_sides, HasRoomFor};
ghost use Rattle.segment_insert.specs.Looks.{ArePathLooks};
ghost use Rattle.segment_insert.specs.Paths.{AreAllParts, HasRoomForPath, IsRoomFor};

use crate::insertion::{InsertError, make_room, refusal_of};
use crate::parts::make_parts;
use crate::vertices::make_vertices;
use curve_history::History;
use dcel_records::{Records, Room, Spot};
use exact_plane::{Path, Point, Segment};
use no_memory::NoMemory;
use observer_bus::Bus;
use path_zone::{PathPlan, path_zone_by};
use piece_zone::PieceSource;
use side_parts::{Part, Side, parts_in_order, sides_of};
use slab_laws::{CurveId, Piece};
use std::alloc::Global;
use std::sync::ledger::Ledger;
use work_steps::Steps;
use zone_walk::Meeting;

// The plan of a path's insertion: its vertices, its sides with their lines, and the parts of these between them.
#[derive(Drop)]
struct PathParts {
    plan: PathPlan,
    sides: Vec<Side>,
    parts: Vec<Part>,
}

// The points of meetings.
fn points_of(alloc: Global, meetings: &[Meeting]) -> Result<Vec<Point>, NoMemory>
    ensures { IfOk result (λ ps. ps.items ≡ points_of_meetings meetings.now) }
{
    let mut points = Vec::with_capacity(alloc, meetings.len())?;
    'each: for meeting in meetings {
        points.push(meeting.point)?;
    }
    Ok(points)
}

// The parts of the sides between the points of meetings, in edge order.
fn parts_between(alloc: Global, meetings: &[Meeting], sides: &[Side]) -> Result<Vec<Part>, NoMemory>
    requires { IsAscending point_cmp (points_of_meetings meetings.now) }
    ensures { IfOk result (λ ts. AreAllParts (points_of_meetings meetings.now) sides.now ts.items) }
{
    let points = points_of(alloc, meetings)?;
    parts_in_order(alloc, &points, sides)
}

// The room in which the steps of the insertion fit: each new edge may part a cycle, and a face.
fn room_for(meetings: &[Meeting], parts: &[Part]) -> Room
    ensures { IsRoomFor meetings.now parts.now result }
{
    let vertices = meetings
        .iter()
        .filter(|meeting| !matches!(meeting.spot, Spot::Vertex(_)))
        .count();
    let splits = meetings
        .iter()
        .filter(|meeting| matches!(meeting.spot, Spot::Edge(_)))
        .count();
    Room {
        vertices,
        edges: splits + parts.len(),
        cycles: parts.len(),
        faces: parts.len(),
    }
}

// The plan of the insertion, and room for all that it makes; only the room changes.
fn prepare_path<L: Ledger>(
    alloc: Global,
    records: &mut Records,
    history: &mut History,
    sides: &[Segment],
    starts: &[Spot],
    steps: &mut Steps<L>,
) -> Result<PathParts, NoMemory>
    requires map { IsSoundMap records.old }
    requires past { IsPastOf records.old.graph history.old }
    requires starts { AreStarts records.old.graph (tables_of records.old) sides.now starts.now }
    requires few { length sides.now ≤ 8 }
    ensures zone { IfOk result (λ z. IsPathZone records.old.graph (tables_of records.old) sides.now z.plan) }
    ensures sides { IfOk result (λ z. z.sides.items ≡ sides.now) }
    ensures parts { IfOk result (λ z. AreAllParts (points_of_meetings z.plan.vertices) sides.now z.parts.items) }
    ensures room { IfOk result (λ z. HasRoomForPath z.plan.vertices z.parts.items (length sides.now) (strands_on history.old) records.new history.new) }
    ensures graph { records.new.graph ≡ records.old.graph }
    ensures tables { tables_of records.new ≡ tables_of records.old }
    ensures map { IsMapAtRest records.old → IsMapAtRest records.new }
    ensures same_layer { SameLayer history.old history.new }
    ensures same_strands { SameStrands history.old history.new }
    ensures same_curves { SameCurves history.old history.new }
    ensures looks { ArePathLooks records.old.graph (tables_of records.old) sides.now steps.old steps.new }
{
    let source = PieceSource {
        records: &*records,
        history: &*history,
    };
    let plan = path_zone_by(alloc, &*records, sides, starts, &source, steps)?;
    let vertices = plan.vertices();
    let lined = sides_of(alloc, sides)?;
    let parts = parts_between(alloc, vertices, &lined)?;
    let room = room_for(vertices, &parts);
    make_room(
        records,
        history,
        room,
        vertices,
        sides.len() as u32,
        parts.len(),
    )?;
    Ok(PathParts {
        plan,
        sides: lined,
        parts,
    })
}

// The sides become pieces of the curve, numbered from 1, in room that is there.
fn add_sides(history: &mut History, curve: CurveId, sides: &[Segment])
    requires few { length history.old.pieces + length sides.now < 2 ^ 32 }
    requires room { length sides.now ≤ history.old.spare_pieces }
    ensures pieces { history.new.pieces ≡ history.old.pieces ++ path_pieces curve.0 sides.now }
    ensures names { history.new.names ≡ history.old.names }
    ensures next { history.new.next ≡ history.old.next }
    ensures strands { SameStrands history.old history.new }
    ensures curves { SameCurves history.old history.new }
    ensures ends { (s : _) → Member s sides.now → AreEnds s }
    ensures spare_pairs { history.old.spare_pairs ≤ history.new.spare_pairs }
{
    'each: for (place, side) in sides.iter().enumerate() {
        let from = side.lower();
        let to = side.upper();
        history.add_piece(Piece {
            curve,
            side: place as u32 + 1,
            segment: *side,
            from,
            to,
        });
    }
}

// The steps of the insertion, each told to observers, in room that is there.
fn insert_by_parts(
    alloc: Global,
    records: &mut Records,
    history: &mut History,
    bus: &mut Bus,
    sides: &[Segment],
    planned: PathParts,
) -> CurveId
    requires layer { IsLayer records.old.graph history.old }
    requires in_step { AreInStep (map_of records.old) (curves_on history.old)
        (bus_row Observer-dyn bus.old) }
    requires map { IsMapAtRest records.old }
    requires sides { ArePathSides sides.now }
    requires zone { IsPathZone records.old.graph (tables_of records.old) sides.now planned.plan }
    requires lined { planned.sides.items ≡ sides.now }
    requires parts { AreAllParts (points_of_meetings planned.plan.vertices) sides.now planned.parts.items }
    requires unspent { history.old.next ≤ LAST_CURVE }
    requires few { length history.old.pieces + length sides.now < 2 ^ 32 }
    requires room { HasRoomForPath planned.plan.vertices planned.parts.items (length sides.now) (strands_on history.old) records.old history.old }
    ensures layer { IsLayer records.new.graph history.new }
    ensures number { result.0 ≡ history.old.next }
    ensures edit { IsAfter (Insert result.0 sides.now) records.old history.old records.new history.new }
    ensures told { IsToldRun (map_of records.old) (curves_on history.old)
        (bus_row Observer-dyn bus.old)
        (steps_of (Insert result.0 sides.now) (layer_at records.old history.old).present) (map_of records.new) (curves_on history.new)
        (bus_row Observer-dyn bus.new) }
    ensures in_step { AreInStep (map_of records.new) (curves_on history.new)
        (bus_row Observer-dyn bus.new) }
    ensures map { IsMapAtRest records.new }
{
    let curve = history.draw();
    add_sides(history, curve, sides);
    let mut meetings = planned.plan.into_vertices();
    make_vertices(alloc, records, history, bus, &mut meetings);
    let lined = planned.sides.as_slice();
    make_parts(
        alloc,
        records,
        history,
        bus,
        lined,
        curve,
        &meetings,
        &planned.parts,
    );
    curve
}

// The sides become a new curve.
fn insert_sides<L: Ledger>(
    alloc: Global,
    records: &mut Records,
    history: &mut History,
    bus: &mut Bus,
    curves: u32,
    pieces: u32,
    starts: &[Spot],
    sides: &[Segment],
    steps: &mut Steps<L>,
) -> Result<CurveId, InsertError>
    requires sides { ArePathSides sides.now }
    requires layer { IsLayer records.old.graph history.old }
    requires map { IsMapAtRest records.old }
    requires watched { AreWatched records.old history.old (bus_row Observer-dyn bus.old) }
    requires starts { AreStarts records.old.graph (tables_of records.old) sides.now starts.now }
    ensures layer { IsLayer records.new.graph history.new }
    ensures map { IsMapAtRest records.new }
    ensures watched { AreWatched records.new history.new (bus_row Observer-dyn bus.new) }
    ensures number { IfOk result (λ c. c.0 ≡ history.old.next) }
    ensures edit { IfOk result (λ c. IsAfter (Insert c.0 sides.now) records.old history.old records.new history.new) }
    ensures told { IfOk result (λ c. IsToldEdit (Insert c.0 sides.now) records.old history.old (bus_row Observer-dyn bus.old) records.new history.new (bus_row Observer-dyn bus.new)) }
    ensures refused { IsAnswerFor insert_said (refusal_of_sides (length sides.now) curves pieces records.old history.old) result }
    ensures graph { OnErr result (records.new.graph ≡ records.old.graph) }
    ensures tables { OnErr result (tables_of records.new ≡ tables_of records.old) }
    ensures same_layer { OnErr result (SameLayer history.old history.new) }
    ensures same_curves { OnErr result (SameCurves history.old history.new) }
    ensures untold { OnErr result (bus_row Observer-dyn bus.new ≡ bus_row Observer-dyn bus.old) }
    ensures looks { ArePathLooks records.old.graph (tables_of records.old) sides.now steps.old steps.new }
{
    if let Some(error) = refusal_of(&*history, sides.len() as u32, curves, pieces) {
        return Err(error);
    }
    let planned = prepare_path(alloc, records, history, sides, starts, steps)?;
    bus.begin();
    Ok(insert_by_parts(alloc, records, history, bus, sides, planned))
}

/// The path becomes a new curve of the layer that records and history are, with a piece for each side, by the steps of an
/// insertion, each told to observers before and after it; all of it, or, at a refusal or for want of memory, nothing, and then
/// nothing is told (CGAL manual, `insert` and `Arr_observer`).
///
/// Sides may cross, touch and overlap: an edge along which several of them run gets the curve once, and holds each side.
/// `curves` and `pieces` are the limits of named curves and of pieces; `starts` are the spots of the sides' lower ends, one for
/// each side, with the name of the face where one is inside a face, and any spot where a side begins on another one behind that one's
/// lower end; `steps` rises by the looks of the zones at most. All memory of its own is taken before the first note.
pub fn insert_path<L: Ledger>(
    alloc: Global,
    records: &mut Records,
    history: &mut History,
    bus: &mut Bus,
    curves: u32,
    pieces: u32,
    starts: &[Spot],
    path: &Path,
    steps: &mut Steps<L>,
) -> Result<CurveId, InsertError>
    requires layer { IsLayer records.old.graph history.old }
    requires map { IsMapAtRest records.old }
    requires watched { AreWatched records.old history.old (bus_row Observer-dyn bus.old) }
    requires starts { AreStarts records.old.graph (tables_of records.old) path.now starts.now }
    ensures layer { IsLayer records.new.graph history.new }
    ensures map { IsMapAtRest records.new }
    ensures watched { AreWatched records.new history.new (bus_row Observer-dyn bus.new) }
    ensures number { IfOk result (λ c. c.0 ≡ history.old.next) }
    ensures edit { IfOk result (λ c. IsAfter (Insert c.0 path.now) records.old history.old records.new history.new) }
    ensures told { IfOk result (λ c. IsToldEdit (Insert c.0 path.now) records.old history.old (bus_row Observer-dyn bus.old) records.new history.new (bus_row Observer-dyn bus.new)) }
    ensures refused { IsAnswerFor insert_said (refusal_of_sides (length path.now) curves pieces records.old history.old) result }
    ensures graph { OnErr result (records.new.graph ≡ records.old.graph) }
    ensures tables { OnErr result (tables_of records.new ≡ tables_of records.old) }
    ensures same_layer { OnErr result (SameLayer history.old history.new) }
    ensures same_curves { OnErr result (SameCurves history.old history.new) }
    ensures untold { OnErr result (bus_row Observer-dyn bus.new ≡ bus_row Observer-dyn bus.old) }
    ensures looks { ArePathLooks records.old.graph (tables_of records.old) path.now steps.old steps.new }
{
    insert_sides(
        alloc,
        records,
        history,
        bus,
        curves,
        pieces,
        starts,
        path.sides(),
        steps,
    )
}
