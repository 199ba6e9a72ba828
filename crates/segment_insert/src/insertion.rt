ghost use Rattle.std.specs.Prelude.{◌≡◌, ◌≤◌, ◌<◌, ◌+◌, ◌^◌, ◌∷◌, [], length, option_and_then, IsOk, IfOk, OnOk, OnErr};
ghost use Rattle.edit_steps.specs.Edits.{Insert, steps};
ghost use Rattle.edit_steps.specs.Refusals.{IsAnswerFor};
ghost use Rattle.dcel_records.specs.RecordsView.{RecordsView, tables_of};
ghost use Rattle.face_location.specs.Spots.{IsSpotOf};
ghost use Rattle.dcel_records.specs.SoundMaps.{IsMapAtRest, IsSoundMap, map_of};
ghost use Rattle.curve_history.specs.Past.{curves_on, strands_on, SameLayer, SameCurves, SameStrands};
ghost use Rattle.curve_history.specs.declared.history.TheConstants.{LAST_CURVE};
ghost use Rattle.told_steps.specs.RecordLayers.{IsLayer};
ghost use Rattle.piece_location.specs.Layers.{IsPastOf};
ghost use Rattle.zone_walk.specs.Zone.{IsZoneOf};
ghost use Rattle.segment_insert.specs.Insertion.{insert_said, pairs_to_part, refusal_at, refusal_of_sides, HasRoomFor, HasRoomForPlan};
ghost use Rattle.segment_insert.specs.Looks.{AreZoneLooks};
ghost use Rattle.observer_bus.specs.Rows.{bus_row};
ghost use Rattle.told_steps.specs.ToldEdits.{AreWatched, IsToldEdit};
ghost use Rattle.told_steps.specs.ToldRuns.{AreInStep, IsToldRun};
ghost use Rattle.told_steps.specs.LayerEdits.{IsAfter, layer_at};

use crate::edges::make_edges;
use crate::vertices::make_vertices;
use curve_history::History;
use dcel_records::{Records, Room, Spot};
use exact_plane::Segment;
use no_memory::NoMemory;
use observer_bus::Bus;
use piece_zone::PieceSource;
use slab_laws::{CurveId, Piece};
use std::alloc::Global;
use std::sync::ledger::Ledger;
use thiserror::Error;
use work_steps::Steps;
use zone_walk::{Meeting, ZonePlan, zone_by};

/// Why a segment isn't inserted.
#[derive(Clone, Copy, Debug, PartialEq, Eq, Error)]
pub enum InsertError {
    /// One more curve, or one more piece, would pass this limit.
    #[error("the limit of {0} would be passed")]
    Full(u32),
    /// The last number that a curve can get was drawn.
    #[error("the last number of a curve was drawn")]
    Spent,
    /// There was no memory for the plan or for what it makes.
    #[error("no memory")]
    NoMemory,
}

impl From<NoMemory> for InsertError {
    ghost use Rattle.std.specs.Prelude.{◌≡◌};
    ghost use Rattle.segment_insert.specs.declared.insertion.InsertError.TheVariants.{NoMemory as OutOfMemory};

    ghost from_gives = { λ _ e. e ≡ OutOfMemory };

    fn from(_error: NoMemory) -> InsertError {
        InsertError::NoMemory
    }
}

// Why one more curve of so many sides is refused, the first reason first, whatever the records are.
pub(crate) fn refusal_of(
    history: &History,
    sides: u32,
    curves: u32,
    pieces: u32,
) -> Option<InsertError>
    ensures { (r : RecordsView) → refusal_of_sides sides curves pieces r history.now ≡ option_and_then insert_said result }
{
    if curves <= history.named() {
        Some(InsertError::Full(curves))
    } else if u64::from(pieces) < u64::from(history.pieces()) + u64::from(sides) {
        Some(InsertError::Full(pieces))
    } else if history.spent() {
        Some(InsertError::Spent)
    } else {
        None
    }
}

// How many pairs of an edge and a side of a curve come: the sides along each edge that is parted, and so many more. It takes
// no memory; the error stands for a number past `usize`.
fn count_pairs(history: &History, meetings: &[Meeting], more: usize) -> Result<usize, NoMemory>
    ensures count { IfOk result (λ n. n ≡ more + pairs_to_part (strands_on history.now) meetings.now) }
    ensures past_usize { OnErr result (2 ^ 64 ≤ more + pairs_to_part (strands_on history.now) meetings.now) }
{
    let mut pairs = more;
    for meeting in meetings {
        if let Spot::Edge(dart) = meeting.spot {
            match pairs.checked_add(history.count_on(dart)) {
                Some(all) => pairs = all,
                None => return Err(NoMemory),
            }
        }
    }
    Ok(pairs)
}

// This room, and room for one more name, for a piece of each of so many sides, and for the pairs that come: those of the edges
// that are parted at the meetings, and so many more. Only the room changes. Where it is there, no memory is taken.
pub(crate) fn make_room(
    records: &mut Records,
    history: &mut History,
    room: Room,
    meetings: &[Meeting],
    sides: u32,
    more: usize,
) -> Result<(), NoMemory>
    ensures room { OnOk result (HasRoomFor room meetings.now sides more (strands_on history.old) records.new history.new) }
    ensures succeeds { HasRoomFor room meetings.now sides more (strands_on history.old) records.old history.old → IsOk result }
    ensures graph { records.new.graph ≡ records.old.graph }
    ensures tables { tables_of records.new ≡ tables_of records.old }
    ensures map { IsMapAtRest records.old → IsMapAtRest records.new }
    ensures same_layer { SameLayer history.old history.new }
    ensures same_strands { SameStrands history.old history.new }
    ensures same_curves { SameCurves history.old history.new }
{
    // A `usize` counts the pairs for which there is room.
    history.laws();
    records.reserve(room)?;
    let pairs = count_pairs(&*history, meetings, more)?;
    history.reserve(1, sides, pairs)
}

// The plan of the insertion, and room for all that it makes; only the room changes.
fn prepare<L: Ledger>(
    alloc: Global,
    records: &mut Records,
    history: &mut History,
    segment: &Segment,
    start: Spot,
    steps: &mut Steps<L>,
) -> Result<ZonePlan, NoMemory>
    requires map { IsSoundMap records.old }
    requires past { IsPastOf records.old.graph history.old }
    requires start { IsSpotOf records.old.graph (tables_of records.old) segment.now.lower start }
    ensures zone { IfOk result (IsZoneOf records.old.graph (tables_of records.old) segment.now) }
    ensures room { IfOk result (λ z. HasRoomForPlan z (strands_on history.old) records.new history.new) }
    ensures graph { records.new.graph ≡ records.old.graph }
    ensures tables { tables_of records.new ≡ tables_of records.old }
    ensures map { IsMapAtRest records.old → IsMapAtRest records.new }
    ensures same_layer { SameLayer history.old history.new }
    ensures same_strands { SameStrands history.old history.new }
    ensures same_curves { SameCurves history.old history.new }
    ensures looks { AreZoneLooks records.old.graph (tables_of records.old) segment.now steps.old steps.new }
{
    // Each face lists its own cycles and isolated vertices.
    records.face_laws();
    let pieces = PieceSource {
        records: &*records,
        history: &*history,
    };
    let plan = zone_by(alloc, &*records, segment, start, &pieces, steps)?;
    let vertices = plan.vertices.as_slice();
    // One pair more than open parts, and than the new side needs.
    make_room(records, history, plan.room, vertices, 1, vertices.len())?;
    Ok(plan)
}

// The steps of the insertion, each told to observers, in room that is there.
fn insert_by_plan(
    alloc: Global,
    records: &mut Records,
    history: &mut History,
    bus: &mut Bus,
    segment: &Segment,
    plan: ZonePlan,
) -> CurveId
    requires layer { IsLayer records.old.graph history.old }
    requires in_step { AreInStep (map_of records.old) (curves_on history.old)
        (bus_row Observer-dyn bus.old) }
    requires map { IsMapAtRest records.old }
    requires zone { IsZoneOf records.old.graph (tables_of records.old) segment.now plan }
    requires unspent { history.old.next ≤ LAST_CURVE }
    requires few { length history.old.pieces + 1 < 2 ^ 32 }
    requires room { HasRoomForPlan plan (strands_on history.old) records.old history.old }
    ensures layer { IsLayer records.new.graph history.new }
    ensures number { result.0 ≡ history.old.next }
    ensures edit { IsAfter (Insert result.0 (segment.now ∷ [])) records.old history.old records.new history.new }
    ensures told { IsToldRun (map_of records.old) (curves_on history.old)
        (bus_row Observer-dyn bus.old)
        (steps (Insert result.0 (segment.now ∷ [])) (layer_at records.old history.old).present) (map_of records.new) (curves_on history.new)
        (bus_row Observer-dyn bus.new) }
    ensures in_step { AreInStep (map_of records.new) (curves_on history.new)
        (bus_row Observer-dyn bus.new) }
    ensures map { IsMapAtRest records.new }
{
    let lower = segment.lower();
    let upper = segment.upper();
    let curve = history.draw();
    history.add_piece(Piece {
        curve,
        side: 1,
        segment: *segment,
        from: lower,
        to: upper,
    });
    let mut meetings = plan.vertices.into_vec();
    make_vertices(alloc, records, history, bus, &mut meetings);
    make_edges(alloc, records, history, bus, segment, curve, 1, &meetings);
    curve
}

/// The segment becomes a new curve of the layer that records and history are, by the steps of an insertion, each told to
/// observers before and after it; all of it, or, at a refusal or for want of memory, nothing, and then nothing is told (CGAL
/// manual, `insert` and `Arr_observer`).
///
/// `curves` and `pieces` are the limits of named curves and of pieces; `start` is the spot of the segment's lower end,
/// with the name of the face where it is inside one; `steps` rises by the looks of the zone at most. All memory of its own is taken before the
/// first note.
pub fn insert<L: Ledger>(
    alloc: Global,
    records: &mut Records,
    history: &mut History,
    bus: &mut Bus,
    curves: u32,
    pieces: u32,
    start: Spot,
    segment: &Segment,
    steps: &mut Steps<L>,
) -> Result<CurveId, InsertError>
    requires layer { IsLayer records.old.graph history.old }
    requires map { IsMapAtRest records.old }
    requires watched { AreWatched records.old history.old (bus_row Observer-dyn bus.old) }
    requires start { IsSpotOf records.old.graph (tables_of records.old) segment.now.lower start }
    ensures layer { IsLayer records.new.graph history.new }
    ensures map { IsMapAtRest records.new }
    ensures watched { AreWatched records.new history.new (bus_row Observer-dyn bus.new) }
    ensures number { IfOk result (λ c. c.0 ≡ history.old.next) }
    ensures edit { IfOk result (λ c. IsAfter (Insert c.0 (segment.now ∷ [])) records.old history.old records.new history.new) }
    ensures told { IfOk result (λ c. IsToldEdit (Insert c.0 (segment.now ∷ [])) records.old history.old (bus_row Observer-dyn bus.old) records.new history.new (bus_row Observer-dyn bus.new)) }
    ensures refused { IsAnswerFor insert_said (refusal_at curves pieces records.old history.old) result }
    ensures graph { OnErr result (records.new.graph ≡ records.old.graph) }
    ensures tables { OnErr result (tables_of records.new ≡ tables_of records.old) }
    ensures same_layer { OnErr result (SameLayer history.old history.new) }
    ensures same_curves { OnErr result (SameCurves history.old history.new) }
    ensures untold { OnErr result (bus_row Observer-dyn bus.new ≡ bus_row Observer-dyn bus.old) }
    ensures looks { AreZoneLooks records.old.graph (tables_of records.old) segment.now steps.old steps.new }
{
    if let Some(error) = refusal_of(&*history, 1, curves, pieces) {
        return Err(error);
    }
    let plan = prepare(alloc, records, history, segment, start, steps)?;
    bus.begin();
    Ok(insert_by_plan(alloc, records, history, bus, segment, plan))
}
