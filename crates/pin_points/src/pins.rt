ghost use Rattle.std.specs.Prelude.{◌≡◌, ◌≢◌, length, nat_le, Err, IsOk, OnOk, OnErr};
ghost use Rattle.std.specs.List.{filter};
ghost use Rattle.edit_steps.specs.Edits.{Pin, Unpin};
ghost use Rattle.edit_steps.specs.Refusals.{pin_refusal, unpin_refusal, IsAnswerFor};
ghost use Rattle.dcel_records.specs.RecordsView.{SameRecordCapacity, tables_of};
ghost use Rattle.dcel_records.specs.Spots.{IsMet, met_of};
ghost use Rattle.dcel_records.specs.SoundMaps.{IsMapAtRest};
ghost use Rattle.face_location.specs.Spots.{IsSpotOf};
ghost use Rattle.curve_history.specs.Past.{SameLayer, SameCurves, SameStrands, SameHistoryCapacity};
ghost use Rattle.told_steps.specs.RecordLayers.{IsLayer};
ghost use Rattle.pin_points.specs.Pins.{pin_said, unpin_said, is_pinned_met, pairs_parted, HasRoomFor};
ghost use Rattle.observer_bus.specs.Rows.{bus_row};
ghost use Rattle.told_steps.specs.ToldEdits.{AreWatched, IsToldEdit};
ghost use Rattle.told_steps.specs.LayerEdits.{layer_at, IsAfter};

use curve_history::History;
use dcel_records::{Met, Records, Room, Spot};
use exact_plane::Point;
use no_memory::NoMemory;
use observer_bus::Bus;
use slab_laws::Darts;
use std::alloc::Global;
use thiserror::Error;
use told_steps::{clear_pin, make_vertex, remove_if_redundant, set_pin};

/// Why a point isn't pinned.
#[derive(Clone, Copy, Debug, PartialEq, Eq, Error)]
pub enum PinError {
    /// It is pinned already.
    #[error("the point is pinned")]
    Pinned,
    /// One pin more would pass this limit.
    #[error("the limit of {0} would be passed")]
    Full(u32),
    /// There was no memory for a vertex there.
    #[error("no memory")]
    NoMemory,
}

impl From<NoMemory> for PinError {
    ghost use Rattle.pin_points.specs.declared.pins.PinError.TheVariants.{NoMemory as OutOfMemory};

    ghost from_gives = { λ _ e. e ≡ OutOfMemory };

    fn from(_error: NoMemory) -> PinError {
        PinError::NoMemory
    }
}

/// The point isn't pinned.
#[derive(Clone, Copy, Debug, PartialEq, Eq, Error)]
#[error("the point isn't pinned")]
pub struct NotPinned;

// Whether a pinned vertex is met.
fn is_pinned(records: &Records, at: Met) -> bool
    requires { (p : _) × IsMet records.now.graph p at }
    ensures { result ≡ is_pinned_met records.now.graph at }
{
    match at {
        Met::Vertex(vertex) => records.pinned(vertex),
        Met::Edge(_) | Met::Nothing => false,
    }
}

/// Whether as many vertices are pinned as the limit says, or more.
pub(crate) fn is_full(records: &Records, limit: u32) -> bool
    ensures { result ≡ nat_le limit (length (filter (λ r. r.1.pinned) records.now.graph.vertices)) }
{
    limit as usize <= records.pins()
}

// How many sides of curves run along the edge that is met.
fn count_parted(history: &History, at: Met) -> usize
    ensures { result ≡ pairs_parted history.now at }
{
    match at {
        Met::Edge(d) => history.count_on(d),
        Met::Vertex(_) | Met::Nothing => 0,
    }
}

/// Makes room for a vertex where this is met; where it is there, no memory is taken.
pub(crate) fn make_room(
    records: &mut Records,
    history: &mut History,
    at: Met,
) -> Result<(), NoMemory>
    ensures room { OnOk result (HasRoomFor at records.new history.new) }
    ensures succeeds { HasRoomFor at records.old history.old → IsOk result }
    ensures graph { records.new.graph ≡ records.old.graph }
    ensures tables { tables_of records.new ≡ tables_of records.old }
    ensures map { IsMapAtRest records.old → IsMapAtRest records.new }
    ensures layer { SameLayer history.old history.new }
    ensures strands { SameStrands history.old history.new }
    ensures curves { SameCurves history.old history.new }
{
    records.reserve(Room {
        vertices: 1,
        edges: 1,
        cycles: 0,
        faces: 0,
    })?;
    let pairs = count_parted(&*history, at);
    history.reserve(0, 0, pairs)
}

/// The point becomes a vertex where it is none, and is pinned; `at` is its spot, `pins` the limit of pins. All memory of its own
/// is taken before the first change.
pub fn pin(
    alloc: Global,
    records: &mut Records,
    history: &mut History,
    bus: &mut Bus,
    pins: u32,
    at: Spot,
    p: &Point,
) -> Result<(), PinError>
    requires layer { IsLayer records.old.graph history.old }
    requires map { IsMapAtRest records.old }
    requires watched { AreWatched records.old history.old (bus_row Observer-dyn bus.old) }
    requires spot { IsSpotOf records.old.graph (tables_of records.old) p.now at }
    ensures layer { IsLayer records.new.graph history.new }
    ensures map { IsMapAtRest records.new }
    ensures watched { AreWatched records.new history.new (bus_row Observer-dyn bus.new) }
    ensures edit { OnOk result (IsAfter (Pin p.now) records.old history.old records.new history.new) }
    ensures told { OnOk result (IsToldEdit (Pin p.now) records.old history.old (bus_row Observer-dyn bus.old) records.new history.new (bus_row Observer-dyn bus.new)) }
    ensures refused { IsAnswerFor pin_said (pin_refusal pins (layer_at records.old history.old) p.now) result }
    ensures room { HasRoomFor (met_of at) records.old history.old → result ≢ Err PinError.NoMemory }
    ensures graph { OnErr result (records.new.graph ≡ records.old.graph) }
    ensures tables { OnErr result (tables_of records.new ≡ tables_of records.old) }
    ensures same_layer { OnErr result (SameLayer history.old history.new) }
    ensures same_curves { OnErr result (SameCurves history.old history.new) }
    ensures untold { OnErr result (bus_row Observer-dyn bus.new ≡ bus_row Observer-dyn bus.old) }
{
    p.laws();
    let met = at.met();
    if is_pinned(&*records, met) {
        return Err(PinError::Pinned);
    }
    if is_full(&*records, pins) {
        return Err(PinError::Full(pins));
    }
    make_room(records, history, met)?;
    bus.begin();
    let vertex = make_vertex(alloc, records, history, bus, at, *p);
    set_pin(alloc, records, &*history, bus, vertex);
    Ok(())
}

/// The point isn't pinned any more; where the vertex is redundant then, its two edges become one, or, without edges, it
/// goes. Where no observer joins it takes no memory of its own.
pub fn unpin(
    alloc: Global,
    records: &mut Records,
    history: &mut History,
    bus: &mut Bus,
    p: &Point,
) -> Result<(), NotPinned>
    requires layer { IsLayer records.old.graph history.old }
    requires map { IsMapAtRest records.old }
    requires watched { AreWatched records.old history.old (bus_row Observer-dyn bus.old) }
    ensures layer { IsLayer records.new.graph history.new }
    ensures map { IsMapAtRest records.new }
    ensures watched { AreWatched records.new history.new (bus_row Observer-dyn bus.new) }
    ensures edit { OnOk result (IsAfter (Unpin p.now) records.old history.old records.new history.new) }
    ensures told { OnOk result (IsToldEdit (Unpin p.now) records.old history.old (bus_row Observer-dyn bus.old) records.new history.new (bus_row Observer-dyn bus.new)) }
    ensures refused { IsAnswerFor unpin_said (unpin_refusal (layer_at records.old history.old) p.now) result }
    ensures graph { OnErr result (records.new.graph ≡ records.old.graph) }
    ensures tables { OnErr result (tables_of records.new ≡ tables_of records.old) }
    ensures same_layer { OnErr result (SameLayer history.old history.new) }
    ensures same_curves { OnErr result (SameCurves history.old history.new) }
    ensures records_capacity { SameRecordCapacity records.old records.new }
    ensures history_capacity { SameHistoryCapacity history.old history.new }
    ensures untold { OnErr result (bus_row Observer-dyn bus.new ≡ bus_row Observer-dyn bus.old) }
{
    let Some(vertex) = records.vertex_at(p) else {
        return Err(NotPinned);
    };
    if !records.pinned(vertex) {
        return Err(NotPinned);
    }
    bus.begin();
    clear_pin(alloc, records, &*history, bus, vertex);
    remove_if_redundant(alloc, records, history, bus, vertex);
    Ok(())
}
