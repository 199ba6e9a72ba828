ghost use Rattle.std.specs.Prelude.{◌≡◌, ◌≢◌, ◌≤◌, ◌+◌, length, Err, IsOk, OnOk, OnErr};
ghost use Rattle.edit_steps.specs.Refusals.{IsAnswerFor};
ghost use Rattle.dcel_records.specs.RecordsView.{tables_of};
ghost use Rattle.dcel_records.specs.SoundMaps.{IsMapAtRest};
ghost use Rattle.curve_history.specs.Past.{SameLayer, SameCurves, SameStrands};
ghost use Rattle.told_steps.specs.RecordLayers.{IsLayer};
ghost use Rattle.segment_remove.specs.Refused.{cut_between, cut_refusal_at, cut_said, HasRoomToCut};
ghost use Rattle.observer_bus.specs.Rows.{bus_row};
ghost use Rattle.told_steps.specs.ToldEdits.{AreWatched, IsToldEdit};
ghost use Rattle.told_steps.specs.LayerEdits.{IsAfter};

use crate::room::make_room_of_cycles;
use curve_history::History;
use dcel_records::Records;
use exact_plane::Point;
use locate_naive::edge_dart;
use no_memory::NoMemory;
use observer_bus::Bus;
use slab_laws::Darts;
use std::alloc::Global;
use thiserror::Error;
use told_steps::remove_redundant;

/// Why an edge isn't removed.
#[derive(Clone, Copy, Debug, PartialEq, Eq, Error)]
pub enum CutError {
    /// No edge joins the points.
    #[error("no edge has these two ends")]
    NoEdge,
    /// The pieces that are left would pass this limit.
    #[error("the limit of {0} would be passed")]
    Full(u32),
    /// There was no memory for the pieces that are left, or for a cycle more.
    #[error("no memory")]
    NoMemory,
}

impl From<NoMemory> for CutError {
    ghost use Rattle.segment_remove.specs.declared.cuts.CutError.TheVariants.{NoMemory as OutOfMemory};

    ghost from_gives = { λ _ e. e ≡ OutOfMemory };

    fn from(_error: NoMemory) -> CutError {
        CutError::NoMemory
    }
}

// Makes room for as many pieces, and for a cycle that the edge may leave behind; where it is there, no memory is taken.
fn make_room(records: &mut Records, history: &mut History, pieces: u32) -> Result<(), NoMemory>
    ensures room { OnOk result (pieces ≤ length history.new.pieces + history.new.spare_pieces) }
    ensures cycles { OnOk result (1 ≤ records.new.faces.spare_cycles) }
    ensures succeeds { pieces ≤ length history.old.pieces + history.old.spare_pieces → 1 ≤ records.old.faces.spare_cycles → IsOk result }
    ensures graph { records.new.graph ≡ records.old.graph }
    ensures tables { tables_of records.new ≡ tables_of records.old }
    ensures map { IsMapAtRest records.old → IsMapAtRest records.new }
    ensures layer { SameLayer history.old history.new }
    ensures strands { SameStrands history.old history.new }
    ensures curves { SameCurves history.old history.new }
{
    make_room_of_cycles(records, 1)?;
    let more = pieces.saturating_sub(history.pieces());
    history.reserve(0, more, 0)
}

/// The edge between two points, which come in either order, goes from all its curves; these keep the rest as shorter pieces
/// (this project; CGAL manual, `remove_edge`).
///
/// `pieces` is the limit of pieces. All memory of its own is taken before the first change, and each step is told to observers
/// before and after it (CGAL manual, `Arr_observer`).
///
/// # Errors
///
/// No edge joins the points; the pieces that are left would pass their limit; or there was no memory for them, or for the cycle
/// that the edge may leave behind. The first two come whatever memory there is.
pub fn remove_edge(
    alloc: Global,
    records: &mut Records,
    history: &mut History,
    bus: &mut Bus,
    pieces: u32,
    p: &Point,
    q: &Point,
) -> Result<(), CutError>
    requires layer { IsLayer records.old.graph history.old }
    requires map { IsMapAtRest records.old }
    requires watched { AreWatched records.old history.old (bus_row Observer-dyn bus.old) }
    ensures layer { IsLayer records.new.graph history.new }
    ensures map { IsMapAtRest records.new }
    ensures watched { AreWatched records.new history.new (bus_row Observer-dyn bus.new) }
    ensures edit { OnOk result (IsAfter (cut_between p.now q.now) records.old history.old records.new history.new) }
    ensures told { OnOk result (IsToldEdit (cut_between p.now q.now) records.old history.old (bus_row Observer-dyn bus.old) records.new history.new (bus_row Observer-dyn bus.new)) }
    ensures refused { IsAnswerFor cut_said (cut_refusal_at pieces records.old history.old p.now q.now) result }
    ensures room { HasRoomToCut records.old history.old p.now q.now → result ≢ Err CutError.NoMemory }
    ensures graph { OnErr result (records.new.graph ≡ records.old.graph) }
    ensures tables { OnErr result (tables_of records.new ≡ tables_of records.old) }
    ensures same_layer { OnErr result (SameLayer history.old history.new) }
    ensures same_curves { OnErr result (SameCurves history.old history.new) }
    ensures untold { OnErr result (bus_row Observer-dyn bus.new ≡ bus_row Observer-dyn bus.old) }
{
    let Some(d) = edge_dart(&*records, p, q) else {
        return Err(CutError::NoEdge);
    };
    let source = records.source(d);
    let target = records.target(d);
    let low = records.point(source);
    let high = records.point(target);
    let plan = history.plan_cut(&low, &high);
    if plan.left > u64::from(pieces) {
        return Err(CutError::Full(pieces));
    }
    make_room(records, history, plan.left as u32)?;
    bus.begin();
    history.cut_pieces(&low, &high, plan);
    told_steps::remove_edge(alloc, records, history, bus, d);
    remove_redundant(alloc, records, history, bus, &[source, target]);
    Ok(())
}
