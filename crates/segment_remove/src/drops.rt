ghost use Rattle.std.specs.Prelude.{◌≡◌, ◌↔◌, map, IfOk, OnOk, OnErr};
ghost use Rattle.std.specs.List.{AllByRecursion};
ghost use Rattle.plane_graphs.specs.Ascending.{Member, IsAscending};
ghost use Rattle.plane_graphs.specs.Graph.{edge_cmp};
ghost use Rattle.slab_laws.specs.declared.names.DartId.{DartId as Dart};
ghost use Rattle.edit_steps.specs.Edits.{Drop};
ghost use Rattle.edit_steps.specs.Refusals.{drop_refusal, IsAnswerFor};
ghost use Rattle.dcel_records.specs.RecordsView.{tables_of};
ghost use Rattle.dcel_records.specs.SoundMaps.{IsMapAtRest};
ghost use Rattle.curve_history.specs.Past.{curves_on, SameLayer, SameCurves};
ghost use Rattle.record_orders.specs.Keys.{dart_key};
ghost use Rattle.told_steps.specs.RecordLayers.{IsLayer};
ghost use Rattle.record_orders.specs.Edges.{edge_of_key};
ghost use Rattle.segment_remove.specs.Refused.{drop_said};
ghost use Rattle.observer_bus.specs.Rows.{bus_row};
ghost use Rattle.told_steps.specs.ToldEdits.{AreWatched, IsToldEdit};
ghost use Rattle.told_steps.specs.LayerEdits.{layer_at, IsAfter};

use crate::ends::ends_in_order;
use crate::release::release_curve;
use crate::room::make_room_of_cycles;
use curve_history::{History, HistoryError};
use dcel_records::Records;
use no_memory::NoMemory;
use observer_bus::Bus;
use record_orders::{DartKey, edges_in_order};
use slab_laws::CurveId;
use std::alloc::Global;
use thiserror::Error;
use told_steps::remove_redundant;

/// Why a curve isn't removed.
#[derive(Clone, Copy, Debug, PartialEq, Eq, Error)]
pub enum DropError {
    /// No curve has the number.
    #[error("no curve has this number")]
    Unknown,
    /// There was no memory for the list of its edges, or for the cycles that they leave behind.
    #[error("no memory")]
    NoMemory,
}

impl From<NoMemory> for DropError {
    ghost use Rattle.segment_remove.specs.declared.drops.DropError.TheVariants.{NoMemory as OutOfMemory};

    ghost from_gives = { λ _ e. e ≡ OutOfMemory };

    fn from(_error: NoMemory) -> DropError {
        DropError::NoMemory
    }
}

// The edges of a curve, in their order.
fn edges_of_curve(
    alloc: Global,
    records: &Records,
    history: &History,
    curve: CurveId,
) -> Result<Vec<DartKey>, DropError>
    requires { IsLayer records.now.graph history.now }
    ensures keys { IfOk result (λ ks. AllByRecursion (λ k. k ≡ dart_key records.now.graph k.name) ks.items) }
    ensures all { IfOk result (λ ks. (d : Dart) → Member d (map (λ k. k.name) ks.items) ↔ Member curve.0 (curves_on history.now d)) }
    ensures ascend { IfOk result (λ ks. IsAscending edge_cmp (map edge_of_key ks.items)) }
    ensures named { OnOk result (Member curve.0 history.now.names) }
    ensures refused { IsAnswerFor drop_said (drop_refusal (layer_at records.now history.now) curve.0) result }
{
    let darts = match history.edges_of(alloc, curve) {
        Ok(darts) => darts,
        Err(HistoryError::Unknown) => return Err(DropError::Unknown),
        Err(HistoryError::NoMemory) => return Err(DropError::NoMemory),
    };
    let edges = edges_in_order(alloc, records, &darts)?;
    Ok(edges)
}

/// A curve goes, with all its sides: from its edges, which go where no other curve runs along them; then each vertex that is
/// redundant afterwards (CGAL manual, `remove_curve`).
///
/// It looks at the curve's edges and at what ends there, not at other edges. All memory of its own is taken before the first
/// change, and each step is told to observers before and after it (CGAL manual, `Arr_observer`).
///
/// # Errors
///
/// No curve has the number, whatever memory there is; or there was no memory for the list of its edges, or for the cycles that they leave behind.
pub fn remove_curve(
    alloc: Global,
    records: &mut Records,
    history: &mut History,
    bus: &mut Bus,
    curve: CurveId,
) -> Result<(), DropError>
    requires layer { IsLayer records.old.graph history.old }
    requires map { IsMapAtRest records.old }
    requires watched { AreWatched records.old history.old (bus_row Observer-dyn bus.old) }
    ensures layer { IsLayer records.new.graph history.new }
    ensures map { IsMapAtRest records.new }
    ensures watched { AreWatched records.new history.new (bus_row Observer-dyn bus.new) }
    ensures edit { OnOk result (IsAfter (Drop curve.0) records.old history.old records.new history.new) }
    ensures told { OnOk result (IsToldEdit (Drop curve.0) records.old history.old (bus_row Observer-dyn bus.old) records.new history.new (bus_row Observer-dyn bus.new)) }
    ensures refused { IsAnswerFor drop_said (drop_refusal (layer_at records.old history.old) curve.0) result }
    ensures graph { OnErr result (records.new.graph ≡ records.old.graph) }
    ensures tables { OnErr result (tables_of records.new ≡ tables_of records.old) }
    ensures same_layer { OnErr result (SameLayer history.old history.new) }
    ensures same_curves { OnErr result (SameCurves history.old history.new) }
    ensures untold { OnErr result (bus_row Observer-dyn bus.new ≡ bus_row Observer-dyn bus.old) }
{
    let edges = edges_of_curve(alloc, &*records, &*history, curve)?;
    let vertices = ends_in_order(alloc, &*records, &edges)?;
    make_room_of_cycles(records, edges.len())?;
    bus.begin();
    release_curve(alloc, records, history, bus, &edges, curve);
    history.drop_name(curve);
    remove_redundant(alloc, records, history, bus, &vertices);
    Ok(())
}
