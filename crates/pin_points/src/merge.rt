ghost use Rattle.std.specs.Prelude.{◌≡◌, OnOk, OnErr};
ghost use Rattle.edit_steps.specs.Edits.{Merge};
ghost use Rattle.edit_steps.specs.Refusals.{merge_refusal, IsAnswerFor};
ghost use Rattle.dcel_records.specs.RecordsView.{SameRecordCapacity, tables_of};
ghost use Rattle.dcel_records.specs.SoundMaps.{IsMapAtRest};
ghost use Rattle.curve_history.specs.Past.{SameLayer, SameCurves, SameHistoryCapacity};
ghost use Rattle.told_steps.specs.RecordLayers.{IsLayer};
ghost use Rattle.pin_points.specs.Merges.{merge_said};
ghost use Rattle.observer_bus.specs.Rows.{bus_row};
ghost use Rattle.told_steps.specs.ToldEdits.{AreWatched, IsToldEdit};
ghost use Rattle.told_steps.specs.LayerEdits.{layer_at, IsAfter};

use curve_history::History;
use dcel_records::Records;
use exact_plane::Point;
use observer_bus::Bus;
use slab_laws::Darts;
use std::alloc::Global;
use thiserror::Error;
use told_steps::{clear_pin, is_mergeable, remove_if_redundant};

/// Why two edges don't become one at a point.
#[derive(Clone, Copy, Debug, PartialEq, Eq, Error)]
pub enum MergeError {
    /// The point is no vertex.
    #[error("no vertex is at the point")]
    NoVertex,
    /// It isn't pinned, no edge ends there, or it would be a vertex without its pin too.
    #[error("the vertex isn't pinned, or without its pin it would still be a vertex, or it has no edge")]
    NotMergeable,
}

/// A pinned point inside what would be one edge without it is unpinned, and its two edges become one (CGAL manual,
/// `merge_edge`; the pin: this project). Where no observer joins it takes no memory of its own.
pub fn merge_edge(
    alloc: Global,
    records: &mut Records,
    history: &mut History,
    bus: &mut Bus,
    r: &Point,
) -> Result<(), MergeError>
    requires layer { IsLayer records.old.graph history.old }
    requires map { IsMapAtRest records.old }
    requires watched { AreWatched records.old history.old (bus_row Observer-dyn bus.old) }
    ensures layer { IsLayer records.new.graph history.new }
    ensures map { IsMapAtRest records.new }
    ensures watched { AreWatched records.new history.new (bus_row Observer-dyn bus.new) }
    ensures edit { OnOk result (IsAfter (Merge r.now) records.old history.old records.new history.new) }
    ensures told { OnOk result (IsToldEdit (Merge r.now) records.old history.old (bus_row Observer-dyn bus.old) records.new history.new (bus_row Observer-dyn bus.new)) }
    ensures refused { IsAnswerFor merge_said (merge_refusal (layer_at records.old history.old) r.now) result }
    ensures graph { OnErr result (records.new.graph ≡ records.old.graph) }
    ensures tables { OnErr result (tables_of records.new ≡ tables_of records.old) }
    ensures same_layer { OnErr result (SameLayer history.old history.new) }
    ensures same_curves { OnErr result (SameCurves history.old history.new) }
    ensures records_capacity { SameRecordCapacity records.old records.new }
    ensures history_capacity { SameHistoryCapacity history.old history.new }
    ensures untold { OnErr result (bus_row Observer-dyn bus.new ≡ bus_row Observer-dyn bus.old) }
{
    let Some(vertex) = records.vertex_at(r) else {
        return Err(MergeError::NoVertex);
    };
    if !records.pinned(vertex) {
        return Err(MergeError::NotMergeable);
    }
    if !is_mergeable(&*records, &*history, vertex) {
        return Err(MergeError::NotMergeable);
    }
    bus.begin();
    clear_pin(alloc, records, &*history, bus, vertex);
    remove_if_redundant(alloc, records, history, bus, vertex);
    Ok(())
}
