ghost use Rattle.std.specs.Prelude.{◌≡◌, true, false, [], ◌∷◌};
ghost use Rattle.edit_steps.specs.Steps.{SetPin, ClearPin};
ghost use Rattle.slab_laws.specs.View.{HasVertex, point_in};
ghost use Rattle.arr_notes.specs.ViewChanges.{with_pin};
ghost use Rattle.curve_history.specs.Past.{curves_on};
ghost use Rattle.dcel_records.specs.RecordsView.{IsSpare, IsSpareFaces};
ghost use Rattle.dcel_records.specs.SoundMaps.{IsMapAtRest, map_of};
ghost use Rattle.observer_bus.specs.Rows.{bus_row};
ghost use Rattle.told_steps.specs.StrandRuns.{IsStrandRun};
ghost use Rattle.told_steps.specs.ToldRuns.{AreInStep, IsToldRun};

use crate::told::{tell_after, tell_before};
use arr_notes::{Change, Intent};
use curve_history::History;
use dcel_records::Records;
use observer_bus::Bus;
use slab_laws::{Darts, VertexId};
use std::alloc::Global;

/// A vertex is pinned. Where no observer joins it takes no memory of its own.
pub fn set_pin(alloc: Global, records: &mut Records, history: &History, bus: &mut Bus, v: VertexId)
    requires in_step { AreInStep (map_of records.old) (curves_on history.now)
        (bus_row Observer-dyn bus.old) }
    requires map { IsMapAtRest records.old }
    requires vertex { HasVertex records.old.graph v }
    ensures told { IsToldRun (map_of records.old) (curves_on history.now)
        (bus_row Observer-dyn bus.old)
        (SetPin (point_in records.old.graph v) ∷ []) (map_of records.new) (curves_on history.now)
        (bus_row Observer-dyn bus.new) }
    ensures strands { IsStrandRun records.old.graph history.now (SetPin (point_in records.old.graph v) ∷ []) records.new.graph history.now }
    ensures in_step { AreInStep (map_of records.new) (curves_on history.now)
        (bus_row Observer-dyn bus.new) }
    ensures map { IsMapAtRest records.new }
    ensures graph { records.new.graph ≡ with_pin records.old.graph v true }
    ensures spare { IsSpare records.old records.new 0 0 }
    ensures spare_faces { IsSpareFaces records.old.faces records.new.faces 0 0 }
{
    let p = records.point(v);
    tell_before(alloc, &*records, history, bus, Intent::SetPin(p));
    records.set_pin(v);
    tell_after(alloc, &*records, history, bus, Change::SetPin { v });
}

/// A vertex is no longer pinned. Where no observer joins it takes no memory of its own.
pub fn clear_pin(
    alloc: Global,
    records: &mut Records,
    history: &History,
    bus: &mut Bus,
    v: VertexId,
)
    requires in_step { AreInStep (map_of records.old) (curves_on history.now)
        (bus_row Observer-dyn bus.old) }
    requires map { IsMapAtRest records.old }
    requires vertex { HasVertex records.old.graph v }
    ensures told { IsToldRun (map_of records.old) (curves_on history.now)
        (bus_row Observer-dyn bus.old)
        (ClearPin (point_in records.old.graph v) ∷ []) (map_of records.new) (curves_on history.now)
        (bus_row Observer-dyn bus.new) }
    ensures strands { IsStrandRun records.old.graph history.now (ClearPin (point_in records.old.graph v) ∷ []) records.new.graph history.now }
    ensures in_step { AreInStep (map_of records.new) (curves_on history.now)
        (bus_row Observer-dyn bus.new) }
    ensures map { IsMapAtRest records.new }
    ensures graph { records.new.graph ≡ with_pin records.old.graph v false }
    ensures spare { IsSpare records.old records.new 0 0 }
    ensures spare_faces { IsSpareFaces records.old.faces records.new.faces 0 0 }
{
    let p = records.point(v);
    tell_before(alloc, &*records, history, bus, Intent::ClearPin(p));
    records.clear_pin(v);
    tell_after(alloc, &*records, history, bus, Change::ClearPin { v });
}
