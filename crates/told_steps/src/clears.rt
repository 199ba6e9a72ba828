ghost use Rattle.std.specs.Prelude.{◌≡◌, ◌≤◌, ◌+◌, length, [], ◌∷◌};
ghost use Rattle.edit_steps.specs.Steps.{Clear};
ghost use Rattle.arr_notes.specs.ViewChanges.{no_rows};
ghost use Rattle.curve_history.specs.Past.{curves_on, IsSpare, SameHistoryCapacity};
ghost use Rattle.dcel_records.specs.RecordsView.{SameRecordCapacity};
ghost use Rattle.dcel_records.specs.SoundMaps.{IsMapAtRest, map_of};
ghost use Rattle.observer_bus.specs.Rows.{bus_row};
ghost use Rattle.told_steps.specs.StrandRuns.{IsStrandRun};
ghost use Rattle.told_steps.specs.ToldRuns.{AreInStep, IsToldRun};

use crate::told::{tell_after, tell_before};
use arr_notes::{Change, Intent};
use curve_history::History;
use dcel_records::Records;
use observer_bus::Bus;
use slab_laws::FaceId;
use std::alloc::Global;

/// Nothing is left but the number of the next curve. Where no observer joins it takes no memory of its own (CGAL manual, `clear`).
pub fn clear(alloc: Global, records: &mut Records, history: &mut History, bus: &mut Bus)
    requires in_step { AreInStep (map_of records.old) (curves_on history.old)
        (bus_row Observer-dyn bus.old) }
    requires map { IsMapAtRest records.old }
    ensures told { IsToldRun (map_of records.old) (curves_on history.old)
        (bus_row Observer-dyn bus.old)
        (Clear ∷ []) (map_of records.new) (curves_on history.new)
        (bus_row Observer-dyn bus.new) }
    ensures strands { IsStrandRun records.old.graph history.old (Clear ∷ []) records.new.graph history.new }
    ensures in_step { AreInStep (map_of records.new) (curves_on history.new)
        (bus_row Observer-dyn bus.new) }
    ensures map { IsMapAtRest records.new }
    ensures graph { records.new.graph ≡ no_rows }
    ensures names { history.new.names ≡ [] }
    ensures pieces { history.new.pieces ≡ [] }
    ensures next { history.new.next ≡ history.old.next }
    ensures records_capacity { SameRecordCapacity records.old records.new }
    ensures history_capacity { SameHistoryCapacity history.old history.new }
    ensures vertices { records.old.spare_vertices + length records.old.graph.vertices ≤ records.new.spare_vertices }
    ensures darts { records.old.spare_darts + length records.old.graph.darts ≤ records.new.spare_darts }
    ensures spare { IsSpare history.old history.new 0 0 0 }
{
    tell_before(alloc, &*records, &*history, bus, Intent::Clear);
    // These tell that the unbounded face's name is the first, which is the one that stays.
    records.face_laws();
    records.clear();
    history.clear();
    tell_after(
        alloc,
        &*records,
        &*history,
        bus,
        Change::Clear { face: FaceId(0) },
    );
}
