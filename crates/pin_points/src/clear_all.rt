ghost use Rattle.edit_steps.specs.Edits.{ClearAll};
ghost use Rattle.dcel_records.specs.RecordsView.{SameRecordCapacity};
ghost use Rattle.dcel_records.specs.SoundMaps.{IsMapAtRest};
ghost use Rattle.curve_history.specs.Past.{SameHistoryCapacity};
ghost use Rattle.told_steps.specs.RecordLayers.{IsLayer};
ghost use Rattle.observer_bus.specs.Rows.{bus_row};
ghost use Rattle.told_steps.specs.ToldEdits.{AreWatched, IsToldEdit};
ghost use Rattle.told_steps.specs.LayerEdits.{IsAfter};

use curve_history::History;
use dcel_records::Records;
use observer_bus::Bus;
use std::alloc::Global;

/// No piece, pin or curve is left; the next number stays. Where no observer joins it takes no memory of its own (CGAL manual,
/// `clear`).
pub fn clear(alloc: Global, records: &mut Records, history: &mut History, bus: &mut Bus)
    requires layer { IsLayer records.old.graph history.old }
    requires map { IsMapAtRest records.old }
    requires watched { AreWatched records.old history.old (bus_row Observer-dyn bus.old) }
    ensures layer { IsLayer records.new.graph history.new }
    ensures map { IsMapAtRest records.new }
    ensures watched { AreWatched records.new history.new (bus_row Observer-dyn bus.new) }
    ensures edit { IsAfter ClearAll records.old history.old records.new history.new }
    ensures told { IsToldEdit ClearAll records.old history.old (bus_row Observer-dyn bus.old) records.new history.new (bus_row Observer-dyn bus.new) }
    ensures records_capacity { SameRecordCapacity records.old records.new }
    ensures history_capacity { SameHistoryCapacity history.old history.new }
{
    bus.begin();
    told_steps::clear(alloc, records, history, bus);
}
