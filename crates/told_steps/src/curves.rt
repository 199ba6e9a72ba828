ghost use Rattle.std.specs.Prelude.{◌≡◌, ◌≤◌, not, true, [], ◌∷◌};
ghost use Rattle.std.specs.List.{list_any};
ghost use Rattle.edit_steps.specs.Steps.{AddCurve, RemoveCurve};
ghost use Rattle.plane_graphs.specs.Ascending.{Member};
ghost use Rattle.plane_graphs.specs.Graph.{same_curve};
ghost use Rattle.plane_graphs.specs.Strands.{strand};
ghost use Rattle.slab_laws.specs.Sound.{IsGraphSound};
ghost use Rattle.slab_laws.specs.View.{View, point_in, source_in, target_in};
ghost use Rattle.arr_notes.specs.Curves.{AreCurvesOf, IsForward};
ghost use Rattle.arr_notes.specs.MapView.{MapView};
ghost use Rattle.curve_history.specs.Past.{curves_on, strands_on, GainsCurve, IsSpare, LosesCurve, SameCurves, SameHistoryCapacity, SameLayer, SpendsPairs};
ghost use Rattle.dcel_records.specs.SoundMaps.{map_of};
ghost use Rattle.observer_bus.specs.Rounds.{BusRow};
ghost use Rattle.observer_bus.specs.Rows.{bus_row};
ghost use Rattle.told_steps.specs.StrandRuns.{IsStrandRun, SidesGo};
ghost use Rattle.told_steps.specs.ToldRuns.{AreInStep, IsToldRun};

use crate::ends::ends;
use crate::told::{tell_after, tell_before};
use arr_notes::{Change, Intent};
use curve_history::History;
use dcel_records::Records;
use observer_bus::Bus;
use slab_laws::{CurveId, DartId};
use std::alloc::Global;

/// One more curve runs along the edge of a dart from its lower to its upper end, by one of its sides, from 1 to 8, in room that is
/// there. It takes no memory where no observer joins.
pub fn add_curve(
    alloc: Global,
    records: &Records,
    history: &mut History,
    bus: &mut Bus,
    d: DartId,
    curve: CurveId,
    side: u32,
)
    requires in_step { AreInStep (map_of records.now) (curves_on history.old)
        (bus_row Observer-dyn bus.old) }
    requires forward { IsForward records.now.graph d }
    requires side { side ≤ 8 }
    requires named { Member curve.0 history.old.names }
    requires new { ¬ Member curve.0 (curves_on history.old d) }
    requires room { 1 ≤ history.old.spare_pairs }
    ensures told { IsToldRun (map_of records.now) (curves_on history.old)
        (bus_row Observer-dyn bus.old)
        (AddCurve (point_in records.now.graph (source_in records.now.graph d)) (point_in records.now.graph (target_in records.now.graph d)) curve.0 ∷ []) (map_of records.now) (curves_on history.new)
        (bus_row Observer-dyn bus.new) }
    ensures strands { IsStrandRun records.now.graph history.old
        (AddCurve (point_in records.now.graph (source_in records.now.graph d)) (point_in records.now.graph (target_in records.now.graph d)) (strand curve.0 side) ∷ []) records.now.graph history.new }
    ensures in_step { AreInStep (map_of records.now) (curves_on history.new)
        (bus_row Observer-dyn bus.new) }
    ensures curves { GainsCurve history.old history.new d curve.0 }
    ensures layer { SameLayer history.old history.new }
    ensures spare { SpendsPairs history.old history.new 1 }
{
    let (low, high) = ends(records, d);
    tell_before(
        alloc,
        records,
        &*history,
        bus,
        Intent::AddCurve(low, high, curve),
    );
    history.hold(d, curve, side);
    tell_after(
        alloc,
        records,
        &*history,
        bus,
        Change::AddCurve { d, curve },
    );
}

/// One more side, from 1 to 8, of a curve that runs along the edge of a dart from its lower to its upper end already, in room that is
/// there. The edge keeps its curves, so observers are told nothing.
pub fn add_side(history: &mut History, dart: DartId, curve: CurveId, side: u32)
    requires side { side ≤ 8 }
    requires named { Member curve.0 history.old.names }
    requires there { Member curve.0 (curves_on history.old dart) }
    requires new { ¬ Member (strand curve.0 side) (strands_on history.old dart) }
    requires room { 1 ≤ history.old.spare_pairs }
    ensures strands { (v : View) → IsGraphSound v → AreCurvesOf v (curves_on history.old) → IsForward v dart → IsStrandRun v history.old
        (AddCurve (point_in v (source_in v dart)) (point_in v (target_in v dart)) (strand curve.0 side) ∷ []) v history.new }
    ensures curves { SameCurves history.old history.new }
    ensures in_step { (m : MapView) (b : BusRow) → AreInStep m (curves_on history.old) b → AreInStep m (curves_on history.new) b }
    ensures layer { SameLayer history.old history.new }
    ensures spare { SpendsPairs history.old history.new 1 }
{
    history.hold(dart, curve, side)
}

/// One curve fewer, with all its sides, runs along the edge of a dart from its lower to its upper end, where another does too. It takes
/// no memory where no observer joins.
pub fn remove_curve(
    alloc: Global,
    records: &Records,
    history: &mut History,
    bus: &mut Bus,
    d: DartId,
    curve: CurveId,
)
    requires in_step { AreInStep (map_of records.now) (curves_on history.old)
        (bus_row Observer-dyn bus.old) }
    requires forward { IsForward records.now.graph d }
    requires runs { Member curve.0 (curves_on history.old d) }
    requires other { list_any (λ k. not (same_curve k curve.0)) (curves_on history.old d) ≡ true }
    ensures told { IsToldRun (map_of records.now) (curves_on history.old)
        (bus_row Observer-dyn bus.old)
        (RemoveCurve (point_in records.now.graph (source_in records.now.graph d)) (point_in records.now.graph (target_in records.now.graph d)) curve.0 ∷ []) (map_of records.now) (curves_on history.new)
        (bus_row Observer-dyn bus.new) }
    ensures strands { SidesGo records.now.graph history.old d curve.0 records.now.graph history.new }
    ensures in_step { AreInStep (map_of records.now) (curves_on history.new)
        (bus_row Observer-dyn bus.new) }
    ensures curves { LosesCurve history.old history.new d curve.0 }
    ensures layer { SameLayer history.old history.new }
    ensures spare { IsSpare history.old history.new 0 0 0 }
    ensures capacity { SameHistoryCapacity history.old history.new }
{
    let (low, high) = ends(records, d);
    tell_before(
        alloc,
        records,
        &*history,
        bus,
        Intent::RemoveCurve(low, high, curve),
    );
    history.release_sides(d, curve);
    tell_after(
        alloc,
        records,
        &*history,
        bus,
        Change::RemoveCurve { d, curve },
    );
}
