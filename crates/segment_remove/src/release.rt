ghost use Rattle.std.specs.Prelude.{◌≡◌, ◌≤◌, ◌↔◌, ◌+◌, length, map};
ghost use Rattle.std.specs.List.{AllByRecursion};
ghost use Rattle.plane_graphs.specs.Ascending.{Member, IsAscending};
ghost use Rattle.plane_graphs.specs.Graph.{edge_cmp};
ghost use Rattle.dcel_records.specs.SoundMaps.{IsMapAtRest, map_of};
ghost use Rattle.curve_history.specs.Past.{curves_on, SameLayer};
ghost use Rattle.observer_bus.specs.Rows.{bus_row};
ghost use Rattle.record_orders.specs.Keys.{dart_key};
ghost use Rattle.record_orders.specs.Edges.{edge_of_key};
ghost use Rattle.told_steps.specs.StrandRuns.{SidesGo};
ghost use Rattle.told_steps.specs.ToldRuns.{AreInStep};
ghost use Rattle.segment_remove.specs.CurveLosses.{AreSidesGone, HasLost, HaveLost, IsLossTold, IsCurveGone};

use curve_history::History;
use dcel_records::Records;
use observer_bus::Bus;
use record_orders::DartKey;
use slab_laws::{CurveId, DartId};
use std::alloc::Global;
use told_steps::{remove_curve, remove_edge};

// The curve goes from the edge of a dart, with all its sides, and the edge goes with it where no other curve runs there.
fn release_at(
    alloc: Global,
    records: &mut Records,
    history: &mut History,
    bus: &mut Bus,
    d: DartId,
    curve: CurveId,
)
    requires in_step { AreInStep (map_of records.old) (curves_on history.old)
        (bus_row Observer-dyn bus.old) }
    requires map { IsMapAtRest records.old }
    requires runs { Member curve.0 (curves_on history.old d) }
    requires cycles { 1 ≤ records.old.faces.spare_cycles }
    ensures told { IsLossTold (map_of records.old) (curves_on history.old)
        (bus_row Observer-dyn bus.old)
        d curve (map_of records.new) (curves_on history.new)
        (bus_row Observer-dyn bus.new) }
    ensures in_step { AreInStep (map_of records.new) (curves_on history.new)
        (bus_row Observer-dyn bus.new) }
    ensures map { IsMapAtRest records.new }
    ensures spare_cycles { records.old.faces.spare_cycles ≤ records.new.faces.spare_cycles + 1 }
    ensures graph { HasLost records.old.graph (curves_on history.old) d curve records.new.graph }
    ensures curves { HaveLost (curves_on history.old) d curve (curves_on history.new) }
    ensures sides { SidesGo records.old.graph history.old d curve.0 records.new.graph history.new }
    ensures layer { SameLayer history.old history.new }
{
    if history.has_other(d, curve) {
        remove_curve(alloc, &*records, history, bus, d, curve);
    } else {
        remove_edge(alloc, records, history, bus, d);
    }
}

/// A curve goes from its edges, in their order, with all its sides: an edge along which no other curve runs goes, another one loses
/// the curve.
/// Where no observer joins it takes no memory of its own (CGAL manual, `remove_curve`).
pub fn release_curve(
    alloc: Global,
    records: &mut Records,
    history: &mut History,
    bus: &mut Bus,
    edges: &[DartKey],
    curve: CurveId,
)
    requires in_step { AreInStep (map_of records.old) (curves_on history.old)
        (bus_row Observer-dyn bus.old) }
    requires map { IsMapAtRest records.old }
    requires keys { AllByRecursion (λ k. k ≡ dart_key records.old.graph k.name) edges.now }
    requires all { (d : DartId) → Member d (map (λ k. k.name) edges.now) ↔ Member curve.0 (curves_on history.old d) }
    requires ascend { IsAscending edge_cmp (map edge_of_key edges.now) }
    requires cycles { length edges.now ≤ records.old.faces.spare_cycles }
    ensures told { IsCurveGone (map_of records.old) (curves_on history.old)
        (bus_row Observer-dyn bus.old)
        curve (map_of records.new) (curves_on history.new)
        (bus_row Observer-dyn bus.new) }
    ensures in_step { AreInStep (map_of records.new) (curves_on history.new)
        (bus_row Observer-dyn bus.new) }
    ensures map { IsMapAtRest records.new }
    ensures gone { (d : DartId) → ¬ Member curve.0 (curves_on history.new d) }
    ensures sides { AreSidesGone records.old.graph history.old curve.0 records.new.graph history.new }
    ensures vertices { records.new.graph.vertices ≡ records.old.graph.vertices }
    ensures layer { SameLayer history.old history.new }
{
    for edge in edges {
        release_at(alloc, records, history, bus, edge.name, curve);
    }
}
