ghost use Rattle.std.specs.Prelude.{◌≡◌, ◌≤◌, ◌+◌, true, [], ◌∷◌};
ghost use Rattle.edit_steps.specs.Steps.{AddCurve, AddEdge};
ghost use Rattle.plane_graphs.specs.Ascending.{Member};
ghost use Rattle.plane_graphs.specs.Line.{precedes};
ghost use Rattle.plane_graphs.specs.Strands.{strand};
ghost use Rattle.slab_laws.specs.View.{point_in};
ghost use Rattle.arr_notes.specs.Step.{add_edge as edge_more};
ghost use Rattle.curve_history.specs.Past.{curves_on, GainsCurve, SameLayer, SpendsPairs};
ghost use Rattle.dcel_records.specs.RecordsView.{IsSpare};
ghost use Rattle.dcel_records.specs.SoundMaps.{IsMapAtRest, map_of};
ghost use Rattle.edge_link.specs.Links.{AreNewDarts, CanLink};
ghost use Rattle.observer_bus.specs.Rows.{bus_row};
ghost use Rattle.told_steps.specs.StrandRuns.{IsStrandRun};
ghost use Rattle.told_steps.specs.ToldRuns.{AreInStep, IsToldRun};

use crate::carried::settle;
use crate::told::{tell_after, tell_before};
use arr_notes::{Change, Intent};
use curve_history::History;
use dcel_records::Records;
use edge_link::{FacedLink, link_with_faces};
use exact_plane::Line;
use observer_bus::Bus;
use slab_laws::{CurveId, DartId, Darts, VertexId};
use std::alloc::Global;

/// An edge of one side of a curve, from 1 to 8, comes from a vertex to a greater one, directly after the darts at both places clockwise, in room that is there; the names
/// of its darts, that from the lower end first. Where no observer joins it takes no memory of its own (CGAL manual, `insert_at_vertices`).
pub fn add_edge(
    alloc: Global,
    records: &mut Records,
    history: &mut History,
    bus: &mut Bus,
    u: VertexId,
    w: VertexId,
    at_u: Option<DartId>,
    at_w: Option<DartId>,
    line: Line,
    curve: CurveId,
    side: u32,
) -> (DartId, DartId)
    requires in_step { AreInStep (map_of records.old) (curves_on history.old)
        (bus_row Observer-dyn bus.old) }
    requires map { IsMapAtRest records.old }
    requires fits { CanLink records.old.graph u w at_u at_w line }
    requires forward { precedes (point_in records.old.graph u) (point_in records.old.graph w) ≡ true }
    requires side { side ≤ 8 }
    requires named { Member curve.0 history.old.names }
    requires darts { 2 ≤ records.old.spare_darts }
    requires cycles { 1 ≤ records.old.faces.spare_cycles }
    requires faces { 1 ≤ records.old.faces.spare_faces }
    requires pairs { 1 ≤ history.old.spare_pairs }
    ensures told { IsToldRun (map_of records.old) (curves_on history.old)
        (bus_row Observer-dyn bus.old)
        (AddEdge (point_in records.old.graph u) (point_in records.old.graph w) curve.0 ∷ []) (map_of records.new) (curves_on history.new)
        (bus_row Observer-dyn bus.new) }
    ensures strands { IsStrandRun records.old.graph history.old
        (AddCurve (point_in records.old.graph u) (point_in records.old.graph w) (strand curve.0 side) ∷ []) records.new.graph history.new }
    ensures in_step { AreInStep (map_of records.new) (curves_on history.new)
        (bus_row Observer-dyn bus.new) }
    ensures map { IsMapAtRest records.new }
    ensures new_darts { AreNewDarts records.old.graph result.0 result.1 }
    ensures graph { records.new.graph ≡ edge_more records.old.graph result.0 result.1 u w at_u at_w line }
    ensures curves { GainsCurve history.old history.new result.0 curve.0 }
    ensures layer { SameLayer history.old history.new }
    ensures spare { IsSpare records.new records.old 0 2 }
    ensures spare_cycles { records.old.faces.spare_cycles ≤ records.new.faces.spare_cycles + 1 }
    ensures spare_faces { records.old.faces.spare_faces ≤ records.new.faces.spare_faces + 1 }
    ensures spare_history { SpendsPairs history.old history.new 1 }
{
    line.laws();
    let low = records.point(u);
    let high = records.point(w);
    tell_before(alloc, &*records, &*history, bus, Intent::AddEdge(low, high));
    let FacedLink { names, faces } = link_with_faces(records, u, w, at_u, at_w, line);
    let change = Change::AddEdge {
        d: names.d,
        m: names.m,
        u,
        v: w,
        at_u,
        at_v: at_w,
        line,
        curve,
        faces,
    };
    history.hold(names.d, curve, side);
    let told = tell_after(alloc, &*records, &*history, bus, change);
    settle(records, told);
    (names.d, names.m)
}
