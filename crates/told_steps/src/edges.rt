ghost use Rattle.std.specs.Prelude.{◌≡◌, ◌≤◌, ◌+◌, false, length, [], ◌∷◌};
ghost use Rattle.edit_steps.specs.Steps.{MergeEdge, RemoveEdge, SplitEdge};
ghost use Rattle.slab_laws.specs.View.{pinned_in, point_in, source_in, target_in, twin_in};
ghost use Rattle.arr_notes.specs.Curves.{IsForward};
ghost use Rattle.arr_notes.specs.Step.{remove_edge as edge_gone};
ghost use Rattle.curve_history.specs.Past.{curves_on, strands_on, IsSpare, LosesCurves, SameHistoryCapacity, SameLayer, SpendsPairs};
ghost use Rattle.dcel_records.specs.RecordsView.{IsSpare as IsSpareRecords, IsSpareFaces};
ghost use Rattle.dcel_records.specs.SoundMaps.{IsMapAtRest, map_of};
ghost use Rattle.edge_split_merge.specs.Merges.{CanMerge};
ghost use Rattle.edge_split_merge.specs.Splits.{CanSplit};
ghost use Rattle.observer_bus.specs.Rows.{bus_row};
ghost use Rattle.sound_changes.specs.ChangeFits.{FitsMerge};
ghost use Rattle.sound_views.specs.RecordGraphLaws.{IsVertexAt};
ghost use Rattle.told_steps.specs.StepsMade.{AreMergedAt, IsSplitAt};
ghost use Rattle.told_steps.specs.StrandRuns.{IsStrandRun};
ghost use Rattle.told_steps.specs.ToldRuns.{AreInStep, IsToldRun};

use crate::carried::settle;
use crate::ends::ends;
use crate::told::{tell_after, tell_before};
use arr_notes::{Change, Intent};
use curve_history::History;
use dcel_records::Records;
use edge_split_merge::{merge_in_cycles, split_in_cycles};
use edge_unlink::unlink;
use exact_plane::Point;
use observer_bus::Bus;
use slab_laws::{DartId, Darts, VertexId};
use std::alloc::Global;

/// The edge of a dart from its lower to its upper end goes, with all its curves. Where no observer joins it takes no memory of its own (CGAL
/// manual, `remove_edge`).
pub fn remove_edge(
    alloc: Global,
    records: &mut Records,
    history: &mut History,
    bus: &mut Bus,
    d: DartId,
)
    requires in_step { AreInStep (map_of records.old) (curves_on history.old)
        (bus_row Observer-dyn bus.old) }
    requires map { IsMapAtRest records.old }
    requires forward { IsForward records.old.graph d }
    requires cycles { 1 ≤ records.old.faces.spare_cycles }
    ensures told { IsToldRun (map_of records.old) (curves_on history.old)
        (bus_row Observer-dyn bus.old)
        (RemoveEdge (point_in records.old.graph (source_in records.old.graph d)) (point_in records.old.graph (target_in records.old.graph d)) ∷ []) (map_of records.new) (curves_on history.new)
        (bus_row Observer-dyn bus.new) }
    ensures strands { IsStrandRun records.old.graph history.old
        (RemoveEdge (point_in records.old.graph (source_in records.old.graph d)) (point_in records.old.graph (target_in records.old.graph d)) ∷ []) records.new.graph history.new }
    ensures in_step { AreInStep (map_of records.new) (curves_on history.new)
        (bus_row Observer-dyn bus.new) }
    ensures map { IsMapAtRest records.new }
    ensures graph { records.new.graph ≡ edge_gone records.old.graph d (twin_in records.old.graph d) }
    ensures curves { LosesCurves history.old history.new d }
    ensures layer { SameLayer history.old history.new }
    ensures spare { IsSpareRecords records.old records.new 0 2 }
    ensures spare_cycles { records.old.faces.spare_cycles ≤ records.new.faces.spare_cycles + 1 }
    ensures spare_faces { records.old.faces.spare_faces ≤ records.new.faces.spare_faces }
    ensures spare_history { IsSpare history.old history.new 0 0 0 }
    ensures capacity { SameHistoryCapacity history.old history.new }
{
    let (low, high) = ends(&*records, d);
    tell_before(
        alloc,
        &*records,
        &*history,
        bus,
        Intent::RemoveEdge(low, high),
    );
    let change = unlink(records, d);
    history.release_all(d);
    let told = tell_after(alloc, &*records, &*history, bus, change);
    settle(records, told);
}

/// The edge of a dart from its lower to its upper end is split at a point inside it, in room that is there, and both parts have its
/// curves; the new vertex. Where no observer joins it takes no memory of its own (CGAL manual, `split_edge`).
pub fn split_edge(
    alloc: Global,
    records: &mut Records,
    history: &mut History,
    bus: &mut Bus,
    d: DartId,
    p: Point,
) -> VertexId
    requires in_step { AreInStep (map_of records.old) (curves_on history.old)
        (bus_row Observer-dyn bus.old) }
    requires map { IsMapAtRest records.old }
    requires fits { CanSplit records.old.graph d p }
    requires vertices { 1 ≤ records.old.spare_vertices }
    requires darts { 2 ≤ records.old.spare_darts }
    requires pairs { length (strands_on history.old d) ≤ history.old.spare_pairs }
    ensures told { IsToldRun (map_of records.old) (curves_on history.old)
        (bus_row Observer-dyn bus.old)
        (SplitEdge (point_in records.old.graph (source_in records.old.graph d)) (point_in records.old.graph (target_in records.old.graph d)) p ∷ []) (map_of records.new) (curves_on history.new)
        (bus_row Observer-dyn bus.new) }
    ensures strands { IsStrandRun records.old.graph history.old
        (SplitEdge (point_in records.old.graph (source_in records.old.graph d)) (point_in records.old.graph (target_in records.old.graph d)) p ∷ []) records.new.graph history.new }
    ensures in_step { AreInStep (map_of records.new) (curves_on history.new)
        (bus_row Observer-dyn bus.new) }
    ensures map { IsMapAtRest records.new }
    ensures vertex { IsVertexAt records.new.graph p result }
    ensures graph { IsSplitAt records.old.graph d p result records.new.graph }
    ensures layer { SameLayer history.old history.new }
    ensures spare { IsSpareRecords records.new records.old 1 2 }
    ensures spare_faces { IsSpareFaces records.old.faces records.new.faces 0 0 }
    ensures spare_history { SpendsPairs history.old history.new (length (strands_on history.old d)) }
{
    p.laws();
    let (low, high) = ends(&*records, d);
    tell_before(
        alloc,
        &*records,
        &*history,
        bus,
        Intent::SplitEdge(low, high, p),
    );
    let new = split_in_cycles(records, d, p);
    let change = Change::SplitEdge {
        d,
        v: new.v,
        p,
        n: new.n,
        m: new.m,
    };
    history.part(d, new.n);
    tell_after(alloc, &*records, &*history, bus, change);
    new.v
}

/// The two edges that meet at a vertex that is not pinned, and go straight on there with the same sides of curves, become one, and the
/// vertex goes. Where no observer joins it takes no memory of its own (CGAL manual, `merge_edge`).
pub fn merge_edge(
    alloc: Global,
    records: &mut Records,
    history: &mut History,
    bus: &mut Bus,
    v: VertexId,
)
    requires in_step { AreInStep (map_of records.old) (curves_on history.old)
        (bus_row Observer-dyn bus.old) }
    requires map { IsMapAtRest records.old }
    requires fits { CanMerge records.old.graph v }
    requires unpinned { pinned_in records.old.graph v ≡ false }
    requires alike { (d n : DartId) → FitsMerge records.old.graph v d n → strands_on history.old d ≡ strands_on history.old n }
    ensures told { IsToldRun (map_of records.old) (curves_on history.old)
        (bus_row Observer-dyn bus.old)
        (MergeEdge (point_in records.old.graph v) ∷ []) (map_of records.new) (curves_on history.new)
        (bus_row Observer-dyn bus.new) }
    ensures strands { IsStrandRun records.old.graph history.old (MergeEdge (point_in records.old.graph v) ∷ []) records.new.graph history.new }
    ensures in_step { AreInStep (map_of records.new) (curves_on history.new)
        (bus_row Observer-dyn bus.new) }
    ensures map { IsMapAtRest records.new }
    ensures graph { AreMergedAt records.old.graph (curves_on history.old) v records.new.graph (curves_on history.new) }
    ensures layer { SameLayer history.old history.new }
    ensures spare { IsSpareRecords records.old records.new 1 2 }
    ensures spare_faces { IsSpareFaces records.old.faces records.new.faces 0 0 }
    ensures spare_history { IsSpare history.old history.new 0 0 0 }
    ensures capacity { SameHistoryCapacity history.old history.new }
{
    let p = records.point(v);
    tell_before(alloc, &*records, &*history, bus, Intent::MergeEdge(p));
    let met = merge_in_cycles(records, v);
    let change = Change::MergeEdge {
        v,
        d: met.d,
        n: met.n,
    };
    history.join(met.d, met.n);
    tell_after(alloc, &*records, &*history, bus, change);
}
