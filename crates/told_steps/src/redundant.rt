ghost use Rattle.std.specs.Prelude.{◌≡◌, false, map};
ghost use Rattle.std.specs.List.{AllByRecursion};
ghost use Rattle.exact_plane.specs.PointOrder.{point_cmp};
ghost use Rattle.plane_graphs.specs.Ascending.{IsAscending};
ghost use Rattle.slab_laws.specs.View.{HasVertex, point_in, pinned_in};
ghost use Rattle.dcel_records.specs.RecordsView.{IsSpareFaces, SameRecordCapacity};
ghost use Rattle.dcel_records.specs.SoundMaps.{IsMapAtRest, map_of};
ghost use Rattle.curve_history.specs.Past.{curves_on, SameLayer, SameHistoryCapacity};
ghost use Rattle.observer_bus.specs.Rows.{bus_row};
ghost use Rattle.told_steps.specs.ToldRuns.{AreInStep};
ghost use Rattle.told_steps.specs.Left.{AreOthersGone};
ghost use Rattle.told_steps.specs.Tidied.{IsVertexTidied};

use crate::edges::merge_edge;
use crate::through::joinable;
use crate::vertices::remove_vertex;
use curve_history::History;
use dcel_records::Records;
use observer_bus::Bus;
use slab_laws::{Darts, VertexId};
use std::alloc::Global;

/// An unpinned vertex that is redundant goes: it has no edge, or two on one line with the same sides of curves, which become one
/// (CGAL manual, removing a curve: vertices that become redundant).
///
/// It looks at the vertex's darts and at the curves of two edges, and where no observer joins takes no memory of its own.
pub fn remove_if_redundant(
    alloc: Global,
    records: &mut Records,
    history: &mut History,
    bus: &mut Bus,
    w: VertexId,
)
    requires in_step { AreInStep (map_of records.old) (curves_on history.old) (bus_row Observer-dyn bus.old) }
    requires map { IsMapAtRest records.old }
    requires vertex { HasVertex records.old.graph w }
    requires unpinned { pinned_in records.old.graph w ≡ false }
    ensures tidied { IsVertexTidied (map_of records.old) history.old (bus_row Observer-dyn bus.old) w (map_of records.new) history.new (bus_row Observer-dyn bus.new) }
    ensures in_step { AreInStep (map_of records.new) (curves_on history.new) (bus_row Observer-dyn bus.new) }
    ensures map { IsMapAtRest records.new }
    ensures layer { SameLayer history.old history.new }
    ensures records_capacity { SameRecordCapacity records.old records.new }
    ensures spare_faces { IsSpareFaces records.old.faces records.new.faces 0 0 }
    ensures history_capacity { SameHistoryCapacity history.old history.new }
{
    let Some(first) = records.out_of(w) else {
        remove_vertex(alloc, records, &*history, bus, w);
        return;
    };
    let Some(_) = joinable(&*records, &*history, w, first) else {
        return;
    };
    merge_edge(alloc, records, history, bus, w);
}

/// Each of the vertices, in order, is tidied where it isn't pinned. Where edges went, and these are the vertices at their ends,
/// this takes away just the points that are no longer vertices (CGAL manual, removing a curve: vertices that become
/// redundant).
///
/// It looks at the vertices' darts and at the curves of their edges, not at other records, and where no observer joins takes no
/// memory of its own.
pub fn remove_redundant(
    alloc: Global,
    records: &mut Records,
    history: &mut History,
    bus: &mut Bus,
    vertices: &[VertexId],
)
    requires in_step { AreInStep (map_of records.old) (curves_on history.old) (bus_row Observer-dyn bus.old) }
    requires map { IsMapAtRest records.old }
    requires have { AllByRecursion (λ w. HasVertex records.old.graph w) vertices.now }
    requires ascend { IsAscending point_cmp (map (point_in records.old.graph) vertices.now) }
    ensures tidied { AreOthersGone (map_of records.old) history.old (bus_row Observer-dyn bus.old) vertices.now (map_of records.new) history.new (bus_row Observer-dyn bus.new) }
    ensures in_step { AreInStep (map_of records.new) (curves_on history.new) (bus_row Observer-dyn bus.new) }
    ensures map { IsMapAtRest records.new }
    ensures layer { SameLayer history.old history.new }
    ensures records_capacity { SameRecordCapacity records.old records.new }
    ensures spare_faces { IsSpareFaces records.old.faces records.new.faces 0 0 }
    ensures history_capacity { SameHistoryCapacity history.old history.new }
{
    for vertex in vertices {
        if !records.pinned(*vertex) {
            remove_if_redundant(alloc, records, history, bus, *vertex);
        }
    }
}
